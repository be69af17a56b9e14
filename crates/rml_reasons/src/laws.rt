// What follows from the definitions alone. Each function is its contract, and does nothing.
ghost use Rattle.rml_reasons.specs.Laws.{CarriedGroupsHold};

/// A group that some conjectures carry holds.
pub fn reason_law()
    ensures { CarriedGroupsHold }
{}
