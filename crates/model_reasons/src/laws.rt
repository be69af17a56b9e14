// What follows from the definitions alone. The functions are their contracts, and do nothing.
ghost use Rattle.model_reasons.specs.Laws.{IdleCarryNoOther, ReasonsAreShown};

/// Where idle conjectures are left out, all at once, each group that is carried and not about one of them is carried by
/// those that are left.
pub fn idle_law()
    ensures { IdleCarryNoOther }
{}

/// What shows a lack is an execution of the model.
pub fn showing_law()
    ensures { ReasonsAreShown }
{}
