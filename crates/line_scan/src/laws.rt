// What follows from the definitions alone. Each function is its contract, and does nothing.
ghost use Rattle.line_scan.specs.Laws.{LinesAreCut, ScansAreExact};

/// A text is its lines, and whole lines are the lines of their text.
#[tactic(auto, using(crate::proofs::Joining::are_cut))]
pub fn line_laws()
    ensures { LinesAreCut }
{}

/// Words and numbers are found exactly where they stand in front.
#[tactic(auto, using(crate::proofs::Numbers::exact))]
pub fn scan_laws()
    ensures { ScansAreExact }
{}
