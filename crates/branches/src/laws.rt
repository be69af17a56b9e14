// What follows from the definitions alone. Each function is its contract, and does nothing.
ghost use Rattle.branches.specs.Laws.{MarkedPathsAreThePaths, MarksStandInText};

/// The marked paths of a stage of a tree are the paths of that stage of the tree's model, in order, with the marks
/// beside them.
pub fn branch_law()
    ensures { MarkedPathsAreThePaths }
{}

/// The marks of a path stand where the words of the tree do.
pub fn mark_law()
    ensures { MarksStandInText }
{}
