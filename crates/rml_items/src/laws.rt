// What follows from the definitions alone. Each function is its contract, and calls the laws that its proof takes.
ghost use Rattle.rml_items.specs.Laws.{FaultStandsInText, DemandsAscend, FaultIsLeast, WordsStaySorted};
ghost use Rattle.rml_items.specs.Laws.{DemandsAreMet};

/// The fault of a tree's names and sorts stands where the tree's names and words do.
pub fn fault_law()
    ensures { FaultStandsInText }
{}

/// Where the names and words of a tree stand in the order of reading, so do the demands of its names and sorts; and its
/// fault, the first demand that is not met, stands before no other one that is not met.
pub fn order_law()
    ensures demands { DemandsAscend }
    ensures fault { FaultIsLeast }
{
    rml_syntax::ascending();
}

/// What is declared stays sorted with each item whose demands are met.
pub fn sorted_law()
    ensures { WordsStaySorted }
{}

/// Where a tree has no fault of names and sorts, the demands of each of its items are met.
pub fn met_law()
    ensures { DemandsAreMet }
{}
