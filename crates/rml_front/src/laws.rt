// What follows from the definitions alone. Each function is its contract: it only calls the laws of the crates below
// that its proof takes.
ghost use Rattle.rml_front.specs.Laws.{AnswersAreUnique, NameFaultIsLeast};

/// A text has one model or one fault, and never both.
pub fn text_law()
    ensures { AnswersAreUnique }
{
    rml_lex::one_reading();
    rml_syntax::one_tree_or_fault();
    rml_fragment::fault_law();
}

/// A fault of names and sorts stands before no other demand on them that the text does not meet.
pub fn name_fault_law()
    ensures { NameFaultIsLeast }
{
    rml_syntax::places_ascend();
    rml_items::order_law();
}
