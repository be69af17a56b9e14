// What follows from the definitions alone. The function is its contract, and does nothing.
ghost use Rattle.told_answers.specs.Laws.{BoundedCanBeTold};

/// What is answered of the bounded runs of a checked model can be told: each structure of a run that is shown has the
/// model's symbols, and the sizes of the one in which the run begins.
pub fn telling_law()
    ensures { BoundedCanBeTold }
{
    bounded_text::rendering_law();
    told_states::end_law();
}
