// What follows from the definitions alone. The function is its contract, and does nothing.
ghost use Rattle.bounded_text.specs.Laws.{BoundedCanBeRendered};

/// What is answered of the bounded runs of a checked model can be written out: each structure of a run that is shown
/// has the model's symbols, and each part takes a path of the model.
pub fn rendering_law()
    ensures { BoundedCanBeRendered }
{
    rml_command::update_law();
    rml_command::path_law();
    rml_command::goal_law();
}
