// What follows from the definitions alone. Each function is its contract, and does nothing.
ghost use Rattle.rml_report.specs.Laws.{InductiveIsSafe, RightCanBeRendered};

/// Where a right report says `inductive`, no run of the model aborts or breaks a conjecture: any number
/// of actions and steps, any sizes.
pub fn report_law()
    ensures { InductiveIsSafe }
{
    rml_command::run_law();
}

/// A right report can be written out.
pub fn rendering_law()
    ensures { RightCanBeRendered }
{}
