// What follows from the definitions alone.
ghost use Rattle.verdicts.specs.Laws.{ReportsAreRight, ShownAreLeast};

/// Each line of a report that is made of right answers is right, and its counterexamples have least sizes, or the
/// search for smaller ones stopped, as it says.
pub fn report_law()
    ensures right { ReportsAreRight }
    ensures least { ShownAreLeast }
{
    rml_command::goal_law();
}
