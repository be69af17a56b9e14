// What follows from the definitions alone. The function is its contract, and does nothing.
ghost use Rattle.report_replay.specs.Laws.{ConfirmedIsRight, RightIsConfirmed, DeniedIsLeast, VerdictIsLast};

/// A report is confirmed exactly where each execution that it shows is a counterexample of its goal and ends as is
/// printed, and its verdict is that of its groups. A report that is denied breaks a demand at the line and code that
/// are named, and no demand of an earlier line, or of a smaller code on that line. The verdict stands on the last line.
pub fn judgement_law()
    ensures right { ConfirmedIsRight }
    ensures confirmed { RightIsConfirmed }
    ensures denied { DeniedIsLeast }
    ensures last { VerdictIsLast }
{
    fol_sig::tuple_laws();
    rml_command::path_law();
}
