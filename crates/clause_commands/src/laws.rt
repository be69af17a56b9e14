// What follows from the definitions alone. The function is its contract, and does nothing.
ghost use Rattle.clause_commands.specs.Evidence.{AcceptedLogProves, WrittenIsRead};

/// `emit FILE GOAL cnf`, any solver that writes a log, and `lrat` are together a proof that the goal holds: nothing is
/// asked of the solver.
pub fn evidence_law()
    ensures proves { AcceptedLogProves }
    ensures written { WrittenIsRead }
{
    cnf_base::round_trip();
}
