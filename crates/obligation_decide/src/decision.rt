// What is answered of a goal.
use ea_decide::Proof;
use limits::Cause;
use rml_exec::Counterexample;

/// The answer to a goal.
#[derive(Drop)]
pub enum Decision {
    /// It has no counterexample, as the refutation of its refuting sentence shows.
    Holds(Proof),
    Fails(Counterexample),
    /// A limit is passed.
    Undecided(Cause),
}

/// What a goal would cost.
#[derive(Clone, Copy)]
pub enum Measured {
    /// It passes no limit by its size, and the ground formulas of its refuting sentence are of this size.
    Within(u64),
    /// A limit is passed by the goal's size.
    Over(Cause),
}
