// What carries a group, and what it lacks.
use base::Row;
use limits::Cause;
use rml_command::Goal;
use rml_exec::Counterexample;

/// What a group lacks where some conjectures are held.
#[derive(Drop)]
pub enum Lack {
    /// The first of its goals that fails, by a counterexample of it.
    Fails(Counterexample),
    /// None fails, and this one is the first that is left open, for this cause.
    Open(Goal, Cause),
}

/// A conjecture that cannot be left out.
#[derive(Drop)]
pub struct Need {
    /// Its number among the model's conjectures, from 0.
    pub conjecture: u32,
    /// What the group lacks without it.
    pub lack: Lack,
}

/// What carries a group.
#[derive(Drop)]
pub enum Carried {
    /// These conjectures, in the order of the file. None of them can be left out.
    By(Row<Need>),
    /// Not even all conjectures do: what the group lacks where all are held.
    Not(Lack),
}
