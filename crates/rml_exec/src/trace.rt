// What is followed, and how it ends.
use base::Row;
use fol_sig::Structure;
use rml_command::{Goal, Havoc};

/// A path, by its number in its block from 1, and for each of its havocs in order an element of the variable or the
/// tuples of the relation.
#[derive(Drop)]
pub struct Trace {
    pub path: u32,
    pub havoc: Row<Havoc>,
}

/// An execution that a goal forbids: where it begins, which path it takes with which elements and tuples, and the
/// values of the conjecture's leading quantifiers under which the rest of it is false.
#[derive(Drop)]
pub struct Counterexample {
    pub structure: Structure,
    pub trace: Trace,
    pub goal: Goal,
    pub values: Row<u32>,
}

/// How following a path ends. `Blocked` is no outcome.
#[derive(Drop)]
pub enum Followed {
    Ended(Structure),
    Aborted,
    Blocked,
}
