// What is reported of a model.
use crate::least::Least;
use base::Row;
use limits::Cause;
use rml_command::{About, Stage};
use rml_exec::Counterexample;

/// Whether some structure satisfies the axioms.
#[derive(Clone, Copy, Debug, PartialEq, Eq)]
pub enum Axioms {
    Consistent,
    Inconsistent,
    Undecided(Cause),
}

/// Whether the conjectures are inductive and no block aborts.
#[derive(Clone, Copy, Debug, PartialEq, Eq)]
pub enum Verdict {
    Inductive,
    NotInductive,
    Undecided,
}

/// What is said of the goals of a group. Paths are numbered from 1.
#[derive(Drop)]
pub enum Answer {
    Holds,
    /// The shown counterexample is one of the first path that is known to fail; `paths` is the number
    /// of paths of the block.
    Fails {
        paths: u32,
        least: Least,
        shown: Counterexample,
    },
    /// No path is known to fail, and this is the first that was left open.
    Undecided {
        path: u32,
        cause: Cause,
    },
}

/// A block, what is forbidden there, and the answer.
#[derive(Drop)]
pub struct Group {
    pub stage: Stage,
    pub about: About,
    pub answer: Answer,
}

#[derive(Drop)]
pub struct Report {
    pub axioms: Axioms,
    /// The groups of the model, in order.
    pub groups: Row<Group>,
    pub verdict: Verdict,
}
