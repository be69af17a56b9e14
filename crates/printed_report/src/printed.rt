// What a printed report says. What it says of the axioms, of limits and of least sizes is not kept: nobody can tell it
// without deciding.
use base::Row;
use fol_sig::Structure;
use rml_command::{About, Stage};
use rml_exec::Counterexample;
use rml_report::Verdict;

/// The text is no printed report of the model: this line, from 1, is the first that none has behind the lines before
/// it, or the one that is missing.
#[derive(Clone, Copy, Debug, PartialEq, Eq)]
pub struct Unread {
    pub line: u64,
}

/// What a printed report says of a group.
#[derive(Drop)]
pub enum PrintedAnswer {
    Holds,
    /// An execution along one of the block's `paths` is shown. `after` is the structure in which it is said to end; of
    /// an abort there is none.
    Fails {
        paths: u32,
        shown: Counterexample,
        after: Option<Structure>,
    },
    Undecided,
}

/// A group of the model, the line of its head, from 1, and what is said of it.
#[derive(Drop)]
pub struct PrintedGroup {
    pub stage: Stage,
    pub about: About,
    pub line: u64,
    pub answer: PrintedAnswer,
}

/// A whole report.
#[derive(Drop)]
pub struct Printed {
    pub verdict: Verdict,
    /// The groups of the model, in order.
    pub groups: Row<PrintedGroup>,
}
