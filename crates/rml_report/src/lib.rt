//! What is reported of a model, what each of its lines says, and its text.
#![tactic(auto)]

mod block;
mod havocs;
mod laws;
mod least;
mod rendering;
mod report;
mod structures;
mod words;

pub use block::{push_execution, push_path_line};
pub use havocs::push_havoc_line;
pub use laws::{rendering_law, report_law};
pub use least::{Bound, Least};
pub use limits::Cause;
pub use rendering::{push_head, push_stage, render};
pub use report::{Answer, Axioms, Group, Report, Verdict};
pub use structures::{push_sorts, push_tables, tables};
pub use words::{push_cause, push_labelled, push_name, push_numbers_line};
