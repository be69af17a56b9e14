//! A report as a person wants to read it. Elements have the names of their sorts with a number, those of a listed
//! sort their own; of a counterexample stands what is true before it, which elements and branches it takes, what it
//! changes, and what is false after it; at the end how much holds, and which option to raise for what is left open,
//! if one helps.
#![tactic(auto)]

mod causes;
mod execution;
mod groups;
mod in_text;
mod numbers;
mod telling;

pub use causes::{push_cause_line, push_cause_words, push_open_at};
pub use execution::{push_after, push_differences, push_execution, push_state, push_step};
pub use groups::{push_fault, push_path, push_undecided};
pub use in_text::InText;
pub use numbers::{push_numbered, push_two_numbered};
pub use telling::tell;
