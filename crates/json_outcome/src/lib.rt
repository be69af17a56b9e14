//! What is found of a model, as JSON: structures, executions, the report of a check, its bounded runs, the greatest
//! inductive set of its conjectures, which of them carry which group, and whether a printed report is right. Each value
//! is the one that the definition names; how it is written is for `json_values`.
#![tactic(auto)]

mod bounded;
mod execution;
mod fault;
mod group;
mod houdini;
mod reasons;
mod replay;
mod report;
mod structure;

pub use bounded::bounded_object;
pub use fault::faulty_object;
pub use houdini::houdini_object;
pub use reasons::reasons_object;
pub use replay::{judged_object, unread_object};
pub use report::report_object;
