//! Sort checking: the first demand on names and sorts that an expression or an update does not meet, in the order of
//! reading. It only reads, so that building needs no answer for what has a fault.
#![tactic(auto)]

mod definitions;
mod faults;
mod targets;
mod wanted;

pub use definitions::definition_fault;
pub use targets::{assign_fault, put_fault, sentence_fault, tuple_fault};
pub use wanted::Wanted;
