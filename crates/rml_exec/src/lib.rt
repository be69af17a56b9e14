//! The paths of a block are followed in finite structures.
#![tactic(auto)]

mod following;
mod tables;
mod trace;

pub use following::{follow, havocs_after};
pub use trace::{Counterexample, Followed, Trace};
