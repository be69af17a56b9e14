//! Which conjectures carry a group of goals: a list of them such that its goals have no counterexample where only these
//! hold before the stage, and without any one of them some goal has one or is left open. A designer sees which
//! invariants carry which, and which carry nothing.
//!
//! Such a list is what is called a minimal unsatisfiable subset where clauses stand in the place of conjectures
//! (Liffiton and Sakallah, "Algorithms for computing minimal unsatisfiable subsets of constraints", JAR 2008); it is
//! found by leaving out one after another.
#![tactic(auto)]

mod laws;
mod needs;
mod reason;
mod search;

pub use laws::reason_law;
pub use reason::{Carried, Lack, Need};
pub use search::carried_by;
