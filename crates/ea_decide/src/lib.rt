//! Decides exists-forall sentences over stratified functions.
//!
//! Such a sentence is satisfiable exactly where its ground instances, with the axioms of equality over the ground
//! terms, are satisfiable in propositional logic (Bernays and Schönfinkel; Herbrand). So the sentence is written out as
//! clauses, and a solver looks for truth values. What the solver says is not believed: its refutation goes line by line
//! through a checker, and of its truth values a structure is made that satisfies the sentence.
#![tactic(auto)]

mod decided;
mod deciding;
mod grounding;
mod laws;
mod measuring;
mod searching;
mod steps;
mod writing;

pub use decided::{Clauses, Decided, Measured, Passed, Proof};
pub use deciding::decide;
pub use laws::{clauses_law, elements_law, exactness_law, passing_law, size_law};
pub use measuring::{measure, measure_parts, measure_size};
pub use writing::clauses_of;
