//! The axioms of equality over ground terms.
//!
//! The atoms of a ground formula are independent of one another, also the equations among them. These axioms
//! make the equations an equality: reflexive, symmetric, transitive, and such that equal terms can be exchanged
//! in each argument place of each relation and function. There are as many as tuples of terms, so they are
//! never kept: each is handed to a sink.
#![tactic(auto)]

mod clauses;
mod handing;
mod laws;
mod listing;
mod scheme;
mod tuples;

pub use handing::axioms_into;
pub use laws::{axiom_laws, equality_laws, implication_law};
pub use listing::axioms;
