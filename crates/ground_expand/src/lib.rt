//! The instance of a universal sentence over its ground terms.
//!
//! A universal quantifier becomes an And over the terms of its sort. The instance of a large sentence has
//! millions of nodes, so it is never built: its nodes are handed to a sink one after another.
#![tactic(auto)]

mod expanding;
mod laws;
mod listing;
mod places;
mod scope;

pub use expanding::expand_into;
pub use laws::instance_laws;
pub use listing::expand;
