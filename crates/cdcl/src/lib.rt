//! A solver for clauses with two watched literals and first-UIP learning. Each answer carries its evidence: a model of
//! the formula, a refutation as a log, or a log of as many learnt clauses as the budget has. The lines of the log are
//! handed over as they are learnt.
#![tactic(auto)]

mod analyse;
mod load;
mod pairing;
mod propagate;
mod search;
mod solver;
mod sparse;
mod state;
mod trail;
mod truth;

pub use solver::{Answer, Solved};
pub use sparse::{solve, solve_into};
