//! What the derived relations of a text are in the states of an execution. A model has none: where its text uses one,
//! the formula stands that it is a name of. Whoever reads a counterexample wants to see them by their names all the
//! same, so their right sides are taken from the text once more and asked at each tuple.
#![tactic(auto)]

mod definitions;
mod derived;
mod telling;

pub use definitions::Definitions;
