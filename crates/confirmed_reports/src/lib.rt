//! What `check` prints, `replay` confirms: the text of a right report of a model is read as what was printed of it, and
//! each execution in it is what it is said to be. So whoever gets a report that is denied knows that it is not one.
#![tactic(auto)]

mod laws;

pub use laws::{checked_law, confirmed_law};
