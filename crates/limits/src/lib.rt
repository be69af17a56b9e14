//! The limits of a decision, and why it was left open. They stand below all that decides, so that each layer speaks of
//! them in the same words.
#![tactic(auto)]

mod cause;
mod limits;

pub use cause::Cause;
pub use limits::Limits;
