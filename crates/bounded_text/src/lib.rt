//! The text of what is answered of bounded runs: a line for each length, under a broken one its run in full, and the
//! verdict.
#![tactic(auto)]

mod laws;
mod lengths;
mod showing;

pub use laws::rendering_law;
pub use lengths::render;
