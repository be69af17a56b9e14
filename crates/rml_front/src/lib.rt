//! The front end: a text is read to its model, or to its one fault.
//!
//! Five phases judge the text: its bytes, its grammar, its names and sorts, the sizes of what uses of derived relations
//! stand for, and the fragment with the number of paths. The fault of a text is that of the earliest phase that finds
//! one. `specs/Texts` says so in the terms of the crates below, each of which defines its own faults; here they are put
//! together.
#![tactic(auto)]

mod laws;
mod reading;

pub use laws::{name_fault_law, text_law};
pub use reading::read_model;
