//! The model of a text's tree, or its fault: of its names and sorts, or else of what is too large to be written out.
#![tactic(auto)]

mod blocks;
mod items;
mod laws;
mod listed;
mod sentences;
mod update_commands;
mod whole_tree;

pub use laws::{draft_law, model_law, place_law, size_fault_law};
pub use whole_tree::{draft_model, resolve};
