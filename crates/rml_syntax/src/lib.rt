//! The parser: the one tree of a text's tokens, or exactly its first fault.
//!
//! The grammar of commands, items and files, their trees and where the nodes stand are defined in `specs`, over those
//! of terms (`rml_terms`). The code has one function for each production, which takes its tokens from the front and
//! hands on the rest.
#![tactic(auto)]

mod commands;
mod items;
mod laws;
mod parser;
mod tree;

pub use laws::{ascending, one_tree_or_fault, places_ascend};
pub use parser::parse;
pub use tree::{Command, Format, Item, Tree};
