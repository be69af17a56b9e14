//! The places of quantifiers where none may stand: inside an `ite`, and on the right of an update or a definition. They
//! are read off the tree, whatever else is wrong with it.
#![tactic(auto)]

mod blocks;
mod expressions;

pub use blocks::add_block_quantifiers;
pub use expressions::add_quantifiers;
