//! The parser of terms: names and expressions, and their trees.
//!
//! The grammar, the trees and where their nodes stand are defined in `specs`. The code has one function for each
//! production, which takes its tokens from the front and hands on the rest. What the crate above needs of the readers
//! of terms, to prove that whole texts are read right, are the laws.
#![tactic(auto)]

mod laws;
mod naming;
mod terms;
mod tree;

pub use laws::{terms_are_read, terms_ascend, terms_nest, terms_stand};
pub use naming::{name, names, parameters};
pub use terms::{arguments, binder, enclosed, expr};
pub use tree::{Binder, Expr, Name, Quantifier};
