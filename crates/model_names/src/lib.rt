//! What is so of the names of a model, since they were read from a text: each is a word of the language. So a name that
//! is printed in a line of a report ends no line.
#![tactic(auto)]

mod laws;

pub use laws::names_law;
