//! The words of `ivyview`: those of `ivycheck` that ask what is so of a model, and `why FILE`, with options of its own
//! anywhere among them. What is left without these options is read as `ivycheck` reads it, by `clap`; so both programs
//! take the same words for the same thing.
#![tactic(auto)]

mod asking;
mod manual;
mod options;

pub use asking::{Ask, Question, read_ask};
pub use manual::{help, usage};
pub use options::{Form, Options, other_words};
