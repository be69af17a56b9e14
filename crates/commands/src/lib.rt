//! What all commands of a program share: their files are loaded, the texts are answered, what is due is written, and
//! the status says how it went. No command is named here.
#![tactic(auto)]

mod command;
mod said;
mod side;
mod write;

pub use command::{Command, Done, no_file, one_file, two_files};
pub use said::Said;
pub use side::{Side, Written};
pub use write::{Finished, finish};
