//! A fault of a model's text, told as compilers tell one: its line with a caret, what may stand there, and what is
//! written in the place of what newcomers write. `ivycheck` says the fault in one short line, for scripts.
//!
//! What is told beside a fault follows from the text alone: its bytes are no tokens, or its tokens no file, or it has a
//! tree, which the faults of names and sorts leave as it is. So the text is read once more, and only where it is told.
#![tactic(auto)]

mod hint;
mod looking;
mod reading;
mod rendering;
mod source;
mod telling;

pub use hint::Hint;
pub use reading::{Reading, read};
pub use telling::fault_text;
