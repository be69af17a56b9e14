//! What `ivyview` does: from the words of a command line and the files to the sinks and the status. What is answered is
//! what `ivycheck` answers, with the text's tree beside, by which the branches of a path are told, or what may stand at
//! its fault; shown of it is a text, pictures, or a JSON value. Each question is a module, and a page of definitions,
//! which say what is due; `specs/Questions` is the one page that names them all.
#![tactic(auto)]

mod bmc;
mod check;
mod ended;
mod faults;
mod houdini;
mod inquiry;
mod json_ways;
mod perform;
mod question;
mod replay;
mod showing;
mod source;
mod telling;
mod top;
mod viewed;
mod why;
mod words;

pub use ended::{Answer, Ended, Loaded};
pub use top::view;
pub use viewed::{ModelAnswer, Viewed};
pub use why::WhyAnswer;
