//! The top call: from the words of a command line and the files to the sinks and the status. The commands stand in the
//! crates below; here is chosen which of them answers, and `specs/Run` is the one page that names them all.
#![tactic(auto)]

mod ended;
mod perform;
mod top;
mod usage;

pub use ended::{Answer, Ended, Loaded};
pub use top::run;
