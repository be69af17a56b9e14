//! A checker of logs in the format LRAT, without RAT steps.
#![tactic(auto)]

mod checker;
mod hints;
mod laws;
mod marks;
mod spans;
mod table;
mod whole;

pub use checker::{Checker, Refusal};
pub use laws::written_law;
pub use whole::{check_log, check_owned};
