//! Printed reports are read back: the lines of a text against the model of which it is to be a report. What a report
//! says is not judged here, and no solver and no precondition is asked.
#![tactic(auto)]

mod block;
mod goals;
mod groups;
mod heads;
mod laws;
mod opening;
mod reader;
mod reading;
mod tables;
mod values;

pub use laws::print_laws;
pub use reading::read_report;
