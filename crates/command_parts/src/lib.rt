//! What the program's commands are made of: the one model of a text or its one fault, the limits that a command line
//! asks for, the lines of faults and refusals, and texts with the sink and the status that go with them. No command is
//! named here, and nothing is decided.
#![tactic(auto)]

mod asked;
mod fault_text;
mod model_text;
mod saying;

pub use asked::limits_of;
pub use fault_text::{ReportCode, fault_line, refusal_line, say_model_fault};
pub use model_text::read_model;
pub use saying::{complaint, shown, verdict};
