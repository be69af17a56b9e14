//! Logs of refutations in the format LRAT (Cruz-Filipe, Heule, Hunt, Kaufmann and Schneider-Kamp,
//! "Efficient Certified RAT Verification", 2017), without RAT steps: their lines and text, when a line
//! is accepted, and what an accepted log shows.
#![tactic(auto)]

mod fault_code;
mod laws;
mod line;
mod outcome;
mod reader;
mod refusal_code;
mod sink;
mod text;
mod writer;

pub use fault_code::LogFaultCode;
pub use laws::{bound_law, code_laws, growth_laws, learnt_laws, range_laws, round_trip, soundness};
pub use limits::{Cause, Limits};
pub use line::{Line, Log};
pub use outcome::{Effect, Outcome};
pub use reader::read_log;
pub use refusal_code::RefusalCode;
pub use sink::Sink;
pub use text::LogFault;
pub use writer::{write_lines, write_log};
