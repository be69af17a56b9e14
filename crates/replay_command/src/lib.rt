//! `replay MODEL REPORT`: a report that anybody printed is judged again, against the text of its model. The report is
//! read line by line, and its executions are followed; what it shows is believed for no other reason. What reads and
//! judges it (`report_read`, `report_replay`) stands on no solver and on no precondition.
#![tactic(auto)]

mod replay;

pub use replay::{Replay, ReplayAnswer};
