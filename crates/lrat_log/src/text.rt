// Where in a line a reader of a log stands, and what it finds amiss.
use crate::fault_code::LogFaultCode;

/// Which word of a line is wanted next.
#[derive(Clone, Copy)]
pub enum Stage {
    Id,
    Second,
    Literals,
    Hints,
    Deleted,
}

/// What is wrong with the text of a log, and at which byte, from 0 on.
#[derive(Clone, Copy, PartialEq, Eq, Debug)]
pub struct LogFault {
    pub code: LogFaultCode,
    pub at: u64,
}
