// Logs of refutations over 2 variables and 4 clauses, read and written again.
use crate::quoting::quoted;
use base::{Mem, Refused};
use call_files::Call;
use lrat_log::{Log, read_log, write_log};
use std::alloc::{AllocError, Global};

fn told(alloc: Global, log: &Log) -> Mem<String> {
    let count = log.lines().len();
    let text = write_log(alloc, log)?;
    let text = quoted(alloc, &text)?;
    let text = text.as_str();
    format!(in alloc; "{count} lines: {text}")
}

/// The log of a text, or its first fault.
pub struct Logs;

impl Call for Logs {
    fn answer(alloc: Global, input: &str) -> Mem<String> {
        let text = input.as_bytes();
        match read_log(alloc, text, 2, 4) {
            Ok(log) => told(alloc, &log),
            Err(Refused::For(fault)) => {
                let (code, at) = (fault.code.number(), fault.at);
                format!(in alloc; "L{code} at byte {at}")
            }
            Err(Refused::NoMemory) => Err(AllocError),
        }
    }
}
