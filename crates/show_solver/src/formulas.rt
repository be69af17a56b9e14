// Formulas in DIMACS, read and written again.
use crate::quoting::quoted;
use base::{Mem, Refused};
use call_files::Call;
use cnf_base::{Cnf, read_cnf, write_cnf};
use std::alloc::{AllocError, Global};

fn told(alloc: Global, cnf: &Cnf) -> Mem<String> {
    let (variables, clauses) = (cnf.variables(), cnf.clauses().len());
    let text = write_cnf(alloc, cnf)?;
    let text = quoted(alloc, &text)?;
    let text = text.as_str();
    format!(in alloc; "{variables} variables, {clauses} clauses: {text}")
}

/// The formula of a text, or its first fault.
pub struct Formulas;

impl Call for Formulas {
    fn answer(alloc: Global, input: &str) -> Mem<String> {
        let text = input.as_bytes();
        match read_cnf(alloc, text) {
            Ok(cnf) => told(alloc, &cnf),
            Err(Refused::For(fault)) => {
                let (code, at) = (fault.code.number(), fault.at);
                format!(in alloc; "N{code} at byte {at}")
            }
            Err(Refused::NoMemory) => Err(AllocError),
        }
    }
}
