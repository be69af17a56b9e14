// A formula and a log, with ` / ` between them: whether the log is accepted.
ghost use Rattle.std.specs.Prelude.{length};
ghost use Rattle.lrat_log.specs.Logs.{IsLogOver};

use base::{Mem, Refused};
use call_files::Call;
use cnf_base::{Cnf, read_cnf};
use lrat_check::check_log;
use lrat_log::{Log, read_log};
use std::alloc::{AllocError, Global};

fn verdict_of(alloc: Global, cnf: &Cnf, log: &Log) -> Mem<String>
    requires { IsLogOver cnf.now.variables (length cnf.now.clauses) log.now }
{
    match check_log(alloc, cnf, log) {
        Ok(checker) => {
            let count = checker.lines().len();
            let verdict = if checker.is_refuted() {
                "refuted"
            } else {
                "not refuted"
            };
            format!(in alloc; "{verdict} by {count} lines")
        }
        Err(Refused::For(refusal)) => {
            let (code, id) = (refusal.code.number(), refusal.id);
            format!(in alloc; "C{code} at id {id}")
        }
        Err(Refused::NoMemory) => Err(AllocError),
    }
}

fn checked(alloc: Global, cnf: &Cnf, text: &[u8]) -> Mem<String> {
    let variables = u64::from(cnf.variables());
    let clauses = cnf.clauses().len() as u64;
    match read_log(alloc, text, variables, clauses) {
        Ok(log) => verdict_of(alloc, cnf, &log),
        Err(Refused::For(_)) => String::from_str(alloc, "a fault of the log"),
        Err(Refused::NoMemory) => Err(AllocError),
    }
}

/// Whether a log is accepted that stands behind its formula.
pub struct Checks;

impl Call for Checks {
    fn answer(alloc: Global, input: &str) -> Mem<String> {
        let (formula, log) = input.split_once(" / ").unwrap_or((input, ""));
        match read_cnf(alloc, formula.as_bytes()) {
            Ok(cnf) => checked(alloc, &cnf, log.as_bytes()),
            Err(Refused::For(_)) => String::from_str(alloc, "a fault of the formula"),
            Err(Refused::NoMemory) => Err(AllocError),
        }
    }
}
