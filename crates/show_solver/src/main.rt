//! Prints what is answered to formulas in DIMACS and to logs of refutations: read and written again (`read_cnf`,
//! `write_cnf`, `read_log`, `write_log`), checked (`check_log`), and searched for values (`solve`, under small and
//! large budgets). What `stdout` holds was written down from outside, by hand from the definitions, but for how many
//! lines refute the last formula, pigeons. The gate runs the program as two compilers make it, and compares what it
//! writes to the byte.
#![tactic(auto)]

mod checks;
mod formulas;
mod logs;
mod quoting;
mod solving;

use call_files::tell;
use checks::Checks;
use formulas::Formulas;
use logs::Logs;
use solving::Solving;
use std::io;
use std::process::ExitCode;

fn tell_all(rt: HostRuntime) -> io::Result<()> {
    let alloc = rt.alloc();
    tell::<Formulas>(rt, alloc, "formulas.txt")?;
    tell::<Logs>(rt, alloc, "logs.txt")?;
    tell::<Checks>(rt, alloc, "checks.txt")?;
    tell::<Solving>(rt, alloc, "solving.txt")
}

fn main(rt: HostRuntime) -> ExitCode {
    match tell_all(rt) {
        Ok(()) => ExitCode::SUCCESS,
        Err(_) => {
            let _ = eprintln!(&rt; "a file can't be read, or the memory or the output fails");
            ExitCode::FAILURE
        }
    }
}
