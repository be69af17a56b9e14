// A budget and a formula, with ` / ` between them: what the solver answers.
use base::{Mem, Refused};
use call_files::Call;
use cdcl::{Solved, solve};
use cnf_base::{Cnf, read_cnf};
use std::alloc::{AllocError, Global};

fn told(alloc: Global, solved: &Solved) -> Mem<String> {
    match solved {
        Solved::Sat(values) => {
            let count = values.len();
            format!(in alloc; "satisfied by {count} values")
        }
        Solved::Unsat(log) => {
            let count = log.lines().len();
            format!(in alloc; "refuted by {count} lines")
        }
        Solved::Spent(log) => {
            let count = log.lines().len();
            format!(in alloc; "spent after {count} lines")
        }
    }
}

fn solved(alloc: Global, cnf: &Cnf, budget: u64) -> Mem<String> {
    if cnf.clauses().len() > 1000 || budget > 1000 || cnf.variables() > 1000 {
        return String::from_str(alloc, "an input for a bench");
    }
    let solved = solve(alloc, cnf, budget)?;
    told(alloc, &solved)
}

/// What the solver answers to a formula behind its budget.
pub struct Solving;

impl Call for Solving {
    fn answer(alloc: Global, input: &str) -> Mem<String> {
        let (budget, formula) = input.split_once(" / ").unwrap_or(("0", input));
        let budget = budget.parse::<u64>().unwrap_or(0);
        match read_cnf(alloc, formula.as_bytes()) {
            Ok(cnf) => solved(alloc, &cnf, budget),
            Err(Refused::For(_)) => String::from_str(alloc, "a fault of the formula"),
            Err(Refused::NoMemory) => Err(AllocError),
        }
    }
}
