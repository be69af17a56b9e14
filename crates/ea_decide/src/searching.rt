// The search for truth values, whose refutation goes through a checker line by line.
ghost use Rattle.std.specs.Prelude.{◌≡◌, ℕ, ◌+◌, ◌≤◌, true, length, IfOk};
ghost use Rattle.lrat_log.specs.Accepted.{adds_empty};
ghost use Rattle.lrat_log.specs.Logs.{IsLogOver};
ghost use Rattle.ea_decide.specs.Searches.{IsSearched};

use crate::decided::Proof;
use base::Mem;
use cdcl::{Answer, solve_into};
use cnf_base::{Cnf, Values};
use lrat_check::Checker;
use std::alloc::Global;

/// What a search ended with.
#[derive(Drop)]
pub enum Searched {
    /// The clauses have no model, as the checker found.
    Refuted(Proof),
    Satisfied(Values),
    /// The budget of learnt clauses is spent.
    Spent,
}

/// Searches under a budget of learnt clauses. The checker holds the clauses, and takes each learnt one as it is made.
pub fn search(alloc: Global, cnf: Cnf, budget: u64) -> Mem<Searched>
    requires few { cnf.variables ≤ 2147483647 }
    requires room { length cnf.clauses + budget ≤ 2147483646 }
    ensures { IfOk result (IsSearched cnf budget) }
{
    let mut checker = Checker::of(alloc, cnf)?;
    match solve_into(alloc, &mut checker, budget)? {
        Answer::Sat(values) => Ok(Searched::Satisfied(values)),
        Answer::Unsat => Ok(refuted(checker)),
        Answer::Spent => Ok(Searched::Spent),
    }
}

// What a checker took refutes its formula.
fn refuted(checker: Checker) -> Searched
    requires refutes { adds_empty checker.lines ≡ true }
    requires range { IsLogOver checker.formula.variables (length checker.formula.clauses) checker.lines }
    ensures { (budget : ℕ) → IsSearched checker.formula budget result }
{
    let proof = Proof::new(checker);
    let _cnf = proof.formula();
    Searched::Refuted(proof)
}
