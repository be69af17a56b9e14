// A whole log, checked line by line up to the first line that is refused.
ghost use Rattle.std.specs.Prelude.{◌≡◌, length, Some, None, IfOk, IfErr, OnOk};
ghost use Rattle.base.specs.Because.{Because};
ghost use Rattle.lrat_log.specs.Held.{held_of};
ghost use Rattle.lrat_log.specs.Accepted.{IsAccepted};
ghost use Rattle.lrat_log.specs.Logs.{IsLogOver};
ghost use Rattle.lrat_check.specs.Whole.{first_refusal};

use crate::checker::{Checker, Refusal};
use base::Refused;
use cnf_base::Cnf;
use lrat_log::{Log, growth_laws};
use std::alloc::Global;

/// A checker that has accepted every line of a log, or the refusal of the first line that is not
/// accepted. Whether the log refutes the formula is then `is_refuted`.
pub fn check_log(alloc: Global, cnf: &Cnf, log: &Log) -> Result<Checker, Refused<Refusal>>
    requires { IsLogOver cnf.now.variables (length cnf.now.clauses) log.now }
    ensures checked { IfOk result (λ c. c ≡ record { formula = cnf.now; lines = log.now }) }
    ensures accepted { OnOk result (IsAccepted cnf.now log.now) }
    ensures taken { OnOk result (first_refusal (held_of cnf.now) log.now ≡ None) }
    ensures refused { IfErr result (Because (λ r. first_refusal (held_of cnf.now) log.now ≡ Some r)) }
{
    growth_laws();
    let mut checker = Checker::new(alloc, cnf)?;
    let mut rest = log.lines();
    while let [line, after @ ..] = rest {
        match checker.step(line) {
            Ok(()) => {}
            Err(e) => return Err(e),
        }
        rest = after;
    }
    Ok(checker)
}

/// As `check_log`, of a formula and a log that are moved into the checker and not copied.
pub fn check_owned(alloc: Global, cnf: Cnf, log: Log) -> Result<Checker, Refused<Refusal>>
    requires { IsLogOver cnf.variables (length cnf.clauses) log }
    ensures checked { IfOk result (λ c. c ≡ record { formula = cnf; lines = log }) }
    ensures accepted { OnOk result (IsAccepted cnf log) }
    ensures taken { OnOk result (first_refusal (held_of cnf) log ≡ None) }
    ensures refused { IfErr result (Because (λ r. first_refusal (held_of cnf) log ≡ Some r)) }
{
    growth_laws();
    let mut checker = Checker::of(alloc, cnf)?;
    let mut lines = log.into_lines().into_vec().into_iter();
    while let Some(line) = lines.next() {
        match checker.step_owned(line) {
            Ok(()) => {}
            Err(e) => return Err(e),
        }
    }
    Ok(checker)
}
