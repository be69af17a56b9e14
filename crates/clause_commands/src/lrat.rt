// `lrat CNF LOG`: whether the log refutes the formula.
ghost use Rattle.std.specs.Prelude.{◌≡◌, [], length, IfOk};
ghost use Rattle.cnf_base.specs.Formulas.{IsUnsatisfiable};
ghost use Rattle.lrat_log.specs.Held.{held_of};
ghost use Rattle.lrat_log.specs.Logs.{IsLogOver};
ghost use Rattle.lrat_log.specs.Reading.{read_of};
ghost use Rattle.lrat_check.specs.Whole.{first_refusal};
ghost use Rattle.clause_commands.specs.Lrat.{answer_to_lines, answer_to_log, IsPlaced, IsRefutation, lrat_due};

use base::{Mem, Refused};
use cnf_base::{Cnf, CnfFault, read_cnf};
use command_parts::{ReportCode, complaint, fault_line, refusal_line, verdict};
use commands::{Command, Said};
use lrat_check::{Refusal, check_owned};
use lrat_log::{Log, LogFault, read_log};
use progress::Progress;
use std::alloc::{AllocError, Global};

/// The command.
#[derive(Drop)]
pub struct Lrat;

/// What it answers.
#[derive(Drop)]
pub enum LratAnswer {
    /// Each line of the log is accepted, and an addition is empty.
    Refuted,
    /// Each line of the log is accepted, and no addition is empty.
    NotRefuted,
    /// What is wrong with the text of the formula.
    CnfFault(CnfFault),
    /// What is wrong with the text of the log.
    LogFault(LogFault),
    /// The first line of the log that is not accepted.
    Refused(Refusal),
}

// The answer to the lines of a log.
fn judge_lines(alloc: Global, formula: Cnf, log: Log) -> Mem<LratAnswer>
    requires { IsLogOver formula.variables (length formula.clauses) log }
    ensures answer { IfOk result (λ a. a ≡ answer_to_lines log (first_refusal (held_of formula) log)) }
    ensures unsatisfiable { IfOk result (λ a. a ≡ LratAnswer.Refuted → IsUnsatisfiable formula) }
{
    let checker = match check_owned(alloc, formula, log) {
        Ok(checker) => checker,
        Err(Refused::For(refusal)) => return Ok(LratAnswer::Refused(refusal)),
        Err(Refused::NoMemory) => return Err(AllocError),
    };
    if checker.is_refuted() {
        Ok(LratAnswer::Refuted)
    } else {
        Ok(LratAnswer::NotRefuted)
    }
}

// The answer to the text of a log.
fn judge_log(alloc: Global, formula: Cnf, text: &[u8]) -> Mem<LratAnswer>
    ensures answer { IfOk result
        (λ a. a ≡ answer_to_log formula (read_of formula.variables (length formula.clauses) text.now)) }
    ensures unsatisfiable { IfOk result (λ a. a ≡ LratAnswer.Refuted → IsUnsatisfiable formula) }
    ensures places { IfOk result (IsPlaced [] text.now) }
{
    let clauses = formula.clauses().len() as u64;
    let log = match read_log(alloc, text, formula.variables() as u64, clauses) {
        Ok(log) => log,
        Err(Refused::For(fault)) => return Ok(LratAnswer::LogFault(fault)),
        Err(Refused::NoMemory) => return Err(AllocError),
    };
    judge_lines(alloc, formula, log)
}

// The answer to the texts of a formula and of a log.
fn judge_refutation(alloc: Global, formula: &[u8], log: &[u8]) -> Mem<LratAnswer>
    ensures { IfOk result (IsRefutation formula.now log.now) }
{
    match read_cnf(alloc, formula) {
        Ok(cnf) => judge_log(alloc, cnf, log),
        Err(Refused::For(fault)) => Ok(LratAnswer::CnfFault(fault)),
        Err(Refused::NoMemory) => Err(AllocError),
    }
}

impl Command for Lrat {
    type Answer = LratAnswer;

    ghost is_answer = { λ c first second a. IsRefutation first second a };

    ghost due = { λ c first second a. lrat_due first second a };

    fn judge<P: Progress>(
        &self,
        alloc: Global,
        first: &[u8],
        second: &[u8],
        progress: &mut P,
    ) -> Mem<LratAnswer> {
        judge_refutation(alloc, first, second)
    }

    fn say(&self, alloc: Global, first: &[u8], second: &[u8], answer: &LratAnswer) -> Mem<Said> {
        let line = match answer {
            LratAnswer::Refuted => return verdict(alloc, "verdict: refuted\n", 0),
            LratAnswer::NotRefuted => return verdict(alloc, "verdict: not refuted\n", 1),
            LratAnswer::CnfFault(fault) => {
                fault_line(alloc, ReportCode::Formula(fault.code), first, fault.at)?
            }
            LratAnswer::LogFault(fault) => {
                fault_line(alloc, ReportCode::Log(fault.code), second, fault.at)?
            }
            LratAnswer::Refused(refusal) => refusal_line(
                alloc,
                ReportCode::Refusal(refusal.code),
                refusal.id,
            )?,
        };
        Ok(complaint(line, 4))
    }
}
