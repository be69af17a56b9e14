// Solving, also where the numbers of the variables are sparse: the search then runs over the variables 1, 2, .., and
// its log is handed over under the names when it is whole. So memory goes by the literals of the formula and the log.
ghost use Rattle.std.specs.Prelude.{◌≡◌, ◌+◌, ◌≤◌, [], length, IfOk};
ghost use Rattle.lrat_log.specs.Accepted.{IsAccepted};
ghost use Rattle.lrat_log.specs.Logs.{IsLogOver};
ghost use Rattle.renumbering.specs.Renumbered.{IsRenumbered};
ghost use Rattle.cdcl.specs.Answered.{IsAnswer, IsSolved};
ghost use Rattle.cnf_base.specs.Numerals.{max_number};

use crate::solver::{Answer, Solved, search_into};
use base::Mem;
use cdcl_tables::Kept;
use cnf_base::Cnf;
use lrat_log::{Sink, range_laws};
use renumbering::{
    Renumbered, hand_over, is_sparse, renumber, renumbering_laws, values_back, variable_laws,
};
use std::alloc::Global;

/// As `solve_into`, by a search for truth values of the dense formula.
fn solve_dense<S: Sink>(alloc: Global, sink: &mut S, dense: &Renumbered, budget: u64) -> Mem<Answer>
    requires begins { S.lines sink.old ≡ [] }
    requires few { (S.formula sink.old).variables ≤ max_number }
    requires room { length (S.formula sink.old).clauses + budget ≤ 2147483646 }
    requires dense { IsRenumbered (S.formula sink.old) dense.now.cnf dense.now.names.items }
    ensures answer { IfOk result (IsAnswer (S.formula sink.old) budget (S.lines sink.new)) }
    ensures formula { S.formula sink.new ≡ S.formula sink.old }
    ensures accepted { IsAccepted (S.formula sink.old) (S.lines sink.new) }
    ensures range { IsLogOver (S.formula sink.old).variables (length (S.formula sink.old).clauses) (S.lines sink.new) }
{
    renumbering_laws();
    variable_laws();
    let mut kept = Kept::new(alloc, &dense.cnf);
    match search_into(alloc, &mut kept, budget)? {
        Answer::Sat(values) => {
            let values = values_back(alloc, sink.formula(), dense, &values)?;
            Ok(Answer::Sat(values))
        }
        Answer::Unsat => {
            hand_over(alloc, dense.names.as_slice(), kept.lines.as_slice(), sink)?;
            Ok(Answer::Unsat)
        }
        Answer::Spent => {
            hand_over(alloc, dense.names.as_slice(), kept.lines.as_slice(), sink)?;
            Ok(Answer::Spent)
        }
    }
}

/// Searches for truth values that satisfy the formula of a sink, and hands each line of the log over as it is made.
/// With each answer comes its evidence: the truth values, or the lines that were handed over, which refute the formula,
/// or are just so many learnt clauses as the budget has. After want of memory too they are lines that are accepted.
pub fn solve_into<S: Sink>(alloc: Global, sink: &mut S, budget: u64) -> Mem<Answer>
    requires begins { S.lines sink.old ≡ [] }
    requires few { (S.formula sink.old).variables ≤ max_number }
    requires room { length (S.formula sink.old).clauses + budget ≤ 2147483646 }
    ensures answer { IfOk result (IsAnswer (S.formula sink.old) budget (S.lines sink.new)) }
    ensures formula { S.formula sink.new ≡ S.formula sink.old }
    ensures accepted { IsAccepted (S.formula sink.old) (S.lines sink.new) }
    ensures range { IsLogOver (S.formula sink.old).variables (length (S.formula sink.old).clauses) (S.lines sink.new) }
{
    if is_sparse(sink.formula()) {
        if let Some(dense) = renumber(alloc, sink.formula())? {
            let answer = solve_dense(alloc, sink, &dense, budget)?;
            return Ok(answer);
        }
    }
    let answer = search_into(alloc, sink, budget)?;
    Ok(answer)
}

/// As `solve_into`, with a log of the lines.
pub fn solve(alloc: Global, cnf: &Cnf, budget: u64) -> Mem<Solved>
    requires few { cnf.now.variables ≤ max_number }
    requires room { length cnf.now.clauses + budget ≤ 2147483646 }
    ensures { IfOk result (IsSolved cnf.now budget) }
{
    range_laws();
    let mut kept = Kept::new(alloc, cnf);
    let solved = match solve_into(alloc, &mut kept, budget)? {
        Answer::Sat(values) => Solved::Sat(values),
        Answer::Unsat => Solved::Unsat(kept.into_log()),
        Answer::Spent => Solved::Spent(kept.into_log()),
    };
    Ok(solved)
}
