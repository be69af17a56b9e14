// The main loop: down to a conflict, then one learnt clause, as often as the budget allows. What is learnt is handed
// over at once, so a log need not be kept; and each answer is proved by what was handed over, whatever the search did.
ghost use Rattle.std.specs.Prelude.{List, ◌≡◌, ◌+◌, ◌-◌, ◌<◌, ◌≤◌, [], length, IfOk, OnOk, OnErr, reverse};
ghost use Rattle.cnf_base.specs.declared.cnf.Entry.{Entry};
ghost use Rattle.cnf_base.specs.Formulas.{IsModel};
ghost use Rattle.lrat_log.specs.declared.line.Line.{Line};
ghost use Rattle.lrat_log.specs.declared.line.Line.TheVariants.{Add};
ghost use Rattle.lrat_log.specs.Held.{held_by};
ghost use Rattle.lrat_log.specs.Accepted.{IsAccepted};
ghost use Rattle.lrat_log.specs.Learnt.{IsResolvent};
ghost use Rattle.lrat_log.specs.Logs.{IsLogOver};
ghost use Rattle.lrat_log.specs.Refutations.{IsRefutation};
ghost use Rattle.cdcl.specs.Trail.{IsConflict};
ghost use Rattle.cdcl.specs.State.{held_in};
ghost use Rattle.cdcl.specs.Assigned.{AreAllSet};
ghost use Rattle.cdcl.specs.Logged.{IsLogged};
ghost use Rattle.cdcl.specs.Answered.{IsAnswer};
ghost use Rattle.cdcl.specs.Turns.{IsTurn};
ghost use Rattle.cnf_base.specs.Numerals.{max_number};

use crate::analyse::Learnt;
use crate::load::{Loaded, load};
use crate::search::Solver;
use crate::truth::truth_values;
use base::{Mem, Row};
use cnf_base::{Cnf, Values};
use lrat_log::{Line, Log, Sink, growth_laws, learnt_laws};
use std::alloc::Global;

/// What a search under a budget of learnt clauses ends with: truth values that satisfy the formula, a refutation, or
/// the learnt clauses where the budget is spent.
#[derive(Drop)]
pub enum Solved {
    Sat(Values),
    Unsat(Log),
    Spent(Log),
}

/// As `Solved`, where the lines of the log were handed over.
#[derive(Drop)]
pub enum Answer {
    Sat(Values),
    Unsat,
    Spent,
}

/// How a search stands where it cannot go down further: all variables are set, the formula is refuted, or a clause is
/// false above level 0.
#[derive(Drop)]
pub enum Turn {
    Satisfied(Solver),
    Refuted(Vec<u32>),
    Conflict(Solver, u32),
}

impl Solver {
    /// Goes down to a conflict, and refutes where that is at level 0.
    fn turn(self, alloc: Global) -> Mem<Turn>
        ensures { IfOk result (IsTurn self) }
    {
        let Solver { mut search } = self;
        match search.descend(alloc)? {
            None => Ok(Turn::Satisfied(Solver { search })),
            Some(id) => {
                if !search.starts.is_empty() {
                    return Ok(Turn::Conflict(Solver { search }, id));
                }
                let hints = search.refute(alloc, id)?;
                Ok(Turn::Refuted(hints))
            }
        }
    }

    /// The truth values of a search in which all variables are set.
    fn values(&self, alloc: Global, cnf: &Cnf) -> Mem<Values>
        requires drawn { self.now.head ≡ length self.now.state.trail.steps }
        requires set { AreAllSet self.now.state.trail }
        requires logged { (lines : List Line) × IsLogged cnf.now self.now.state.clauses lines }
        requires few { cnf.now.variables ≤ max_number }
        ensures { IfOk result (IsModel cnf.now) }
    {
        let values = truth_values(alloc, &self.search.state.trail, cnf.variables())?;
        Ok(values)
    }
}

/// The line of a learnt clause.
pub fn line_of(id: u32, learnt: Learnt) -> Line
    ensures { result ≡ Add id learnt.literals.items (reverse learnt.hints.items) }
{
    let Learnt {
        literals,
        mut hints,
        tops: _,
        second: _,
    } = learnt;
    hints.as_mut_slice().reverse();
    Line::Add {
        id,
        lits: Row::from_vec(literals),
        hints: Row::from_vec(hints),
    }
}

/// Learns from a conflict, and hands over what is learnt, under the next id.
fn learn_line<S: Sink>(
    alloc: Global,
    solver: Solver,
    sink: &mut S,
    conflict: u32,
    id: u32,
) -> Mem<Solver>
    requires some { 0 < length solver.starts.items }
    requires conflict { IsConflict (held_in solver.state) solver.state.trail.steps conflict }
    requires logged { IsLogged (S.formula sink.old) solver.state.clauses (S.lines sink.old) }
    requires few { (S.formula sink.old).variables ≤ max_number }
    requires id { id ≡ length (S.formula sink.old).clauses + length (S.lines sink.old) + 1 }
    requires room { length (S.formula sink.old).clauses + length (S.lines sink.old) < 2147483646 }
    ensures formula { S.formula sink.new ≡ S.formula sink.old }
    ensures logged { IfOk result (λ s. IsLogged (S.formula sink.old) s.state.clauses (S.lines sink.new)) }
    ensures count { OnOk result (length (S.lines sink.new) ≡ length (S.lines sink.old) + 1) }
    ensures kept { OnErr result (S.lines sink.new ≡ S.lines sink.old) }
{
    growth_laws();
    learnt_laws();
    let Solver { mut search } = solver;
    let learnt = search.learn(alloc, conflict)?;
    search.restart()?;
    sink.take(line_of(id, learnt))?;
    Ok(Solver { search })
}

/// Hands the empty clause over, under the next id.
fn refute<S: Sink>(alloc: Global, sink: &mut S, hints: Vec<u32>, id: u32) -> Mem<()>
    requires logged { (held : List Entry) × IsLogged (S.formula sink.old) held (S.lines sink.old)
        × IsResolvent (held_by held) [] hints.items }
    requires id { id ≡ length (S.formula sink.old).clauses + length (S.lines sink.old) + 1 }
    requires room { length (S.formula sink.old).clauses + length (S.lines sink.old) ≤ 2147483646 }
    ensures formula { S.formula sink.new ≡ S.formula sink.old }
    ensures refuted { OnOk result (IsRefutation (S.formula sink.old) (length (S.lines sink.old)) (S.lines sink.new)) }
    ensures range { OnOk result (IsLogOver (S.formula sink.old).variables (length (S.formula sink.old).clauses)
        (S.lines sink.new)) }
    ensures kept { OnErr result (S.lines sink.new ≡ S.lines sink.old) }
{
    growth_laws();
    learnt_laws();
    let empty = Line::Add {
        id,
        lits: Row::new(alloc),
        hints: Row::from_vec(hints),
    };
    sink.take(empty)?;
    Ok(())
}

/// As `solve_into`, with tables that go by the greatest variable of the formula.
pub fn search_into<S: Sink>(alloc: Global, sink: &mut S, budget: u64) -> Mem<Answer>
    requires begins { S.lines sink.old ≡ [] }
    requires few { (S.formula sink.old).variables ≤ max_number }
    requires room { length (S.formula sink.old).clauses + budget ≤ 2147483646 }
    ensures answer { IfOk result (IsAnswer (S.formula sink.old) budget (S.lines sink.new)) }
    ensures formula { S.formula sink.new ≡ S.formula sink.old }
    ensures accepted { IsAccepted (S.formula sink.old) (S.lines sink.new) }
    ensures range { IsLogOver (S.formula sink.old).variables (length (S.formula sink.old).clauses) (S.lines sink.new) }
{
    learnt_laws();
    let clauses = sink.formula().clauses().len() as u32;
    let mut solver = match load(alloc, sink.formula())? {
        Loaded::Ready(solver) => solver,
        Loaded::Refuted(hints) => {
            refute(alloc, sink, hints, clauses + 1)?;
            return Ok(Answer::Unsat);
        }
    };
    for spent in 0..budget + 1 {
        match solver.turn(alloc)? {
            Turn::Satisfied(full) => {
                let values = full.values(alloc, sink.formula())?;
                return Ok(Answer::Sat(values));
            }
            Turn::Refuted(hints) => {
                refute(alloc, sink, hints, clauses + spent as u32 + 1)?;
                return Ok(Answer::Unsat);
            }
            Turn::Conflict(stopped, id) => {
                if spent == budget {
                    return Ok(Answer::Spent);
                }
                solver = learn_line(alloc, stopped, sink, id, clauses + spent as u32 + 1)?;
            }
        }
    }
    unreachable!()
}
