// `emit FILE GOAL WHAT`: the clauses of a goal, or the log that refutes them.
ghost use Rattle.std.specs.Prelude.{◌≡◌, ◌≤◌, IfOk};
ghost use Rattle.base.specs.Lists.{numbered};
ghost use Rattle.rml_command.specs.Goals.{IsGoal, goals_of};
ghost use Rattle.limits.specs.Ceilings.{ceilings};
ghost use Rattle.command_line.specs.Asking.{IsInRange};
ghost use Rattle.command_parts.specs.Limits.{ceilings_of};
ghost use Rattle.clause_commands.specs.Emit.{AreClausesEmitted, IsLogEmitted, IsGoalEmitted, IsEmittedOf, IsEmitAnswer};
ghost use Rattle.clause_commands.specs.Emit.{emitted_due, emit_due};

use crate::emit_text::{fails_line, no_goal_line, undecided_line};
use base::{Mem, Refused, Row};
use cnf_base::{Cnf, write_cnf};
use command_line::{Emission, What};
use command_parts::{complaint, limits_of, read_model, say_model_fault, shown};
use commands::{Command, Said};
use goal_clauses::{GoalClauses, clauses_of_goal, decide_goal};
use goal_number::{GoalAt, goal_at};
use limits::{Cause, Limits};
use lrat_log::{Line, write_lines};
use obligation_decide::Decision;
use progress::Progress;
use rml_command::{Checked, Goal};
use rml_lex::Fault;
use std::alloc::{AllocError, Global};

/// The command, with what is to be written.
#[derive(Drop)]
pub struct Emit {
    pub emission: Emission,
    ghost from_one: { 1 ≤ emission.goal },
    ghost in_range: { IsInRange emission.limits },
}

/// What is answered of a goal.
#[derive(Drop)]
pub enum Emitted {
    /// `cnf`: its clauses.
    Clauses(Cnf),
    /// `lrat`: its clauses, and the log that refutes them.
    Refutation(Cnf, Row<Line>),
    /// `lrat`: it has a counterexample.
    Fails,
    /// A limit is passed, or the budget of conflicts is spent.
    Undecided(Cause),
    /// The model has no goal of this number, but so many.
    NoGoal(u64),
}

/// What the command answers.
#[derive(Drop)]
pub enum EmitAnswer {
    Emitted(Emitted),
    /// What is wrong with the text.
    Fault(Fault),
}

// The clauses of a goal.
fn goal_clauses(alloc: Global, model: &Checked, goal: &Goal, limits: &Limits) -> Mem<Emitted>
    requires { IsGoal model.now goal.now }
    ensures { IfOk result (AreClausesEmitted (ceilings limits.now) model.now goal.now) }
{
    match clauses_of_goal(alloc, model, goal, limits)? {
        GoalClauses::Written(cnf) => Ok(Emitted::Clauses(cnf)),
        GoalClauses::Over(cause) => Ok(Emitted::Undecided(cause)),
    }
}

// The log that refutes the clauses of a goal.
fn goal_log(alloc: Global, model: &Checked, goal: &Goal, limits: &Limits) -> Mem<Emitted>
    requires { IsGoal model.now goal.now }
    ensures { IfOk result (IsLogEmitted (ceilings limits.now) model.now goal.now) }
{
    match decide_goal(alloc, model, goal, limits)? {
        Decision::Holds(proof) => {
            let (cnf, lines) = proof.into_parts();
            Ok(Emitted::Refutation(cnf, lines))
        }
        Decision::Fails(_) => Ok(Emitted::Fails),
        Decision::Undecided(cause) => Ok(Emitted::Undecided(cause)),
    }
}

// What is asked for of a goal.
fn emit_goal(alloc: Global, model: &Checked, goal: &Goal, emission: Emission) -> Mem<Emitted>
    requires goal { IsGoal model.now goal.now }
    requires limits { IsInRange emission.limits }
    ensures { IfOk result (IsGoalEmitted (ceilings_of emission.limits) model.now emission.what goal.now) }
{
    let limits = limits_of(emission.limits);
    match emission.what {
        What::Cnf => goal_clauses(alloc, model, goal, &limits),
        What::Lrat => goal_log(alloc, model, goal, &limits),
    }
}

// What is asked for of the goal of the number.
fn emit_of(alloc: Global, model: &Checked, emission: Emission) -> Mem<Emitted>
    requires goal { 1 ≤ emission.goal }
    requires limits { IsInRange emission.limits }
    ensures { IfOk result (IsEmittedOf (ceilings_of emission.limits) model.now emission.what
        (numbered (goals_of model.now) emission.goal)) }
{
    match goal_at(model, emission.goal) {
        GoalAt::Goal(goal) => emit_goal(alloc, model, &goal, emission),
        GoalAt::Beyond(goals) => Ok(Emitted::NoGoal(goals)),
    }
}

// The answer to the text of a model.
fn judge_emission(alloc: Global, text: &[u8], emission: Emission) -> Mem<EmitAnswer>
    requires goal { 1 ≤ emission.goal }
    requires limits { IsInRange emission.limits }
    ensures { IfOk result (IsEmitAnswer emission text.now) }
{
    match read_model(alloc, text) {
        Ok(model) => {
            let emitted = emit_of(alloc, &model, emission);
            drop(model);
            Ok(EmitAnswer::Emitted(emitted?))
        }
        Err(Refused::For(fault)) => Ok(EmitAnswer::Fault(fault)),
        Err(Refused::NoMemory) => Err(AllocError),
    }
}

// What is due for a goal of this number.
fn say_emitted(alloc: Global, number: u64, emitted: &Emitted) -> Mem<Said>
    ensures { IfOk result (λ s. s ≡ emitted_due number emitted.now) }
{
    match emitted {
        Emitted::Clauses(cnf) => {
            let text = write_cnf(alloc, cnf)?;
            Ok(shown(text, 0))
        }
        Emitted::Refutation(_, lines) => {
            let text = write_lines(alloc, lines.as_slice())?;
            Ok(shown(text, 0))
        }
        Emitted::Fails => {
            let line = fails_line(alloc, number)?;
            Ok(complaint(line, 1))
        }
        Emitted::Undecided(cause) => {
            let line = undecided_line(alloc, number, *cause)?;
            Ok(complaint(line, 3))
        }
        Emitted::NoGoal(goals) => {
            let line = no_goal_line(alloc, *goals)?;
            Ok(complaint(line, 4))
        }
    }
}

impl Command for Emit {
    type Answer = EmitAnswer;

    ghost is_answer = { λ c first second a. IsEmitAnswer c.emission first a };

    ghost due = { λ c first second a. emit_due c.emission.goal first a };

    fn judge<P: Progress>(
        &self,
        alloc: Global,
        first: &[u8],
        second: &[u8],
        progress: &mut P,
    ) -> Mem<EmitAnswer> {
        judge_emission(alloc, first, self.emission)
    }

    fn say(&self, alloc: Global, first: &[u8], second: &[u8], answer: &EmitAnswer) -> Mem<Said> {
        match answer {
            EmitAnswer::Emitted(emitted) => say_emitted(alloc, self.emission.goal, emitted),
            EmitAnswer::Fault(fault) => say_model_fault(alloc, first, fault),
        }
    }
}
