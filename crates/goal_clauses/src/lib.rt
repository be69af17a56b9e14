//! The clauses of a goal, for other solvers, and the decision of a single goal.
//!
//! The clauses are those of the goal's refuting sentence, so they have a model exactly where the goal has a
//! counterexample. No solver runs for them.
#![tactic(auto)]

ghost use Rattle.std.specs.Prelude.{◌≡◌, false, IfOk};
ghost use Rattle.rml_command.specs.Goals.{IsGoal};
ghost use Rattle.limits.specs.Ceilings.{ceilings};
ghost use Rattle.rml_wp.specs.Preconditions.{answered as answered_of, goal_passes_limit};
ghost use Rattle.obligation_decide.specs.GoalPassing.{refuting_sentence};
ghost use Rattle.goal_clauses.specs.GoalClauses.{AreGoalClauses};
ghost use Rattle.rml_wp.specs.declared.premises.Premises.TheVariants.{All};
ghost use Rattle.obligation_decide.specs.GoalDecisions.{IsDecision};

mod laws;

use base::{Mem, Refused};
use cnf_base::Cnf;
use ea_decide::Clauses;
use fol_formula::Ea;
use fol_sig::Signature;
pub use laws::{counterexample_law, exactness_law};
use limits::{Cause, Limits};
use obligation_decide::{Decision, cause_of};
use rml_command::{Checked, Goal};
use rml_wp::{Premises, refuting};
use std::alloc::{AllocError, Global};

/// The clauses of a goal.
#[derive(Drop)]
pub enum GoalClauses {
    Written(Cnf),
    /// The first limit that is passed: formula, ground terms, ground size.
    Over(Cause),
}

/// The clauses of a goal of the model under the limits of formulas, ground terms and ground size, which are looked at
/// in this order: the very ones that a decision of the goal searches. As a text they are read as these clauses.
pub fn clauses_of_goal(
    alloc: Global,
    checked: &Checked,
    goal: &Goal,
    limits: &Limits,
) -> Mem<GoalClauses>
    requires { IsGoal checked.now goal.now }
    ensures { IfOk result (AreGoalClauses (ceilings limits.now) checked.now goal.now) }
{
    match refuting(alloc, checked, Premises::All, goal) {
        Ok((answered, sentence)) => {
            let clauses = clauses_of_sentence(alloc, checked, goal, &answered, &sentence, limits);
            drop(sentence);
            drop(answered);
            clauses
        }
        Err(Refused::NoMemory) => Err(AllocError),
        Err(Refused::For(_)) => Ok(GoalClauses::Over(Cause::Formula)),
    }
}

// By its refuting sentence.
fn clauses_of_sentence(
    alloc: Global,
    checked: &Checked,
    goal: &Goal,
    answered: &Signature,
    sentence: &Ea,
    limits: &Limits,
) -> Mem<GoalClauses>
    requires goal { IsGoal checked.now goal.now }
    requires answered { answered.now ≡ answered_of checked.now goal.now }
    requires sentence { sentence.now ≡ refuting_sentence checked.now goal.now }
    requires within { goal_passes_limit All checked.now goal.now ≡ false }
    ensures { IfOk result (AreGoalClauses (ceilings limits.now) checked.now goal.now) }
{
    rml_wp::sentence_law();
    counterexample_law();
    exactness_law();
    rml_wp::answered_goal(checked, goal);
    let signature = checked.model().signature();
    let _sorts = signature.sorts();
    let strata = checked.strata();
    match ea_decide::clauses_of(alloc, answered, strata, sentence, limits)? {
        Clauses::Written(cnf) => {
            let _variables = cnf.variables();
            Ok(GoalClauses::Written(cnf))
        }
        Clauses::Over(passed) => Ok(GoalClauses::Over(cause_of(passed))),
    }
}

/// Decides a single goal of the model.
pub fn decide_goal(alloc: Global, checked: &Checked, goal: &Goal, limits: &Limits) -> Mem<Decision>
    requires { IsGoal checked.now goal.now }
    ensures { IfOk result (IsDecision (ceilings limits.now) checked.now checked.now.conjectures goal.now) }
{
    obligation_decide::decide(alloc, checked, goal, limits)
}
