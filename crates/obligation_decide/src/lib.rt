//! Decides goals: whether a path, begun where induction allows it, can abort or break a conjecture.
//!
//! The structures from which a goal has a counterexample are those that satisfy its refuting sentence. A model of that
//! sentence has constants in the place of its existentials, and these are the elements of the path's havocs and the
//! values of the conjecture's variables: the counterexample is read off, and nothing is searched.
#![tactic(auto)]

mod axioms;
mod decision;
mod laws;
mod measuring;
mod parts;
mod walk;

ghost use Rattle.std.specs.Prelude.{◌≡◌, ◌<◌, [], length, All, IfOk};
ghost use Rattle.std.specs.List.{AllByRecursion};
ghost use Rattle.fol_sig.specs.Symbols.{symbols};
ghost use Rattle.fol_formula.specs.Fits.{FitsForm};
ghost use Rattle.fol_formula.specs.Fragments.{IsEa};
ghost use Rattle.rml_command.specs.Goals.{IsGoal};
ghost use Rattle.rml_wp.specs.declared.premises.Premises.TheVariants.{All as AllAxioms};
ghost use Rattle.rml_wp.specs.Preconditions.{answered as answered_of};
ghost use Rattle.rml_command.specs.InductiveSets.{conjectures_of};
ghost use Rattle.limits.specs.Ceilings.{ceilings};
ghost use Rattle.obligation_decide.specs.GoalPassing.{cause_of as named_cause};
ghost use Rattle.obligation_decide.specs.Restricted.{IsRefutingWith, IsSentenceDecision, IsRestrictedDecision};
ghost use Rattle.obligation_decide.specs.GoalDecisions.{IsDecision};

pub use axioms::{all_axioms, decide_axioms};
use base::{Mem, Refused};
pub use decision::{Decision, Measured};
use ea_decide::{Decided, Passed};
use fol_formula::{Ea, Sentence};
use fol_sig::Signature;
pub use laws::{axioms_law, parts_law, passing_law};
use limits::{Cause, Limits};
pub use measuring::{measure, measure_by};
use parts::restricted;
pub use parts::with_parts;
use rml_command::{Checked, Goal};
use rml_wp::{Premises, refuting_with};
use std::alloc::{AllocError, Global};
pub use walk::read_counterexample;

/// Decides a goal of the model under limits, which are looked at in their order: formula, ground terms, ground size,
/// conflicts.
pub fn decide(alloc: Global, checked: &Checked, goal: &Goal, limits: &Limits) -> Mem<Decision>
    requires goal { IsGoal checked.now goal.now }
    ensures { IfOk result (IsDecision (ceilings limits.now) checked.now checked.now.conjectures goal.now) }
{
    rml_wp::sentence_law();
    let decision = decide_where(alloc, checked, goal, &[], limits)?;
    Ok(decision)
}

/// Decides a goal of the model where before the stage the conjectures of these numbers hold in place of all, under the
/// same limits.
pub fn decide_with(
    alloc: Global,
    checked: &Checked,
    goal: &Goal,
    held: &[u32],
    limits: &Limits,
) -> Mem<Decision>
    requires goal { IsGoal checked.now goal.now }
    requires held { All (λ k. k < length checked.now.conjectures) held.now }
    ensures { IfOk result
        (IsDecision (ceilings limits.now) checked.now (conjectures_of checked.now held.now) goal.now) }
{
    rml_wp::sentence_law();
    rml_wp::answered_law();
    rml_wp::answered_goal(checked, goal);
    let _checked = checked.model();
    match refuting_with(alloc, checked, Premises::All, goal, held) {
        Ok((answered, sentence)) => {
            let decided = decide_sentence(alloc, checked, goal, &answered, &sentence, limits);
            drop(sentence);
            drop(answered);
            let decision = decided?;
            Ok(decision)
        }
        Err(Refused::NoMemory) => Err(AllocError),
        Err(Refused::For(_)) => Ok(Decision::Undecided(Cause::Formula)),
    }
}

/// Decides whether a goal of the model has a counterexample in a structure that satisfies further sentences, under the
/// same limits.
pub fn decide_where(
    alloc: Global,
    checked: &Checked,
    goal: &Goal,
    more: &[Sentence],
    limits: &Limits,
) -> Mem<Decision>
    requires goal { IsGoal checked.now goal.now }
    requires fragment { AllByRecursion IsEa more.now }
    requires fits { AllByRecursion (FitsForm (symbols checked.now.signature) []) more.now }
    ensures { IfOk result (IsRestrictedDecision (ceilings limits.now) checked.now more.now goal.now) }
{
    rml_wp::sentence_law();
    rml_wp::refuting_law();
    rml_wp::answered_law();
    rml_wp::answered_goal(checked, goal);
    let _checked = checked.model();
    match restricted(alloc, checked, goal, more) {
        Ok((answered, sentence)) => {
            let decided = decide_sentence(alloc, checked, goal, &answered, &sentence, limits);
            drop(sentence);
            drop(answered);
            let decision = decided?;
            Ok(decision)
        }
        Err(Refused::NoMemory) => Err(AllocError),
        Err(Refused::For(_)) => Ok(Decision::Undecided(Cause::Formula)),
    }
}

// By its refuting sentence, which may have further parts.
fn decide_sentence(
    alloc: Global,
    checked: &Checked,
    goal: &Goal,
    answered: &Signature,
    sentence: &Ea,
    limits: &Limits,
) -> Mem<Decision>
    requires goal { IsGoal checked.now goal.now }
    requires answered { answered.now ≡ answered_of checked.now goal.now }
    requires sentence { IsRefutingWith AllAxioms checked.now goal.now sentence.now }
    ensures { IfOk result (IsSentenceDecision (ceilings limits.now) checked.now sentence.now goal.now) }
{
    rml_wp::sentence_law();
    witness::sentence_law();
    skolem::exactness();
    ea_decide::elements_law();
    rml_wp::answered_goal(checked, goal);
    let _checked = checked.model();
    // The limits are read here, so that their ranges are known.
    let limits = *limits;
    match ea_decide::decide(alloc, answered, checked.strata(), sentence, &limits)? {
        Decided::Refuted(proof) => Ok(Decision::Holds(proof)),
        Decided::Satisfied(model) => {
            let shown = read_counterexample(
                alloc,
                checked,
                Premises::All,
                goal,
                answered,
                sentence,
                model,
            )?;
            Ok(Decision::Fails(shown))
        }
        Decided::Over(passed) => Ok(Decision::Undecided(cause_of(passed))),
    }
}

/// A limit, as a report names it.
pub fn cause_of(passed: Passed) -> Cause
    ensures { result ≡ named_cause passed }
{
    match passed {
        Passed::Terms(count) => Cause::Terms(count),
        Passed::GroundSize(count) => Cause::Ground(count),
        Passed::Conflicts(budget) => Cause::Conflicts(budget),
    }
}
