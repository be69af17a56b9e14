// Which limit a goal passes by its size, told by its whole refuting sentence. That is counted where its parts stand.
ghost use Rattle.std.specs.Prelude.{◌≡◌, ◌<◌, length, All, IfOk};
ghost use Rattle.rml_command.specs.Goals.{IsGoal};
ghost use Rattle.rml_wp.specs.Preconditions.{answered as answered_of, goal_precondition};
ghost use Rattle.rml_command.specs.InductiveSets.{conjectures_of};
ghost use Rattle.ground_size.specs.Conjoined.{forms_at};
ghost use Rattle.limits.specs.Ceilings.{ceilings};
ghost use Rattle.rml_houdini.specs.Assuming.{held_parts};
ghost use Rattle.rml_wp.specs.declared.premises.Premises.TheVariants.{All as AllAxioms};
ghost use Rattle.obligation_decide.specs.GoalPassing.{PassesFirst, SentencePasses};

use crate::assumed::sentences_of;
use base::{Mem, Refused};
use ea_decide::{Measured, measure_parts};
use fol_formula::{Ae, Sentence};
use fol_sig::Signature;
use ground_size::Part;
use limits::{Cause, Limits};
use obligation_decide::cause_of;
use rml_command::{Checked, Goal, Stage};
use rml_wp::{Premises, precondition};
use std::alloc::{AllocError, Global};

/// The limit that a goal passes by its size where these conjectures are held, if it passes one.
pub fn first_limit(
    alloc: Global,
    checked: &Checked,
    goal: &Goal,
    held: &[u32],
    limits: &Limits,
) -> Mem<Option<Cause>>
    requires goal { IsGoal checked.now goal.now }
    requires held { All (λ k. k < length checked.now.conjectures) held.now }
    ensures { IfOk result
        (PassesFirst (ceilings limits.now) checked.now (conjectures_of checked.now held.now) goal.now) }
{
    match precondition(alloc, checked, Premises::All, goal) {
        Ok((answered, precondition)) => {
            let limit = limit_of(alloc, checked, goal, &answered, &precondition, held, limits);
            drop(answered);
            drop(precondition);
            limit
        }
        Err(Refused::NoMemory) => Err(AllocError),
        Err(Refused::For(_)) => Ok(Some(Cause::Formula)),
    }
}

// The one that the refuting sentence passes, given the goal's precondition.
fn limit_of(
    alloc: Global,
    checked: &Checked,
    goal: &Goal,
    answered: &Signature,
    precondition: &Ae,
    held: &[u32],
    limits: &Limits,
) -> Mem<Option<Cause>>
    requires goal { IsGoal checked.now goal.now }
    requires answered { answered.now ≡ answered_of checked.now goal.now }
    requires precondition { precondition.now ≡ goal_precondition AllAxioms checked.now goal.now }
    requires held { All (λ k. k < length checked.now.conjectures) held.now }
    ensures { IfOk result
        (SentencePasses (ceilings limits.now) checked.now (conjectures_of checked.now held.now) goal.now) }
{
    rml_wp::sentence_law();
    rml_wp::answered_goal(checked, goal);
    let model = checked.model();
    let chosen = sentences_of(alloc, model.conjectures(), held)?;
    let axioms = model.axioms();
    let before = held_before(goal.stage, &chosen);
    let parts = [
        Part::All(axioms),
        before,
        Part::Not(precondition.sentence()),
    ];
    match measure_parts(alloc, answered, checked.strata(), &parts, limits)? {
        Measured::Within(_) => Ok(None),
        Measured::Over(passed) => Ok(Some(cause_of(passed))),
    }
}

// What holds before a stage beside the axioms: these, but before init nothing.
fn held_before<'a>(stage: Stage, conjectures: &'a [Sentence]) -> Part<'a>
    ensures { forms_at result ≡ held_parts stage conjectures.now }
{
    match stage {
        Stage::Init => Part::Each(&[]),
        Stage::Action(_) => Part::All(conjectures),
        Stage::Final => Part::All(conjectures),
    }
}
