// A goal is decided where some conjectures are held. Under limits on its whole refuting sentence it is decided by few
// of them, where no limit is passed, and otherwise by that sentence; under limits on its lean one, by that.
ghost use Rattle.std.specs.Prelude.{◌≡◌, ◌<◌, true, false, length, None, All, IfOk, OnOk};
ghost use Rattle.rml_command.specs.Goals.{IsGoal};
ghost use Rattle.rml_wp.specs.declared.premises.Premises.TheVariants.{Affected};
ghost use Rattle.rml_wp.specs.Preconditions.{answered as answered_of, goal_precondition};
ghost use Rattle.rml_command.specs.InductiveSets.{conjectures_of, IsWithin};
ghost use Rattle.rml_wp.specs.Preconditions.{goal_passes_limit};
ghost use Rattle.limits.specs.Ceilings.{ceilings};
ghost use Rattle.lean_decide.specs.declared.settling.Counted.TheVariants.{Whole, Lean};
ghost use Rattle.rml_houdini.specs.Keeping.{Grows, IsSettledBy};
ghost use Rattle.obligation_decide.specs.GoalPassing.{PassesFirst};

use crate::assumed::Assumed;
use crate::counting::first_limit;
use crate::keeping::{Turn, keep};
use crate::trying::{Tried, try_with};
use base::{Mem, Refused};
use fol_formula::Ae;
use fol_sig::Signature;
use lean_decide::{Counted, Settled};
use limits::{Cause, Limits};
use obligation_decide::{Decision, cause_of, decide_with};
use rml_command::{Checked, Goal};
use rml_wp::{Premises, precondition};
use std::alloc::{AllocError, Global};

/// Decides a goal where these conjectures are held, beginning with what is assumed; where it holds, what is assumed
/// then suffices. Which limit it passes is told by its refuting sentence, whole or lean.
pub fn settle(
    alloc: Global,
    checked: &Checked,
    goal: &Goal,
    counted: Counted,
    held: &[u32],
    assumed: &mut Assumed,
    limits: &Limits,
) -> Mem<Settled>
    requires goal { IsGoal checked.now goal.now }
    requires held { All (λ k. k < length checked.now.conjectures) held.now }
    requires within { IsWithin assumed.old.held.items held.now }
    ensures grows { OnOk result (Grows held.now assumed.old.held.items assumed.new.held.items) }
    ensures settled { IfOk result
        (IsSettledBy counted (ceilings limits.now) checked.now held.now goal.now assumed.new) }
{
    match counted {
        Counted::Whole => settle_whole(alloc, checked, goal, held, assumed, limits),
        Counted::Lean => settle_lean(alloc, checked, goal, held, assumed, limits),
    }
}

// Under limits on its whole refuting sentence.
fn settle_whole(
    alloc: Global,
    checked: &Checked,
    goal: &Goal,
    held: &[u32],
    assumed: &mut Assumed,
    limits: &Limits,
) -> Mem<Settled>
    requires goal { IsGoal checked.now goal.now }
    requires held { All (λ k. k < length checked.now.conjectures) held.now }
    requires within { IsWithin assumed.old.held.items held.now }
    ensures grows { OnOk result (Grows held.now assumed.old.held.items assumed.new.held.items) }
    ensures settled { IfOk result
        (IsSettledBy Whole (ceilings limits.now) checked.now held.now goal.now assumed.new) }
{
    match first_limit(alloc, checked, goal, held, limits)? {
        Some(cause) => Ok(Settled::Undecided(cause)),
        None => settle_within(alloc, checked, goal, held, assumed, limits),
    }
}

// A goal that passes no limit by its size.
fn settle_within(
    alloc: Global,
    checked: &Checked,
    goal: &Goal,
    held: &[u32],
    assumed: &mut Assumed,
    limits: &Limits,
) -> Mem<Settled>
    requires goal { IsGoal checked.now goal.now }
    requires held { All (λ k. k < length checked.now.conjectures) held.now }
    requires within { IsWithin assumed.old.held.items held.now }
    requires limit { PassesFirst (ceilings limits.now) checked.now (conjectures_of checked.now held.now) goal.now
        None }
    ensures grows { OnOk result (Grows held.now assumed.old.held.items assumed.new.held.items) }
    ensures settled { IfOk result
        (IsSettledBy Whole (ceilings limits.now) checked.now held.now goal.now assumed.new) }
{
    match keep(alloc, checked, goal, held, assumed, limits)? {
        Turn::Holds => Ok(Settled::Holds),
        Turn::Fails(shown) => Ok(Settled::Fails(shown)),
        Turn::Again | Turn::Open => {
            let settled = settle_wholly(alloc, checked, goal, held, assumed, limits)?;
            Ok(settled)
        }
    }
}

// By its whole refuting sentence.
fn settle_wholly(
    alloc: Global,
    checked: &Checked,
    goal: &Goal,
    held: &[u32],
    assumed: &mut Assumed,
    limits: &Limits,
) -> Mem<Settled>
    requires goal { IsGoal checked.now goal.now }
    requires held { All (λ k. k < length checked.now.conjectures) held.now }
    requires within { IsWithin assumed.old.held.items held.now }
    ensures grows { OnOk result (Grows held.now assumed.old.held.items assumed.new.held.items) }
    ensures settled { IfOk result
        (IsSettledBy Whole (ceilings limits.now) checked.now held.now goal.now assumed.new) }
{
    match decide_with(alloc, checked, goal, held, limits)? {
        Decision::Holds(proof) => {
            drop(proof);
            assume_all(assumed, held)?;
            Ok(Settled::Holds)
        }
        Decision::Fails(shown) => Ok(Settled::Fails(shown)),
        Decision::Undecided(cause) => Ok(Settled::Undecided(cause)),
    }
}

fn assume_all(assumed: &mut Assumed, held: &[u32]) -> Mem<()>
    ensures lawful { OnOk result (assumed.new.lawful ≡ true) }
    ensures held { OnOk result (assumed.new.held.items ≡ held.now) }
{
    assumed.lawful = true;
    assumed.held.clear();
    assumed.held.extend_from_slice(held)?;
    Ok(())
}

// By its lean refuting sentence, under limits on that. What counts it decides it, so all that is held is assumed at
// once.
fn settle_lean(
    alloc: Global,
    checked: &Checked,
    goal: &Goal,
    held: &[u32],
    assumed: &mut Assumed,
    limits: &Limits,
) -> Mem<Settled>
    requires goal { IsGoal checked.now goal.now }
    requires held { All (λ k. k < length checked.now.conjectures) held.now }
    requires within { IsWithin assumed.old.held.items held.now }
    ensures grows { OnOk result (Grows held.now assumed.old.held.items assumed.new.held.items) }
    ensures settled { IfOk result
        (IsSettledBy Lean (ceilings limits.now) checked.now held.now goal.now assumed.new) }
{
    assume_all(assumed, held)?;
    match precondition(alloc, checked, Premises::Affected, goal) {
        Ok((answered, precondition)) => {
            let settled = settle_assumed(
                alloc,
                checked,
                goal,
                &answered,
                &precondition,
                assumed,
                limits,
            );
            drop(answered);
            drop(precondition);
            let settled = settled?;
            Ok(settled)
        }
        Err(Refused::NoMemory) => Err(AllocError),
        Err(Refused::For(_)) => Ok(Settled::Undecided(Cause::Formula)),
    }
}

// The same, given the goal's precondition, where all that is held is assumed. More constants than a signature has room
// for are answered as want of memory.
fn settle_assumed(
    alloc: Global,
    checked: &Checked,
    goal: &Goal,
    answered: &Signature,
    precondition: &Ae,
    assumed: &Assumed,
    limits: &Limits,
) -> Mem<Settled>
    requires goal { IsGoal checked.now goal.now }
    requires answered { answered.now ≡ answered_of checked.now goal.now }
    requires precondition { precondition.now ≡ goal_precondition Affected checked.now goal.now }
    requires within { goal_passes_limit Affected checked.now goal.now ≡ false }
    requires lawful { assumed.now.lawful ≡ true }
    requires held { All (λ k. k < length checked.now.conjectures) assumed.now.held.items }
    ensures { IfOk result (IsSettledBy Lean (ceilings limits.now) checked.now assumed.now.held.items goal.now
        assumed.now) }
{
    match try_with(
        alloc,
        checked,
        goal,
        answered,
        precondition,
        assumed,
        limits,
    )? {
        Tried::Holds => Ok(Settled::Holds),
        Tried::Breaks(shown) => Ok(Settled::Fails(shown)),
        Tried::Over(passed) => Ok(Settled::Undecided(cause_of(passed))),
        Tried::Met(_) => unreachable!(),
        Tried::ManyConstants => Err(AllocError),
    }
}
