// The search for smaller counterexamples.
ghost use Rattle.std.specs.Prelude.{◌<◌, take, IfOk};
ghost use Rattle.rml_command.specs.Goals.{IsGoal};
ghost use Rattle.limits.specs.Ceilings.{ceilings};
ghost use Rattle.cti_minimise.specs.Extents.{extent, places};
ghost use Rattle.cti_minimise.specs.Minimal.{IsLeast};
ghost use Rattle.cti_minimise.specs.Steps.{AreTrials, IsShown, LeastAre, IsStep, IsDescent, limits_of};
ghost use Rattle.obligation_decide.specs.GoalDecisions.{IsFailing};

use crate::bounds::Bounds;
use crate::extents::{bound_of, extent, lowest, places};
use crate::laws::bound_law;
use crate::trials::{Attempt, Trial, Trials};
use base::Mem;
use lean_decide::prepare;
use limits::{Cause, Limits};
use rml_command::{Checked, Goal};
use rml_exec::Counterexample;
use rml_report::Least;
use std::alloc::Global;

// What the search ends with at one place.
#[derive(Drop)]
enum Step {
    // The numbers up to the place are least.
    Settled(Counterexample),
    // Whether there may be at most `number` at the place is left open.
    Stopped {
        shown: Counterexample,
        number: u64,
        cause: Cause,
    },
}

// What the search from above ends with at one place.
#[derive(Drop)]
enum Descent {
    // The numbers up to the place are least.
    Settled(Counterexample),
    // Whether they are is left open.
    Open(Counterexample),
}

/// A counterexample of the goal, found from this one, whose sizes, the sorts taken in order, and then the numbers of
/// whose true tuples, the relations taken in order, are least among all counterexamples of the goal; or where the
/// search for smaller ones stopped. Each bound below these numbers passes no limit by its size.
pub fn least(
    alloc: Global,
    checked: &Checked,
    goal: &Goal,
    shown: Counterexample,
    limits: &Limits,
) -> Mem<(Counterexample, Least)>
    requires goal { IsGoal checked.now goal.now }
    requires failing { IsFailing (ceilings limits.now) checked.now checked.now.conjectures goal.now shown }
    ensures failing { IfOk result
        (λ found. IsFailing (ceilings limits.now) checked.now checked.now.conjectures goal.now found.0) }
    ensures least { IfOk result (λ found.
        IsLeast (ceilings limits.now) checked.now goal.now found.0.structure found.1) }
{
    let prepared = prepare(alloc, checked, goal)?;
    let trials = Trials {
        checked,
        goal,
        limits,
        prepared: &prepared,
    };
    let found = least_by(alloc, &trials, shown);
    drop(prepared);
    found
}

// By trials of the goal.
fn least_by(alloc: Global, trials: &Trials, shown: Counterexample) -> Mem<(Counterexample, Least)>
    requires trials { AreTrials trials.now }
    requires failing { IsShown trials.now shown }
    ensures failing { IfOk result (λ found. IsShown trials.now found.0) }
    ensures least { IfOk result (λ found.
        IsLeast (limits_of trials.now) trials.now.checked.now trials.now.goal.now found.0.structure found.1) }
{
    let signature = trials.checked.model().signature();
    let mut found = shown;
    for place in 0..places(signature) {
        match least_at(alloc, trials, place, found)? {
            Step::Settled(settled) => found = settled,
            Step::Stopped {
                shown,
                number,
                cause,
            } => {
                let at = bound_of(signature, place);
                let size = number;
                return Ok((shown, Least::Stopped { at, size, cause }));
            }
        }
    }
    Ok((found, Least::Yes))
}

// Makes the number at a place least, where those before it are.
fn least_at(alloc: Global, trials: &Trials, place: usize, shown: Counterexample) -> Mem<Step>
    requires trials { AreTrials trials.now }
    requires place { place < places trials.now.checked.now.signature }
    requires failing { IsShown trials.now shown }
    requires before { LeastAre trials.now (take place (extent shown.structure)) }
    ensures { IfOk result (IsStep trials.now place) }
{
    match from_above(alloc, trials, place, shown)? {
        Descent::Settled(settled) => Ok(Step::Settled(settled)),
        Descent::Open(shown) => from_below(alloc, trials, place, shown),
    }
}

// Asks for one less, in short, as long as a smaller counterexample is found. Each turn lowers the number, so there are
// no more turns than the number that the first one has.
fn from_above(alloc: Global, trials: &Trials, place: usize, shown: Counterexample) -> Mem<Descent>
    requires trials { AreTrials trials.now }
    requires place { place < places trials.now.checked.now.signature }
    requires failing { IsShown trials.now shown }
    requires before { LeastAre trials.now (take place (extent shown.structure)) }
    ensures { IfOk result (IsDescent trials.now place) }
{
    bound_law();
    let signature = trials.checked.model().signature();
    let lowest = lowest(signature, place);
    let turns = extent(alloc, signature, &shown.structure)?[place];
    let mut found = shown;
    for _turn in 0..turns {
        let numbers = extent(alloc, signature, &found.structure)?;
        let number = numbers[place];
        if number <= lowest {
            return Ok(Descent::Settled(found));
        }
        let bounds = Bounds {
            numbers: &numbers,
            place,
            most: number - 1,
        };
        match trials.try_short(alloc, &bounds)? {
            Attempt::Refuted => {
                if trials.pass_below(alloc, &bounds, lowest)? {
                    return Ok(Descent::Settled(found));
                }
                return Ok(Descent::Open(found));
            }
            Attempt::Found(smaller) => found = smaller,
            Attempt::Open => return Ok(Descent::Open(found)),
        }
    }
    Ok(Descent::Open(found))
}

// Tries the bounds below the number at a place, the least first. The greatest is the one at which the search from above
// stopped.
fn from_below(alloc: Global, trials: &Trials, place: usize, shown: Counterexample) -> Mem<Step>
    requires trials { AreTrials trials.now }
    requires place { place < places trials.now.checked.now.signature }
    requires failing { IsShown trials.now shown }
    requires before { LeastAre trials.now (take place (extent shown.structure)) }
    ensures { IfOk result (IsStep trials.now place) }
{
    bound_law();
    let signature = trials.checked.model().signature();
    let numbers = extent(alloc, signature, &shown.structure)?;
    let top = numbers[place];
    for most in lowest(signature, place)..top {
        let bounds = Bounds {
            numbers: &numbers,
            place,
            most,
        };
        match trials.try_bounds(alloc, &bounds, most == top - 1)? {
            Trial::Refuted => {}
            Trial::Found(smaller) => return Ok(Step::Settled(smaller)),
            Trial::Open(cause) => {
                let number = most;
                return Ok(Step::Stopped {
                    shown,
                    number,
                    cause,
                });
            }
        }
    }
    Ok(Step::Settled(shown))
}
