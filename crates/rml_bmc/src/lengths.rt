// The goals of one length are decided, walk by walk.
ghost use Rattle.std.specs.Prelude.{◌≡◌, ◌≤◌, ◌+◌, ◌++◌, ◌∷◌, [], map, length, false, IfOk};
ghost use Rattle.std.specs.List.{AllByRecursion};
ghost use Rattle.limits.specs.Ceilings.{ceilings};
ghost use Rattle.rml_command.specs.Paths.{has_abort};
ghost use Rattle.base.specs.Lists.{count_from};
ghost use Rattle.rml_command.specs.declared.goal.Stage.{Stage};
ghost use Rattle.walks.specs.Walks.{joined, stage_legs, goal_along, walk_goals, open_goals, count_of};
ghost use Rattle.walks.specs.Laws.{IsLeg, IsWalk};
ghost use Rattle.rml_bmc.specs.Lengths.{IsLength, IsDecidedLength, open_or_safe};
ghost use Rattle.rml_bmc.specs.Infeasible.{AreInfeasible, IsKnown};
ghost use Rattle.rml_bmc.specs.Tallies.{IsTurn, HasRoom};

use crate::answer::{BoundCause, Length};
use crate::beginnings::{aborts, look_at};
use crate::deciding::Known;
use crate::tally::{Tally, Turn, decide_one, no_goal};
use base::{Mem, Row};
use lean_decide::Counted;
use limits::Limits;
use progress::{Progress, Work};
use rml_command::{About, Checked};
use std::alloc::Global;
use walks::{
    Leg, Walk, aborting_ends, choices, count_of_length, walk_count, walk_law, walk_of_number,
};

// More walks than these are not looked at.
const MAX_WALKS: u64 = 4096;

// The walk with one more part, as a goal of abort.
fn with_end(alloc: Global, legs: &[Leg], end: Leg) -> Mem<Walk>
    ensures { IfOk result (λ w. w ≡ goal_along (legs.now ++ end ∷ []) (About.Abort)) }
{
    let mut parts = Row::from_vec(legs.to_vec(alloc)?);
    parts.push(end)?;
    Ok(Walk {
        parts,
        about: About::Abort,
    })
}

// The walk, as a goal.
fn goal_on(alloc: Global, legs: &[Leg], about: About) -> Mem<Walk>
    ensures { IfOk result (λ w. w ≡ goal_along legs.now about) }
{
    let parts = Row::from_vec(legs.to_vec(alloc)?);
    Ok(Walk { parts, about })
}

fn conjecture_count(checked: &Checked) -> u32
    ensures { result ≡ length checked.now.conjectures }
{
    checked.model().conjectures().len() as u32
}

// Each conjecture at the end of a walk.
fn decide_conjectures(
    alloc: Global,
    checked: &Checked,
    legs: &[Leg],
    known: Known,
    counted: Counted,
    limits: &Limits,
    tally: Tally,
) -> Mem<Turn>
    requires known { IsKnown checked.now legs.now known }
    requires goals { AllByRecursion (IsWalk checked.now)
        (map (λ k. goal_along legs.now (About.Conjecture k)) (count_from 0 (length checked.now.conjectures))) }
    requires room { HasRoom tally (length checked.now.conjectures) }
    ensures { IfOk result (IsTurn counted (ceilings limits.now) checked.now
        (map (λ k. goal_along legs.now (About.Conjecture k)) (count_from 0 (length checked.now.conjectures))) tally) }
{
    let count = conjecture_count(checked);
    let mut now = tally;
    for k in 0..count {
        let walk = goal_on(alloc, legs, About::Conjecture(k))?;
        let turn = decide_one(alloc, checked, &walk, known, counted, limits, now)?;
        match turn {
            Turn::On(next) => now = next,
            Turn::Met(run) => return Ok(Turn::Met(run)),
        }
    }
    Ok(Turn::On(now))
}

// Each path of final that aborts behind a walk.
fn decide_ends(
    alloc: Global,
    checked: &Checked,
    legs: &[Leg],
    ends: &[Leg],
    known: Known,
    counted: Counted,
    limits: &Limits,
    tally: Tally,
) -> Mem<Turn>
    requires known { IsKnown checked.now legs.now known }
    requires goals { AllByRecursion (IsWalk checked.now)
        (map (λ leg. goal_along (legs.now ++ leg ∷ []) (About.Abort)) ends.now) }
    requires room { HasRoom tally (length ends.now) }
    ensures { IfOk result (IsTurn counted (ceilings limits.now) checked.now
        (map (λ leg. goal_along (legs.now ++ leg ∷ []) (About.Abort)) ends.now) tally) }
{
    let mut now = tally;
    let mut rest = ends;
    while let [end, after @ ..] = rest {
        let walk = with_end(alloc, legs, *end)?;
        let turn = decide_one(alloc, checked, &walk, known, counted, limits, now)?;
        match turn {
            Turn::On(next) => now = next,
            Turn::Met(run) => return Ok(Turn::Met(run)),
        }
        rest = after;
    }
    Ok(Turn::On(now))
}

// The goals of a walk that does not end in abort.
fn decide_open(
    alloc: Global,
    checked: &Checked,
    legs: &[Leg],
    ends: &[Leg],
    known: Known,
    counted: Counted,
    limits: &Limits,
    tally: Tally,
) -> Mem<Turn>
    requires known { IsKnown checked.now legs.now known }
    requires goals { AllByRecursion (IsWalk checked.now) (open_goals checked.now legs.now) }
    requires ends { ends.now ≡ stage_legs checked.now has_abort (Stage.Final) }
    requires room { HasRoom tally (length (open_goals checked.now legs.now)) }
    ensures { IfOk result (IsTurn counted (ceilings limits.now) checked.now (open_goals checked.now legs.now) tally) }
{
    let turn = decide_conjectures(alloc, checked, legs, known, counted, limits, tally)?;
    match turn {
        Turn::On(next) => {
            let last = decide_ends(alloc, checked, legs, ends, known, counted, limits, next)?;
            Ok(last)
        }
        Turn::Met(run) => Ok(Turn::Met(run)),
    }
}

// The goals of one walk.
fn decide_goals(
    alloc: Global,
    checked: &Checked,
    legs: &[Leg],
    ends: &[Leg],
    known: Known,
    counted: Counted,
    limits: &Limits,
    tally: Tally,
) -> Mem<Turn>
    requires legs { AllByRecursion (IsLeg checked.now) legs.now }
    requires known { IsKnown checked.now legs.now known }
    requires goals { AllByRecursion (IsWalk checked.now) (walk_goals checked.now legs.now) }
    requires ends { ends.now ≡ stage_legs checked.now has_abort (Stage.Final) }
    requires room { HasRoom tally (length (walk_goals checked.now legs.now)) }
    ensures { IfOk result (IsTurn counted (ceilings limits.now) checked.now (walk_goals checked.now legs.now) tally) }
{
    if aborts(checked, legs) {
        let walk = goal_on(alloc, legs, About::Abort)?;
        let turn = decide_one(alloc, checked, &walk, known, counted, limits, tally)?;
        return Ok(turn);
    }
    let turn = decide_open(alloc, checked, legs, ends, known, counted, limits, tally)?;
    Ok(turn)
}

// What is said of a length whose goals have no run.
fn length_of(tally: Tally) -> Length
    ensures { result ≡ open_or_safe tally.earliest }
{
    match tally.earliest {
        Some(cause) => Length::Undecided(cause),
        None => Length::Safe,
    }
}

// The goals of all walks of a length, of which there are few. Each walk that was decided is told.
fn decide_walks<P: Progress>(
    alloc: Global,
    checked: &Checked,
    steps: u32,
    counted: Counted,
    limits: &Limits,
    infeasible: &mut Row<Row<Leg>>,
    progress: &mut P,
) -> Mem<Length>
    requires few { count_of checked.now steps ≤ 4096 }
    requires before { AreInfeasible checked.now infeasible.old }
    ensures decided { IfOk result (IsDecidedLength counted (ceilings limits.now) checked.now steps) }
    ensures after { AreInfeasible checked.now infeasible.new }
{
    walk_law();
    let _checked = checked.model();
    let places = choices(alloc, checked, steps)?;
    let ends = aborting_ends(alloc, checked)?;
    let mut now = no_goal();
    let count = walk_count(&places);
    for number in 0..count {
        let legs = walk_of_number(alloc, &places, number)?;
        let walk = legs.as_slice();
        let known = look_at(alloc, checked, walk, counted, limits, infeasible)?;
        let turn = decide_goals(
            alloc,
            checked,
            walk,
            ends.as_slice(),
            known,
            counted,
            limits,
            now,
        )?;
        progress.tell(Work::Walks(steps), number + 1, count);
        match turn {
            Turn::On(next) => now = next,
            Turn::Met(run) => return Ok(Length::Broken(run)),
        }
    }
    Ok(length_of(now))
}

/// The answer to the runs of a length, where these walks were found to be infeasible so far.
pub fn decide_length<P: Progress>(
    alloc: Global,
    checked: &Checked,
    steps: u32,
    counted: Counted,
    limits: &Limits,
    infeasible: &mut Row<Row<Leg>>,
    progress: &mut P,
) -> Mem<Length>
    requires before { AreInfeasible checked.now infeasible.old }
    ensures decided { IfOk result (IsLength counted (ceilings limits.now) checked.now steps) }
    ensures after { AreInfeasible checked.now infeasible.new }
{
    let count = count_of_length(checked, steps);
    if count > MAX_WALKS {
        return Ok(Length::Undecided(BoundCause::Paths(count)));
    }
    let length = decide_walks(alloc, checked, steps, counted, limits, infeasible, progress)?;
    Ok(length)
}
