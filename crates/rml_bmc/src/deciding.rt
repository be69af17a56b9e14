// A goal along a walk is decided, as the goal of the walk's model: under limits on its whole refuting sentence, by the
// lean sentence where that decides, or under limits on that. Along a walk that is infeasible it is counted alone.
ghost use Rattle.std.specs.Prelude.{◌≡◌, true, false, IfOk};
ghost use Rattle.limits.specs.Ceilings.{ceilings};
ghost use Rattle.rml_command.specs.Goals.{IsCounterexample, IsGoal};
ghost use Rattle.rml_command.specs.Paths.{has_abort};
ghost use Rattle.walks.specs.Walks.{joined};
ghost use Rattle.walks.specs.Runs.{HasNoRun};
ghost use Rattle.walks.specs.Laws.{AreLegs, IsWalk};
ghost use Rattle.walk_model.specs.WalkModels.{walk_model, stopped_model, walk_goal};
ghost use Rattle.walk_model.specs.Laws.{HasNoOutcome};
ghost use Rattle.lean_decide.specs.Settled.{IsSettled, IsPassing};
ghost use Rattle.rml_bmc.specs.Decisions.{IsWalkDecision};
ghost use Rattle.rml_bmc.specs.Infeasible.{IsKnownGoal};
ghost use Rattle.rml_bmc.specs.Shown.{IsRunAlong};

use crate::answer::Run;
use crate::following::follow_legs;
use base::Mem;
use lean_decide::{Counted, Settled, first_passed, settle};
use limits::{Cause, Limits};
use pool_wp::ModelPool;
use rml_command::{About, Checked, Goal, Stage};
use rml_exec::Counterexample;
use std::alloc::Global;
use walk_model::{model_of_stopped_walk, model_of_walk, stopped_model_law, walk_model_law};
use walks::{Leg, Walk};

/// The answer to a goal along a walk.
#[derive(Drop)]
pub enum WalkDecision {
    /// No run along the walk does what is forbidden.
    NoRun,
    /// This one does.
    Has(Run),
    /// A limit is passed.
    Undecided(Cause),
}

/// What is known of a walk before goals along it are decided.
#[derive(Clone, Copy)]
pub enum Known {
    /// Nothing.
    Nothing,
    /// No run has an outcome along it.
    Infeasible,
}

// What a walk must not do, as a goal of its model.
fn goal_of(about: About) -> Goal
    ensures { result ≡ walk_goal about }
{
    Goal {
        stage: Stage::Init,
        path: 1,
        about,
    }
}

// Decides a goal of a walk's model, in a pool of that model.
fn settle_in(
    alloc: Global,
    model: &Checked,
    goal: &Goal,
    counted: Counted,
    limits: &Limits,
) -> Mem<Settled>
    requires goal { IsGoal model.now goal.now }
    ensures { IfOk result (IsSettled counted (ceilings limits.now) model.now goal.now) }
{
    let mut shared = ModelPool::new(alloc, model.model())?;
    let settled = settle(alloc, &mut shared, model, goal, counted, limits);
    drop(shared);
    settled
}

// The first limit that it passes by its size, if it passes one.
fn passed_in(
    alloc: Global,
    model: &Checked,
    goal: &Goal,
    counted: Counted,
    limits: &Limits,
) -> Mem<Option<Cause>>
    requires goal { IsGoal model.now goal.now }
    ensures { IfOk result (IsPassing counted (ceilings limits.now) model.now goal.now) }
{
    let mut shared = ModelPool::new(alloc, model.model())?;
    let passed = first_passed(alloc, &mut shared, model, goal, counted, limits);
    drop(shared);
    passed
}

// The run that a counterexample of the goal in the walk's model is.
fn shown_run(alloc: Global, checked: &Checked, walk: &Walk, shown: Counterexample) -> Mem<Run>
    requires walk { IsWalk checked.now walk.now }
    requires shown { IsCounterexample (walk_model checked.now walk.now.parts) checked.now.conjectures
        (walk_goal walk.now.about) shown.structure shown.trace.havoc shown.values }
    ensures along { IfOk result (IsRunAlong checked.now walk.now) }
    ensures start { IfOk result (λ run. run.start ≡ shown.structure) }
{
    walk_model_law();
    rml_command::path_law();
    let _checked = checked.model();
    let start = shown.structure;
    let havocs = shown.trace.havoc;
    let parts = follow_legs(
        alloc,
        checked,
        walk.parts.as_slice(),
        havocs.as_slice(),
        &start,
    )?;
    Ok(Run {
        start,
        parts,
        about: walk.about,
        values: shown.values,
    })
}

// By the model of the walk.
fn decide_in(
    alloc: Global,
    checked: &Checked,
    model: &Checked,
    walk: &Walk,
    counted: Counted,
    limits: &Limits,
) -> Mem<WalkDecision>
    requires walk { IsWalk checked.now walk.now }
    requires model { model.now ≡ walk_model checked.now walk.now.parts }
    ensures { IfOk result (IsWalkDecision counted (ceilings limits.now) checked.now walk.now) }
{
    walk_model_law();
    let _checked = checked.model();
    let goal = goal_of(walk.about);
    let settled = settle_in(alloc, model, &goal, counted, limits)?;
    match settled {
        Settled::Holds => Ok(WalkDecision::NoRun),
        Settled::Fails(shown) => {
            let run = shown_run(alloc, checked, walk, shown)?;
            Ok(WalkDecision::Has(run))
        }
        Settled::Undecided(cause) => Ok(WalkDecision::Undecided(cause)),
    }
}

// Along a walk that is infeasible, where all that is open is which limit the goal passes by its size.
fn count_in(
    alloc: Global,
    checked: &Checked,
    model: &Checked,
    walk: &Walk,
    counted: Counted,
    limits: &Limits,
) -> Mem<WalkDecision>
    requires walk { IsWalk checked.now walk.now }
    requires model { model.now ≡ walk_model checked.now walk.now.parts }
    requires none { HasNoRun checked.now walk.now }
    ensures { IfOk result (IsWalkDecision counted (ceilings limits.now) checked.now walk.now) }
{
    walk_model_law();
    let _checked = checked.model();
    let goal = goal_of(walk.about);
    match passed_in(alloc, model, &goal, counted, limits)? {
        Some(cause) => Ok(WalkDecision::Undecided(cause)),
        None => Ok(WalkDecision::NoRun),
    }
}

// By the model of the walk, with what is known of it.
fn decide_known(
    alloc: Global,
    checked: &Checked,
    model: &Checked,
    walk: &Walk,
    known: Known,
    counted: Counted,
    limits: &Limits,
) -> Mem<WalkDecision>
    requires walk { IsWalk checked.now walk.now }
    requires model { model.now ≡ walk_model checked.now walk.now.parts }
    requires known { IsKnownGoal checked.now walk.now known }
    ensures { IfOk result (IsWalkDecision counted (ceilings limits.now) checked.now walk.now) }
{
    match known {
        Known::Nothing => decide_in(alloc, checked, model, walk, counted, limits),
        Known::Infeasible => count_in(alloc, checked, model, walk, counted, limits),
    }
}

/// Decides a goal along a walk of the model under limits, which are looked at in their order. The answer does not
/// depend on what is known, which only saves the decision.
pub fn decide_walk(
    alloc: Global,
    checked: &Checked,
    walk: &Walk,
    known: Known,
    counted: Counted,
    limits: &Limits,
) -> Mem<WalkDecision>
    requires walk { IsWalk checked.now walk.now }
    requires known { IsKnownGoal checked.now walk.now known }
    ensures { IfOk result (IsWalkDecision counted (ceilings limits.now) checked.now walk.now) }
{
    let model = model_of_walk(alloc, checked, walk.parts.as_slice())?;
    let decided = decide_known(alloc, checked, &model, walk, known, counted, limits);
    drop(model);
    decided
}

// By the model of the walk with an abort at its end: whether that is met from no structure.
fn is_stopped_in(
    alloc: Global,
    checked: &Checked,
    model: &Checked,
    legs: &[Leg],
    counted: Counted,
    limits: &Limits,
) -> Mem<bool>
    requires legs { AreLegs checked.now legs.now }
    requires goes_on { has_abort (joined checked.now legs.now) ≡ false }
    requires model { model.now ≡ stopped_model checked.now legs.now }
    ensures { IfOk result (λ found. found ≡ true → HasNoOutcome checked.now legs.now) }
{
    stopped_model_law();
    let _checked = checked.model();
    let goal = goal_of(About::Abort);
    match settle_in(alloc, model, &goal, counted, limits)? {
        Settled::Holds => Ok(true),
        Settled::Undecided(_) => Ok(false),
        Settled::Fails(shown) => {
            drop(shown);
            Ok(false)
        }
    }
}

/// Whether a walk of the model that does not end in abort is found to be infeasible, under limits.
pub fn is_infeasible(
    alloc: Global,
    checked: &Checked,
    legs: &[Leg],
    counted: Counted,
    limits: &Limits,
) -> Mem<bool>
    requires legs { AreLegs checked.now legs.now }
    requires goes_on { has_abort (joined checked.now legs.now) ≡ false }
    ensures { IfOk result (λ found. found ≡ true → HasNoOutcome checked.now legs.now) }
{
    let model = model_of_stopped_walk(alloc, checked, legs)?;
    let found = is_stopped_in(alloc, checked, &model, legs, counted, limits);
    drop(model);
    found
}
