// What a goal would cost. Its refuting sentence is counted where its parts stand: of many conjectures, most of it, none
// is copied.
ghost use Rattle.std.specs.Prelude.{◌≡◌, [], false, IfOk};
ghost use Rattle.std.specs.List.{AllByRecursion};
ghost use Rattle.fol_sig.specs.Tables.{Declared};
ghost use Rattle.fol_sig.specs.Symbols.{symbols};
ghost use Rattle.fol_formula.specs.Syntax.{FormTree};
ghost use Rattle.fol_formula.specs.Fits.{FitsForm};
ghost use Rattle.fol_formula.specs.Fragments.{IsEa};
ghost use Rattle.fol_pool.specs.Trees.{IsAt, a_form};
ghost use Rattle.rml_command.specs.Goals.{IsGoal};
ghost use Rattle.rml_wp.specs.Preconditions.{answered as answered_of, goal_precondition, goal_passes_limit};
ghost use Rattle.rml_wp.specs.Added.{refuting_where};
ghost use Rattle.ground_size.specs.Found.{IsGroundSize};
ghost use Rattle.pool_wp.specs.Sharing.{IsPoolOf};
ghost use Rattle.ground_size.specs.Conjoined.{forms_at};
ghost use Rattle.limits.specs.Ceilings.{ceilings};
ghost use Rattle.obligation_decide.specs.Costs.{IsSentenceMeasured, IsRestrictedMeasured, held_before};
ghost use Rattle.rml_wp.specs.declared.premises.Premises.TheVariants.{All};

use crate::cause_of;
use crate::decision::Measured;
use base::{Mem, Refused};
use ea_decide::{measure_parts, measure_size};
use fol_formula::{Ae, Sentence};
use fol_pool::Node;
use fol_sig::Signature;
use ground_size::{GroundSize, Part};
use limits::{Cause, Limits};
use pool_wp::ModelPool;
use rml_command::{Checked, Goal, Stage};
use std::alloc::{AllocError, Global};

/// What it would cost to decide a goal of the model: the size of the ground formulas, or the limit that is passed
/// before anything is decided. The refuting sentence is made in the model's pool, where each part is kept, changed and
/// counted once, so a path that doubles a formula at each of its steps wants memory for its steps, and none for the
/// tree. It is forgotten behind this.
pub fn measure(
    alloc: Global,
    shared: &mut ModelPool,
    checked: &Checked,
    goal: &Goal,
    limits: &Limits,
) -> Mem<Measured>
    requires shared { IsPoolOf checked.now shared.old }
    requires goal { IsGoal checked.now goal.now }
    ensures measured { IfOk result (IsRestrictedMeasured (ceilings limits.now) checked.now [] goal.now) }
    ensures shared { IsPoolOf checked.now shared.new }
{
    let measured = measure_in(alloc, shared, checked, goal, limits);
    shared.forget();
    let measured = measured?;
    Ok(measured)
}

// The same, with what is made of the sentence left in the pool.
fn measure_in(
    alloc: Global,
    shared: &mut ModelPool,
    checked: &Checked,
    goal: &Goal,
    limits: &Limits,
) -> Mem<Measured>
    requires shared { IsPoolOf checked.now shared.old }
    requires goal { IsGoal checked.now goal.now }
    ensures measured { IfOk result (IsRestrictedMeasured (ceilings limits.now) checked.now [] goal.now) }
    ensures shared { IsPoolOf checked.now shared.new }
{
    match shared.refuting(alloc, checked, goal) {
        Ok((answered, sentence)) => {
            let found = counted(alloc, shared, checked, goal, &answered, sentence);
            drop(answered);
            let found = found?;
            Ok(measured(found, limits))
        }
        Err(Refused::NoMemory) => Err(AllocError),
        Err(Refused::For(_)) => Ok(Measured::Over(Cause::Formula)),
    }
}

// How large the ground formulas of its refuting sentence are, which stands at this node.
fn counted(
    alloc: Global,
    shared: &mut ModelPool,
    checked: &Checked,
    goal: &Goal,
    answered: &Signature,
    sentence: Node,
) -> Mem<GroundSize>
    requires shared { IsPoolOf checked.now shared.old }
    requires goal { IsGoal checked.now goal.now }
    requires answered { answered.now ≡ answered_of checked.now goal.now }
    requires sentence { IsAt shared.old.pool sentence.0
        (a_form (refuting_where All checked.now checked.now.conjectures [] goal.now)) }
    ensures size { IfOk result
        (IsGroundSize answered.now (refuting_where All checked.now checked.now.conjectures [] goal.now)) }
    ensures shared { IsPoolOf checked.now shared.new }
{
    rml_wp::sentence_law();
    rml_wp::answered_goal(checked, goal);
    let _model = checked.model();
    let found = shared.ground_size(alloc, answered, checked.strata(), sentence)?;
    Ok(found)
}

// What is told of a refuting sentence whose ground formulas are so large.
fn measured(found: GroundSize, limits: &Limits) -> Measured
    ensures { (sig : Declared) (p : FormTree) → IsGroundSize sig p found
        → IsSentenceMeasured (ceilings limits.now) sig p result }
{
    match measure_size(found, limits) {
        ea_decide::Measured::Within(size) => Measured::Within(size),
        ea_decide::Measured::Over(passed) => Measured::Over(cause_of(passed)),
    }
}

/// The same, in structures that satisfy further sentences, of a goal that does not pass the limit of formulas, given
/// its precondition and the signature that it is over.
pub fn measure_by(
    alloc: Global,
    checked: &Checked,
    goal: &Goal,
    answered: &Signature,
    precondition: &Ae,
    more: &[Sentence],
    limits: &Limits,
) -> Mem<Measured>
    requires goal { IsGoal checked.now goal.now }
    requires answered { answered.now ≡ answered_of checked.now goal.now }
    requires precondition { precondition.now ≡ goal_precondition All checked.now goal.now }
    requires within { goal_passes_limit All checked.now goal.now ≡ false }
    requires fragment { AllByRecursion IsEa more.now }
    requires fits { AllByRecursion (FitsForm (symbols checked.now.signature) []) more.now }
    ensures { IfOk result (IsRestrictedMeasured (ceilings limits.now) checked.now more.now goal.now) }
{
    let measured = measure_refuting(alloc, checked, goal, answered, precondition, more, limits)?;
    Ok(measured)
}

// By its refuting sentence with further parts, given its precondition.
fn measure_refuting(
    alloc: Global,
    checked: &Checked,
    goal: &Goal,
    answered: &Signature,
    precondition: &Ae,
    more: &[Sentence],
    limits: &Limits,
) -> Mem<Measured>
    requires goal { IsGoal checked.now goal.now }
    requires answered { answered.now ≡ answered_of checked.now goal.now }
    requires precondition { precondition.now ≡ goal_precondition All checked.now goal.now }
    requires fragment { AllByRecursion IsEa more.now }
    requires fits { AllByRecursion (FitsForm (symbols checked.now.signature) []) more.now }
    ensures { IfOk result (IsSentenceMeasured (ceilings limits.now) answered.now
        (refuting_where All checked.now checked.now.conjectures more.now goal.now)) }
{
    rml_wp::sentence_law();
    rml_wp::answered_goal(checked, goal);
    let model = checked.model();
    let axioms = model.axioms();
    let held = held_before(goal.stage, model.conjectures());
    let parts = [
        Part::All(axioms),
        held,
        Part::Not(precondition.sentence()),
        Part::Each(more),
    ];
    match measure_parts(alloc, answered, checked.strata(), &parts, limits)? {
        ea_decide::Measured::Within(size) => Ok(Measured::Within(size)),
        ea_decide::Measured::Over(passed) => Ok(Measured::Over(cause_of(passed))),
    }
}

// What holds before a stage beside the axioms: the conjectures, but before init nothing.
fn held_before<'a>(stage: Stage, conjectures: &'a [Sentence]) -> Part<'a>
    ensures { forms_at result ≡ held_before stage conjectures.now }
{
    match stage {
        Stage::Init => Part::Each(&[]),
        Stage::Action(_) => Part::All(conjectures),
        Stage::Final => Part::All(conjectures),
    }
}
