// A goal is decided with little assumed before its stage.
ghost use Rattle.std.specs.Prelude.{◌≡◌, ◌<◌, length, All, IfOk};
ghost use Rattle.rml_command.specs.Goals.{IsGoal};
ghost use Rattle.rml_wp.specs.declared.premises.Premises.TheVariants.{Affected};
ghost use Rattle.rml_wp.specs.Preconditions.{answered as answered_of, goal_precondition};
ghost use Rattle.limits.specs.Ceilings.{ceilings};
ghost use Rattle.pruned_decide.specs.Decisions.{IsDecidedSmall};
ghost use Rattle.rml_houdini.specs.Assuming.{assumed_sentence};
ghost use Rattle.rml_houdini.specs.Keeping.{IsTried};

use crate::assumed::{Assumed, assumed_sentence};
use base::{Mem, Refused};
use ea_decide::{Decided, Passed};
use fol_formula::{Ae, Ea};
use fol_sig::{Signature, Structure};
use limits::Limits;
use obligation_decide::read_counterexample;
use rml_command::{Checked, Goal};
use rml_exec::Counterexample;
use rml_wp::Premises;
use std::alloc::{AllocError, Global};

/// What a try ends with.
#[derive(Drop)]
pub enum Tried {
    /// The goal has no counterexample where this is assumed.
    Holds,
    /// A structure of the model; the axioms are not assumed, so it need not be one of those that are allowed.
    Met(Structure),
    /// The goal has this counterexample where this is assumed.
    Breaks(Counterexample),
    /// This limit is passed.
    Over(Passed),
    /// The functions and constants of the sentence are 2,147,483,648 or more.
    ManyConstants,
}

/// Decides a goal with this assumed, over the symbols that occur in its sentence alone. The limits are those of that
/// sentence's own counts.
pub fn try_with(
    alloc: Global,
    checked: &Checked,
    goal: &Goal,
    answered: &Signature,
    precondition: &Ae,
    assumed: &Assumed,
    limits: &Limits,
) -> Mem<Tried>
    requires goal { IsGoal checked.now goal.now }
    requires answered { answered.now ≡ answered_of checked.now goal.now }
    requires precondition { precondition.now ≡ goal_precondition Affected checked.now goal.now }
    requires held { All (λ k. k < length checked.now.conjectures) assumed.now.held.items }
    ensures { IfOk result (IsTried (ceilings limits.now) checked.now goal.now assumed.now) }
{
    let sentence = assumed_sentence(alloc, checked, goal, precondition, assumed)?;
    let tried = try_sentence(alloc, checked, goal, answered, assumed, &sentence, limits);
    drop(sentence);
    tried
}

// By that sentence.
fn try_sentence(
    alloc: Global,
    checked: &Checked,
    goal: &Goal,
    answered: &Signature,
    assumed: &Assumed,
    sentence: &Ea,
    limits: &Limits,
) -> Mem<Tried>
    requires goal { IsGoal checked.now goal.now }
    requires answered { answered.now ≡ answered_of checked.now goal.now }
    requires sentence { sentence.now ≡ assumed_sentence checked.now assumed.now goal.now }
    ensures { IfOk result (IsTried (ceilings limits.now) checked.now goal.now assumed.now) }
{
    rml_wp::answered_law();
    rml_wp::answered_goal(checked, goal);
    rml_wp::sentence_law();
    let _checked = checked.model();
    match pruned_decide::decide(alloc, answered, checked.strata(), sentence, limits) {
        Ok(Decided::Refuted(proof)) => {
            drop(proof);
            Ok(Tried::Holds)
        }
        Ok(Decided::Satisfied(model)) => {
            shown_by(
                alloc, checked, goal, answered, assumed, sentence, model, limits,
            )
        }
        Err(Refused::NoMemory) => Err(AllocError),
        Ok(Decided::Over(passed)) => Ok(Tried::Over(passed)),
        Err(Refused::For(_)) => Ok(Tried::ManyConstants),
    }
}

// What a model of that sentence, with constants in the place of the existentials, shows.
fn shown_by(
    alloc: Global,
    checked: &Checked,
    goal: &Goal,
    answered: &Signature,
    assumed: &Assumed,
    sentence: &Ea,
    model: Structure,
    limits: &Limits,
) -> Mem<Tried>
    requires goal { IsGoal checked.now goal.now }
    requires answered { answered.now ≡ answered_of checked.now goal.now }
    requires sentence { sentence.now ≡ assumed_sentence checked.now assumed.now goal.now }
    requires model { IsDecidedSmall (ceilings limits.now) answered.now sentence.now (Decided.Satisfied model) }
    ensures { IfOk result (IsTried (ceilings limits.now) checked.now goal.now assumed.now) }
{
    rml_wp::sentence_law();
    rml_wp::answered_goal(checked, goal);
    skolem::exactness();
    fol_nnf::exactness();
    ea_decide::elements_law();
    let signature = checked.model().signature();
    if assumed.lawful {
        let shown = read_counterexample(
            alloc,
            checked,
            Premises::Affected,
            goal,
            answered,
            sentence,
            model,
        )?;
        return Ok(Tried::Breaks(shown));
    }
    let mut structure = model;
    structure.restrict(answered);
    structure.restrict(signature);
    Ok(Tried::Met(structure))
}
