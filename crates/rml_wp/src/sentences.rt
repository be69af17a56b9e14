// The precondition and the refuting sentence of a goal.
ghost use Rattle.std.specs.List.{AllByRecursion};
ghost use Rattle.std.specs.Prelude.{◌≡◌, ◌<◌, ◌++◌, ◌∷◌, [], length, map, false, IfOk, IfErr, OnOk, IsTrue, All};
ghost use Rattle.std.specs.Prelude.{slice_index_or};
ghost use Rattle.base.specs.Because.{Because};
ghost use Rattle.fol_formula.specs.View.{form};
ghost use Rattle.fol_formula.specs.Syntax.{negation, top};
ghost use Rattle.fol_formula.specs.Fits.{BoundForm};
ghost use Rattle.fol_formula.specs.Fragments.{IsEa};
ghost use Rattle.fol_formula.specs.Sentences.{all_of};
ghost use Rattle.rml_command.specs.Goals.{IsGoal};
ghost use Rattle.rml_wp.specs.Preconditions.{answered, goal_precondition, goal_passes_limit, refuting, parts_before};
ghost use Rattle.rml_command.specs.InductiveSets.{conjectures_of};
ghost use Rattle.fol_sig.specs.Symbols.{symbols};
ghost use Rattle.rml_command.specs.Models.{FitsPath};
ghost use Rattle.rml_command.specs.Fresh.{with_fresh};
ghost use Rattle.rml_command.specs.View.{primitive as primitive_view};
ghost use Rattle.rml_wp.specs.Written.{havoc_of};
ghost use Rattle.rml_wp.specs.Held.{held_at};

use crate::laws::fragment_law;
use crate::premises::Premises;
use crate::steps::along;
use base::{Mem, Refused};
use fol_formula::{Ae, Ea, Formula, Sentence, conjunction};
use fol_sig::{RelId, Signature, with_fresh_relations};
use fol_subst::FormulaLimit;
use rml_command::{Checked, Goal, Model, Path, Primitive, Stage};
use std::alloc::{AllocError, Global};

/// The precondition of a goal's path, over the answered signature: that of the model, with a fresh relation for
/// each havoc of a relation on the path. `premises` says which axioms are premises behind an update or a havoc. In a
/// structure that satisfies the axioms it is true exactly where, under the tables of the fresh relations, no outcome of
/// the path aborts and, for a conjecture, each end satisfies it. It is refused where that of some rest of the path, the
/// empty one too, has over 1,000,000 nodes or is over 1,000 deep.
pub fn precondition(
    alloc: Global,
    checked: &Checked,
    premises: Premises,
    goal: &Goal,
) -> Result<(Signature, Ae), Refused<FormulaLimit>>
    requires { IsGoal checked.now goal.now }
    ensures signature { IfOk result (λ r. r.0 ≡ answered checked.now goal.now) }
    ensures precondition { IfOk result (λ r. r.1 ≡ goal_precondition premises checked.now goal.now) }
    ensures within { OnOk result (goal_passes_limit premises checked.now goal.now ≡ false) }
    ensures limit { IfErr result (Because (λ _. IsTrue (goal_passes_limit premises checked.now goal.now))) }
{
    fol_formula::inclusion();
    fol_formula::indices();
    fol_subst::exactness();
    fol_formula::growth();
    fragment_law();
    rml_command::fresh_law();
    let model = checked.model();
    let _ = model.signature().sorts();
    let path = checked.path(goal);
    let answered = signature_along(alloc, model, &path)?;
    let counted = along(alloc, model, premises, &answered, goal.about, &path)?;
    Ok((answered, Ae::new(Sentence::of(counted.formula))))
}

/// The sentence that a structure satisfies exactly where the goal has a counterexample from it, whichever axioms are
/// premises behind an update or a havoc.
pub fn refuting(
    alloc: Global,
    checked: &Checked,
    premises: Premises,
    goal: &Goal,
) -> Result<(Signature, Ea), Refused<FormulaLimit>>
    requires { IsGoal checked.now goal.now }
    ensures signature { IfOk result (λ r. r.0 ≡ answered checked.now goal.now) }
    ensures sentence { IfOk result (λ r. r.1 ≡ refuting premises checked.now checked.now.conjectures goal.now) }
    ensures within { OnOk result (goal_passes_limit premises checked.now goal.now ≡ false) }
    ensures limit { IfErr result (Because (λ _. IsTrue (goal_passes_limit premises checked.now goal.now))) }
{
    let (answered, precondition) = precondition(alloc, checked, premises, goal)?;
    let sentence = refuting_from(alloc, checked, premises, goal, precondition)?;
    Ok((answered, sentence))
}

/// The same, given the goal's precondition.
pub fn refuting_from(
    alloc: Global,
    checked: &Checked,
    premises: Premises,
    goal: &Goal,
    precondition: Ae,
) -> Mem<Ea>
    requires goal { IsGoal checked.now goal.now }
    requires precondition { precondition ≡ goal_precondition premises checked.now goal.now }
    ensures { IfOk result (λ s. s ≡ refuting premises checked.now checked.now.conjectures goal.now) }
{
    fol_formula::indices();
    fol_formula::inclusion();
    let model = checked.model();
    let held = held_before(alloc, model, goal.stage)?;
    let sentence = with_allowed(alloc, model, held, goal.stage, precondition)?;
    Ok(sentence)
}

/// The refuting sentence where before the stage the conjectures of these numbers hold in place of all.
pub fn refuting_with(
    alloc: Global,
    checked: &Checked,
    premises: Premises,
    goal: &Goal,
    held: &[u32],
) -> Result<(Signature, Ea), Refused<FormulaLimit>>
    requires goal { IsGoal checked.now goal.now }
    requires held { All (λ k. k < length checked.now.conjectures) held.now }
    ensures signature { IfOk result (λ r. r.0 ≡ answered checked.now goal.now) }
    ensures sentence { IfOk result
        (λ r. r.1 ≡ refuting premises checked.now (conjectures_of checked.now held.now) goal.now) }
    ensures within { OnOk result (goal_passes_limit premises checked.now goal.now ≡ false) }
    ensures limit { IfErr result (Because (λ _. IsTrue (goal_passes_limit premises checked.now goal.now))) }
{
    fol_formula::indices();
    fol_formula::inclusion();
    let (answered, precondition) = precondition(alloc, checked, premises, goal)?;
    let model = checked.model();
    let held = chosen_before(alloc, model, held, goal.stage)?;
    let sentence = with_allowed(alloc, model, held, goal.stage, precondition)?;
    Ok((answered, sentence))
}

/// The signature over which the sentences of a goal are.
pub fn answered_signature(alloc: Global, checked: &Checked, goal: &Goal) -> Mem<Signature>
    requires { IsGoal checked.now goal.now }
    ensures { IfOk result (λ s. s ≡ answered checked.now goal.now) }
{
    let path = checked.path(goal);
    let signature = signature_along(alloc, checked.model(), &path)?;
    Ok(signature)
}

// The relation that the primitive havocs, if it havocs one, behind those before.
fn push_havocked(havocked: &mut Vec<RelId>, primitive: &Primitive) -> Mem<()>
    ensures { OnOk result (map (λ r. r.0) havocked.new.items
        ≡ map (λ r. r.0) havocked.old.items ++ havoc_of (primitive_view primitive.now)) }
{
    if let Primitive::HavocRel(rel) = primitive {
        havocked.push(*rel)?;
    }
    Ok(())
}

// The model's signature, with a fresh relation for each havoc of a relation on the path.
fn signature_along(alloc: Global, model: &Model, path: &Path) -> Mem<Signature>
    requires path { FitsPath (symbols model.now.signature) path.now }
    ensures { IfOk result (λ s. s ≡ with_fresh model.now.signature path.now) }
{
    let mut havocked = Vec::new(alloc);
    for primitive in path.primitives() {
        push_havocked(&mut havocked, primitive)?;
    }
    let signature = model.signature();
    // So many primitives have no room in memory.
    if havocked.len() >= (u32::MAX - signature.relation_count()) as usize {
        return Err(AllocError);
    }
    let answered = with_fresh_relations(alloc, signature, &havocked)?;
    Ok(answered)
}

// What holds before a stage beside the axioms. Before init there is nothing, and nothing is copied.
fn held_before(alloc: Global, model: &Model, stage: Stage) -> Mem<Formula>
    ensures { IfOk result (λ f. form f ≡ held_at stage (all_of model.now.conjectures)) }
{
    match stage {
        Stage::Init => Ok(Formula::True),
        _ => {
            let held = conjunction(alloc, model.conjectures())?;
            Ok(held)
        }
    }
}

// The same, where of the conjectures those with these numbers hold.
fn chosen_before(alloc: Global, model: &Model, chosen: &[u32], stage: Stage) -> Mem<Formula>
    requires { All (λ k. k < length model.now.conjectures) chosen.now }
    ensures { IfOk result (λ f. form f ≡ held_at stage (all_of (conjectures_of model.now chosen.now))) }
{
    match stage {
        Stage::Init => Ok(Formula::True),
        _ => {
            let held = all_of_chosen(alloc, model.conjectures(), chosen)?;
            Ok(held)
        }
    }
}

// The parts in order, as a sentence of the fragment.
fn with_allowed(
    alloc: Global,
    model: &Model,
    held: Formula,
    stage: Stage,
    precondition: Ae,
) -> Mem<Ea>
    requires axioms { AllByRecursion IsEa model.now.axioms }
    requires held { IsEa (form held) }
    requires bound { BoundForm 0 (form held) }
    ensures { IfOk result
        (λ f. f ≡ all_of (parts_before stage (all_of model.now.axioms) (form held) ++ negation precondition
        ∷ [])) }
{
    fol_formula::indices();
    let axioms = model.axioms();
    let lawful = conjunction(alloc, axioms)?;
    let precondition = precondition.into_sentence().into_formula();
    let sentence = conjoined(alloc, lawful, held, stage, precondition)?;
    Ok(Ea::new(Sentence::of(sentence)))
}

// The axioms, what else holds before the stage, and the precondition's negation.
fn conjoined(
    alloc: Global,
    lawful: Formula,
    held: Formula,
    stage: Stage,
    precondition: Formula,
) -> Mem<Formula>
    ensures { IfOk result
        (λ f. form f
        ≡ all_of (parts_before stage (form lawful) (form held) ++ negation (form precondition) ∷ [])) }
{
    let mut parts = Vec::new(alloc);
    parts.push(lawful)?;
    match stage {
        Stage::Init => {}
        _ => parts.push(held)?,
    }
    parts.push(Formula::Not(Box::new(alloc, precondition)?))?;
    Ok(Formula::And(parts))
}

// The And of the sentences with these numbers.
fn all_of_chosen(alloc: Global, sentences: &[Sentence], chosen: &[u32]) -> Mem<Formula>
    requires { All (λ k. k < length sentences.now) chosen.now }
    ensures { IfOk result (λ f. form f ≡ all_of (map (λ k. slice_index_or sentences.now k top) chosen.now)) }
{
    let mut all = Vec::new(alloc);
    for number in chosen {
        all.push(sentences[*number as usize].formula().copy(alloc)?)?;
    }
    Ok(Formula::And(all))
}
