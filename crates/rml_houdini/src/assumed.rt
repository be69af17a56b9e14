// The refuting sentence of a goal with little assumed before the stage: it has few ground clauses, and where no
// structure satisfies it, none satisfies the whole one.
ghost use Rattle.std.specs.Prelude.{◌≡◌, ◌<◌, ◌++◌, ◌∷◌, [], length, map, slice_index_or, All, IfOk, OnOk};
ghost use Rattle.fol_formula.specs.View.{form};
ghost use Rattle.fol_formula.specs.Syntax.{top, negation};
ghost use Rattle.rml_command.specs.Goals.{IsGoal};
ghost use Rattle.fol_formula.specs.Sentences.{all_of};
ghost use Rattle.rml_wp.specs.declared.premises.Premises.TheVariants.{Affected};
ghost use Rattle.rml_wp.specs.Preconditions.{goal_precondition};
ghost use Rattle.rml_houdini.specs.Assuming.{lawful_parts, held_parts, assumed_sentence};

use base::Mem;
use fol_formula::{Ae, Ea, Formula, Sentence, conjunction};
use rml_command::{Checked, Goal, Stage};
use std::alloc::Global;

/// What is assumed before a stage.
#[derive(Drop)]
pub struct Assumed {
    /// Whether the axioms are.
    pub lawful: bool,
    /// The conjectures that are, by their numbers.
    pub held: Vec<u32>,
}

/// The sentence that a structure satisfies where what is assumed is true in it and the goal's precondition is not.
pub fn assumed_sentence(
    alloc: Global,
    checked: &Checked,
    goal: &Goal,
    precondition: &Ae,
    assumed: &Assumed,
) -> Mem<Ea>
    requires goal { IsGoal checked.now goal.now }
    requires precondition { precondition.now ≡ goal_precondition Affected checked.now goal.now }
    requires held { All (λ k. k < length checked.now.conjectures) assumed.now.held.items }
    ensures { IfOk result (λ f. f ≡ assumed_sentence checked.now assumed.now goal.now) }
{
    rml_wp::sentence_law();
    rml_wp::answered_goal(checked, goal);
    fol_formula::indices();
    let model = checked.model();
    let mut parts = lawful_parts(alloc, model.axioms(), assumed.lawful)?;
    push_held(
        alloc,
        &mut parts,
        model.conjectures(),
        &assumed.held,
        goal.stage,
    )?;
    let broken = precondition.sentence().formula().copy(alloc)?;
    let formula = but_not(alloc, parts, broken)?;
    Ok(Ea::new(Sentence::of(formula)))
}

// The And of these and of the other's negation.
fn but_not(alloc: Global, parts: Vec<Formula>, broken: Formula) -> Mem<Formula>
    ensures { IfOk result (λ f. form f ≡ all_of (map form parts.items ++ negation (form broken) ∷ [])) }
{
    let mut parts = parts;
    parts.push(Formula::Not(Box::new(alloc, broken)?))?;
    Ok(Formula::And(parts))
}

// The axioms' And, where they are assumed.
fn lawful_parts(alloc: Global, axioms: &[Sentence], lawful: bool) -> Mem<Vec<Formula>>
    ensures { IfOk result (λ parts. map form parts.items ≡ lawful_parts lawful axioms.now) }
{
    let mut parts = Vec::new(alloc);
    if !lawful {
        return Ok(parts);
    }
    let axioms = conjunction(alloc, axioms)?;
    parts.push(axioms)?;
    Ok(parts)
}

// Pushes the And of what holds before the stage; before init nothing does.
fn push_held(
    alloc: Global,
    parts: &mut Vec<Formula>,
    conjectures: &[Sentence],
    held: &[u32],
    stage: Stage,
) -> Mem<()>
    requires { All (λ k. k < length conjectures.now) held.now }
    ensures { OnOk result (map form parts.new.items
        ≡ map form parts.old.items ++ held_parts stage (map (λ k. slice_index_or conjectures.now k top) held.now)) }
{
    match stage {
        Stage::Init => Ok(()),
        _ => {
            let chosen = sentences_of(alloc, conjectures, held)?;
            let held = conjunction(alloc, &chosen)?;
            parts.push(held)?;
            Ok(())
        }
    }
}

/// The sentences of these numbers.
pub fn sentences_of(alloc: Global, sentences: &[Sentence], numbers: &[u32]) -> Mem<Vec<Sentence>>
    requires { All (λ k. k < length sentences.now) numbers.now }
    ensures { IfOk result (λ of. of.items ≡ map (λ k. slice_index_or sentences.now k top) numbers.now) }
{
    let mut chosen = Vec::with_capacity(alloc, numbers.len())?;
    for number in numbers {
        chosen.push(sentences[*number as usize].copy(alloc)?)?;
    }
    Ok(chosen)
}
