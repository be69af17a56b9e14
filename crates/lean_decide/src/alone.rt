// Most goals of a large model are about a conjecture of which their path changes nothing. Such a goal holds by that
// conjecture alone, and the sentence that says so has none of the others.
ghost use Rattle.std.specs.Prelude.{◌≡◌, ◌<◌, [], ◌∷◌, true, length, IfOk};
ghost use Rattle.fol_formula.specs.View.{form};
ghost use Rattle.fol_formula.specs.Syntax.{negation};
ghost use Rattle.fol_formula.specs.Fragments.{IsPlainUniversal};
ghost use Rattle.rml_command.specs.Goals.{IsGoal, HasNone};
ghost use Rattle.fol_formula.specs.Sentences.{all_of};
ghost use Rattle.rml_command.specs.declared.goal.About.TheVariants.{Conjecture};
ghost use Rattle.rml_wp.specs.Preconditions.{answered as answered_of, goal_precondition};
ghost use Rattle.rml_wp.specs.declared.premises.Premises.TheVariants.{Affected};
ghost use Rattle.ea_decide.specs.Decisions.{HasNoModel};
ghost use Rattle.lean_decide.specs.Alone.{breaks_alone};

use base::{Mem, Refused};
use ea_decide::Decided;
use fol_formula::{Ae, Ea, Formula, Sentence};
use fol_occurs::mentions;
use fol_sig::{Signature, Symbol};
use limits::Limits;
use rml_command::{About, Checked, Goal, Path, Primitive, Stage};
use rml_wp::{Premises, precondition};
use std::alloc::{AllocError, Global};

/// Whether a goal of an action holds by its own conjecture, which is tried where the path changes no symbol of it. What
/// is not tried, or is left open by a limit, is not said to hold.
pub fn holds_alone(alloc: Global, checked: &Checked, goal: &Goal, limits: &Limits) -> Mem<bool>
    requires goal { IsGoal checked.now goal.now }
    ensures { IfOk result (λ holds. holds ≡ true → HasNone checked.now checked.now.conjectures goal.now) }
{
    rml_wp::refuting_law();
    rml_wp::answered_law();
    rml_wp::answered_goal(checked, goal);
    let model = checked.model();
    match (goal.stage, goal.about) {
        (Stage::Action(_), About::Conjecture(number)) => {
            let conjecture = &model.conjectures()[number as usize];
            if !leaves(&checked.path(goal), conjecture.formula()) {
                return Ok(false);
            }
            let kept = is_kept(alloc, checked, goal, number, limits)?;
            Ok(kept)
        }
        _ => Ok(false),
    }
}

// Whether no step of the path changes a symbol of the formula. It says when trying is worth it, and no more rests on
// it.
fn leaves(path: &Path, formula: &Formula) -> bool {
    for primitive in path.primitives() {
        if let Some(symbol) = changed_by(primitive) {
            if mentions(formula, symbol) {
                return false;
            }
        }
    }
    true
}

fn changed_by(primitive: &Primitive) -> Option<Symbol> {
    match primitive {
        Primitive::Assume(_) => None,
        Primitive::SetRel(rel, _) => Some(Symbol::Relation(*rel)),
        Primitive::SetFun(fun, _) => Some(Symbol::Function(*fun)),
        Primitive::Havoc(variable) => Some(Symbol::Function(*variable)),
        Primitive::HavocRel(rel) => Some(Symbol::Relation(*rel)),
        Primitive::Abort => None,
    }
}

// Whether no structure satisfies the conjecture of this number, the goal's, and has an end of the path that breaks it.
fn is_kept(alloc: Global, checked: &Checked, goal: &Goal, number: u32, limits: &Limits) -> Mem<bool>
    requires goal { IsGoal checked.now goal.now }
    requires about { goal.now.about ≡ Conjecture number }
    requires number { number < length checked.now.conjectures }
    ensures { IfOk result
        (λ kept. kept ≡ true → HasNoModel (answered_of checked.now goal.now) (breaks_alone checked.now goal.now)) }
{
    match precondition(alloc, checked, Premises::Affected, goal) {
        Ok((answered, precondition)) => {
            let kept = is_refuted(
                alloc,
                checked,
                goal,
                number,
                &answered,
                precondition,
                limits,
            );
            drop(answered);
            kept
        }
        Err(Refused::NoMemory) => Err(AllocError),
        Err(Refused::For(_)) => Ok(false),
    }
}

// The same, given the goal's precondition.
fn is_refuted(
    alloc: Global,
    checked: &Checked,
    goal: &Goal,
    number: u32,
    answered: &Signature,
    precondition: Ae,
    limits: &Limits,
) -> Mem<bool>
    requires goal { IsGoal checked.now goal.now }
    requires about { goal.now.about ≡ Conjecture number }
    requires number { number < length checked.now.conjectures }
    requires answered { answered.now ≡ answered_of checked.now goal.now }
    requires precondition { precondition ≡ goal_precondition Affected checked.now goal.now }
    ensures { IfOk result
        (λ kept. kept ≡ true → HasNoModel (answered_of checked.now goal.now) (breaks_alone checked.now goal.now)) }
{
    rml_wp::sentence_law();
    rml_wp::answered_goal(checked, goal);
    let model = checked.model();
    let conjecture = &model.conjectures()[number as usize];
    let sentence = broken(alloc, conjecture, precondition)?;
    let decided = pruned_decide::decide(alloc, answered, checked.strata(), &sentence, limits);
    drop(sentence);
    match decided {
        Ok(Decided::Refuted(_)) => Ok(true),
        Ok(_) => Ok(false),
        Err(Refused::NoMemory) => Err(AllocError),
        Err(Refused::For(_)) => Ok(false),
    }
}

// That the conjecture is true and the precondition is not.
fn broken(alloc: Global, conjecture: &Sentence, precondition: Ae) -> Mem<Ea>
    requires { IsPlainUniversal conjecture.now }
    ensures { IfOk result (λ f. f ≡ all_of (conjecture.now ∷ negation precondition ∷ [])) }
{
    fol_formula::inclusion();
    let conjecture = conjecture.formula();
    let held = conjecture.copy(alloc)?;
    let precondition = precondition.into_sentence().into_formula();
    let formula = but_not(alloc, held, precondition)?;
    Ok(Ea::new(Sentence::of(formula)))
}

fn but_not(alloc: Global, held: Formula, broken: Formula) -> Mem<Formula>
    ensures { IfOk result (λ f. form f ≡ all_of (form held ∷ negation (form broken) ∷ [])) }
{
    let mut parts = Vec::new(alloc);
    parts.push(held)?;
    parts.push(Formula::Not(Box::new(alloc, broken)?))?;
    Ok(Formula::And(parts))
}
