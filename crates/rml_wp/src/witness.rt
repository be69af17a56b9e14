// A counterexample is read off the values of a sentence's existentials.
ghost use Rattle.std.specs.Prelude.{◌≡◌, ◌+◌, ◌<◌, ◌≤◌, ◌^◌, length, drop, true, IfOk};
ghost use Rattle.rml_command.specs.Fresh.{havocs_under};
ghost use Rattle.rml_wp.specs.Written.{relation_havocs};
ghost use Rattle.fol_formula.specs.View.{form};
ghost use Rattle.fol_formula.specs.Counts.{saturated};
ghost use Rattle.rml_command.specs.View.{primitive as primitive_view};
ghost use Rattle.rml_command.specs.Goals.{IsGoal};
ghost use Rattle.rml_wp.specs.Preconditions.{target_of, answered as answered_of};
ghost use Rattle.rml_wp.specs.Witnesses.{witness_places, values_at};
ghost use Rattle.rml_wp.specs.Consumed.{next_of, behind_of, counts_of, read_havocs, behind_path, read_values};
ghost use Rattle.fol_sig.specs.Symbols.{FitsStructure, symbols};
ghost use Rattle.rml_wp.specs.Laws.{HasTarget, goal_havocs};
ghost use Rattle.rml_wp.specs.WitnessLaws.{GivesCounterexamples};

use crate::laws::{answered_goal, witness_law};
use crate::premises::Premises;
use base::{Mem, Row};
use fol_formula::{Formula, Sentence, existentials_of_all};
use fol_sig::{RelId, Signature, Structure, Symbol};
use rml_command::{About, Checked, Goal, Havoc, Model, Path, Primitive};
use std::alloc::Global;

/// The elements of a counterexample: one for each havoc of a variable on the path, and one for each leading
/// quantifier of the conjecture.
#[derive(Drop)]
pub struct Witness {
    pub havoc: Row<u32>,
    pub values: Row<u32>,
}

/// What stands at the goal's places in the values of the existentials of its refuting sentence, which are
/// in the order of its normal form: the elements and values of a counterexample, wherever the values satisfy
/// the sentence in which these axioms are premises behind a step.
pub fn read_witness(
    alloc: Global,
    checked: &Checked,
    premises: Premises,
    goal: &Goal,
    witnesses: &[u32],
) -> Mem<Witness>
    requires { IsGoal checked.now goal.now }
    ensures havoc { IfOk result
        (λ w. w.havoc ≡ values_at witnesses.now (witness_places premises checked.now goal.now).havocs) }
    ensures values { IfOk result
        (λ w. w.values ≡ values_at witnesses.now (witness_places premises checked.now goal.now).values) }
    ensures counterexamples { IfOk result
        (λ w. GivesCounterexamples premises checked.now goal.now witnesses.now w.havoc w.values) }
{
    witness_law();
    answered_goal(checked, goal);
    let path = checked.path(goal);
    let model = checked.model();
    let axioms = model.axioms();
    let start = skip(witnesses, existentials_of_all(axioms));
    let havoc = havocs(alloc, &path, premises, axioms, start)?;
    let behind = behind_all(&path, premises, axioms, start);
    let values = values_for(alloc, model, goal.about, behind)?;
    Ok(Witness {
        havoc: Row::from_vec(havoc),
        values: Row::from_vec(values),
    })
}

/// What following the path of a goal takes: these elements for the variables, and for the relations the tuples of which
/// the fresh relations of a structure over the answered signature are true.
pub fn goal_havocs(
    alloc: Global,
    checked: &Checked,
    goal: &Goal,
    answered: &Signature,
    structure: &Structure,
    elements: &[u32],
) -> Mem<Vec<Havoc>>
    requires goal { IsGoal checked.now goal.now }
    requires answered { answered.now ≡ answered_of checked.now goal.now }
    requires structure { FitsStructure (symbols answered.now) structure.now }
    ensures { IfOk result (λ v. v.items ≡ goal_havocs checked.now goal.now structure.now elements.now) }
{
    let path = checked.path(goal);
    let fresh = checked.model().signature().relation_count();
    let _ = answered.sorts();
    let havocs = havocs_with_tables(alloc, &path, structure, fresh, elements)?;
    Ok(havocs)
}

// The fresh relations are numbered from `fresh` on.
fn havocs_with_tables(
    alloc: Global,
    path: &Path,
    structure: &Structure,
    fresh: u32,
    elements: &[u32],
) -> Mem<Vec<Havoc>>
    requires there { fresh + relation_havocs path.now ≤ length structure.now.relations }
    requires few { length structure.now.relations < 2 ^ 32 }
    ensures { IfOk result (λ v. v.items ≡ havocs_under structure.now fresh path.now elements.now) }
{
    let mut havocs = Vec::new(alloc);
    let mut number = fresh;
    let mut rest = elements;
    for primitive in path.primitives() {
        match primitive {
            Primitive::Havoc(_) => {
                let Some((element, after)) = rest.split_first() else {
                    return Ok(havocs);
                };
                havocs.push(Havoc::Element(*element))?;
                rest = after;
            }
            Primitive::HavocRel(_) => {
                let tuples = structure.tuples_of(alloc, RelId(number))?;
                havocs.push(Havoc::Tuples(Row::from_vec(tuples)))?;
                number += 1;
            }
            _ => {}
        }
    }
    Ok(havocs)
}

// As far as an abort, behind which nothing is done.
fn havocs(
    alloc: Global,
    path: &Path,
    premises: Premises,
    axioms: &[Sentence],
    start: &[u32],
) -> Mem<Vec<u32>>
    ensures { IfOk result (λ v. v.items ≡ read_havocs (counts_of premises axioms.now) path.now start.now) }
{
    let mut havoc = Vec::new(alloc);
    let mut rest = start;
    for primitive in path.primitives() {
        match primitive {
            Primitive::Abort => return Ok(havoc),
            Primitive::Havoc(_) => havoc.push(next(rest))?,
            _ => {}
        }
        rest = behind(primitive, premises, axioms, rest);
    }
    Ok(havoc)
}

fn behind_all<'a>(
    path: &Path,
    premises: Premises,
    axioms: &[Sentence],
    start: &'a [u32],
) -> &'a [u32]
    ensures { result.now ≡ behind_path (counts_of premises axioms.now) path.now start.now }
{
    let mut rest = start;
    for primitive in path.primitives() {
        if let Primitive::Abort = primitive {
            return rest;
        }
        rest = behind(primitive, premises, axioms, rest);
    }
    rest
}

// What is left behind the existentials of a primitive.
fn behind<'a>(
    primitive: &Primitive,
    premises: Premises,
    axioms: &[Sentence],
    rest: &'a [u32],
) -> &'a [u32]
    ensures { result.now
        ≡ behind_of (counts_of premises axioms.now (primitive_view primitive.now)) (primitive_view primitive.now)
        rest.now }
{
    match primitive {
        Primitive::Assume(p) => skip(rest, p.formula().existentials()),
        Primitive::SetRel(rel, _) => skip(
            rest,
            premises.existentials(axioms, Symbol::Relation(*rel)),
        ),
        Primitive::SetFun(fun, _) => skip(
            rest,
            premises.existentials(axioms, Symbol::Function(*fun)),
        ),
        Primitive::HavocRel(rel) => skip(
            rest,
            premises.existentials(axioms, Symbol::Relation(*rel)),
        ),
        Primitive::Havoc(variable) => {
            let count = premises.existentials(axioms, Symbol::Function(*variable));
            skip(skip(rest, 1), count)
        }
        Primitive::Abort => rest,
    }
}

fn values_for(alloc: Global, model: &Model, about: About, rest: &[u32]) -> Mem<Vec<u32>>
    requires { HasTarget model.now about }
    ensures { IfOk result (λ v. v.items ≡ read_values (target_of model.now about) rest.now) }
{
    match about {
        About::Abort => Ok(Vec::new(alloc)),
        About::Conjecture(k) => {
            let values = leading_values(alloc, model.conjectures()[k as usize].formula(), rest)?;
            Ok(values)
        }
    }
}

fn leading_values(alloc: Global, sentence: &Formula, start: &[u32]) -> Mem<Vec<u32>>
    ensures { IfOk result (λ v. v.items ≡ read_values (form sentence.now) start.now) }
{
    let mut values = Vec::new(alloc);
    let mut rest = start;
    let mut body = sentence;
    while let Formula::Forall(_, inner) = body {
        values.push(next(rest))?;
        rest = skip(rest, 1);
        body = inner;
    }
    Ok(values)
}

fn next(rest: &[u32]) -> u32
    ensures { result ≡ next_of rest.now }
{
    if rest.is_empty() { 0 } else { rest[0] }
}

fn skip(rest: &[u32], count: u64) -> &[u32]
    ensures rest { result.now ≡ drop count rest.now }
    ensures short { length rest.now < 2 ^ 63 }
{
    if count >= rest.len() as u64 {
        &[]
    } else {
        &rest[count as usize..]
    }
}
