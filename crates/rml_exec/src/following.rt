// A path is followed step by step.
ghost use Rattle.std.specs.Prelude.{◌≡◌, IfOk};
ghost use Rattle.fol_sig.specs.Symbols.{symbols, FitsStructure};
ghost use Rattle.rml_command.specs.View.{primitive as primitive_view};
ghost use Rattle.rml_command.specs.Trees.{havoc as havoc_tree, havoc_rel as havoc_rel_tree};
ghost use Rattle.fol_formula.specs.Fits.{HaveTruth};
ghost use Rattle.rml_command.specs.Outcomes.{follow_path};
ghost use Rattle.rml_command.specs.Models.{FitsPath};
ghost use Rattle.rml_exec.specs.Followed.{outcome_of, EndFits};
ghost use Rattle.rml_exec.specs.Steps.{havocs_after, CanStep, StepsTo, Judges};

use crate::tables::{set_function, set_relation, set_variable};
use crate::trace::{Followed, Trace};
use base::Mem;
use fol_eval::{Env, holds, satisfies};
use fol_formula::Sentence;
use fol_sig::{FunId, RelId, Structure};
use rml_command::{Checked, Havoc, Path, Primitive};
use std::alloc::Global;

/// Follows a path from a structure. It is blocked exactly where an assumption is false, the entry for a
/// havoc is missing or of the other kind, its element is out of range, a tuple of it has a wrong length
/// or an element out of range, or an update or a havoc breaks an axiom.
pub fn follow(
    alloc: Global,
    checked: &Checked,
    path: &Path,
    trace: &Trace,
    structure: &Structure,
) -> Mem<Followed>
    requires path { FitsPath (symbols checked.now.signature) path.now }
    requires structure { FitsStructure (symbols checked.now.signature) structure.now }
    ensures outcome { IfOk result
        (λ f. outcome_of f ≡ follow_path checked.now.axioms path.now trace.now.havoc structure.now) }
    ensures fits { IfOk result (λ f. EndFits (symbols checked.now.signature) f) }
{
    let model = checked.model();
    let axioms = model.axioms();
    let mut now = structure.copy(alloc)?;
    let mut havocs = trace.havoc.as_slice();
    for primitive in path.primitives() {
        match take_step(alloc, axioms, primitive, havocs, now)? {
            Followed::Ended(next) => now = next,
            Followed::Aborted => return Ok(Followed::Aborted),
            Followed::Blocked => return Ok(Followed::Blocked),
        }
        havocs = havocs_after(primitive, havocs);
    }
    Ok(Followed::Ended(now))
}

/// The entries of a trace that a step of a path leaves.
pub fn havocs_after<'a>(primitive: &Primitive, havocs: &'a [Havoc]) -> &'a [Havoc]
    ensures { result.now ≡ havocs_after (primitive_view primitive.now) havocs.now }
{
    match primitive {
        Primitive::Havoc(_) if !havocs.is_empty() => &havocs[1..],
        Primitive::HavocRel(_) if !havocs.is_empty() => &havocs[1..],
        _ => havocs,
    }
}

fn take_step(
    alloc: Global,
    axioms: &[Sentence],
    primitive: &Primitive,
    havocs: &[Havoc],
    mut structure: Structure,
) -> Mem<Followed>
    requires { CanStep axioms.now (primitive_view primitive.now) structure }
    ensures { IfOk result (λ f. StepsTo axioms.now (primitive_view primitive.now) havocs.now structure f) }
{
    match primitive {
        Primitive::Assume(sentence) => {
            if holds(&structure, sentence.formula(), &Env::Empty) {
                Ok(Followed::Ended(structure))
            } else {
                Ok(Followed::Blocked)
            }
        }
        Primitive::SetRel(rel, by) => {
            set_relation(alloc, &mut structure, *rel, by)?;
            Ok(judge(axioms, structure))
        }
        Primitive::SetFun(fun, by) => {
            set_function(alloc, &mut structure, *fun, by)?;
            Ok(judge(axioms, structure))
        }
        Primitive::Havoc(fun) => {
            let ended = havoc(alloc, axioms, *fun, havocs, structure)?;
            Ok(ended)
        }
        Primitive::HavocRel(rel) => {
            let ended = havoc_relation(alloc, axioms, *rel, havocs, structure)?;
            Ok(ended)
        }
        Primitive::Abort => Ok(Followed::Aborted),
    }
}

fn havoc(
    alloc: Global,
    axioms: &[Sentence],
    variable: FunId,
    havocs: &[Havoc],
    mut structure: Structure,
) -> Mem<Followed>
    requires { CanStep axioms.now (havoc_tree variable.0) structure }
    ensures { IfOk result (λ f. StepsTo axioms.now (havoc_tree variable.0) havocs.now structure f) }
{
    let Some(Havoc::Element(element)) = havocs.first() else {
        return Ok(Followed::Blocked);
    };
    if *element >= structure.size(structure.function_into(variable)) {
        return Ok(Followed::Blocked);
    }
    set_variable(alloc, &mut structure, variable, *element)?;
    Ok(judge(axioms, structure))
}

fn havoc_relation(
    alloc: Global,
    axioms: &[Sentence],
    rel: RelId,
    havocs: &[Havoc],
    mut structure: Structure,
) -> Mem<Followed>
    requires { CanStep axioms.now (havoc_rel_tree rel.0) structure }
    ensures { IfOk result (λ f. StepsTo axioms.now (havoc_rel_tree rel.0) havocs.now structure f) }
{
    let Some(Havoc::Tuples(tuples)) = havocs.first() else {
        return Ok(Followed::Blocked);
    };
    if !structure.are_in_range(rel, tuples.as_slice()) {
        return Ok(Followed::Blocked);
    }
    structure.set_tuples(alloc, rel, tuples.as_slice())?;
    Ok(judge(axioms, structure))
}

// A structure that breaks an axiom is no end of a step.
fn judge(axioms: &[Sentence], structure: Structure) -> Followed
    requires { HaveTruth structure axioms.now }
    ensures { Judges axioms.now structure result }
{
    if satisfies(&structure, axioms) {
        Followed::Ended(structure)
    } else {
        Followed::Blocked
    }
}
