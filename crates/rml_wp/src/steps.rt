// A path is gone back, from its end to its beginning.
ghost use Rattle.std.specs.Prelude.{◌≡◌, ◌+◌, ◌<◌, ◌≤◌, [], ◌∷◌, length, false, IfOk, IfErr, OnOk, IsTrue};
ghost use Rattle.std.specs.List.{AllByRecursion};
ghost use Rattle.base.specs.Because.{Because};
ghost use Rattle.fol_sig.specs.Symbols.{symbols};
ghost use Rattle.fol_formula.specs.View.{form, term};
ghost use Rattle.fol_formula.specs.Syntax.{implication, for_all, bound};
ghost use Rattle.fol_formula.specs.Fits.{FitsForm};
ghost use Rattle.fol_subst.specs.Replace.{change_rel, change_fun, changed_form};
ghost use Rattle.fol_subst.specs.Limits.{is_too_large};
ghost use Rattle.rml_command.specs.Trees.{set_rel, set_fun, havoc};
ghost use Rattle.rml_command.specs.View.{primitive as primitive_view};
ghost use Rattle.rml_command.specs.Models.{FitsPrimitive, FitsPath, FitsStep};
ghost use Rattle.fol_occurs.specs.Occurs.{the_rel, the_fun};
ghost use Rattle.rml_command.specs.Fresh.{written, with_fresh, at_parameters as at_parameters_of};
ghost use Rattle.rml_wp.specs.Written.{written_step, relation_havocs};
ghost use Rattle.rml_wp.specs.Backward.{back_by};
ghost use Rattle.rml_wp.specs.Preconditions.{back_of, precondition_of, passes_limit, target_of, premises_at};
ghost use Rattle.rml_wp.specs.Preconditions.{premises_of};
ghost use Rattle.rml_wp.specs.Preconditions.{where_lawful as where_lawful_of};
ghost use Rattle.rml_wp.specs.Laws.{HasTarget};

use crate::premises::Premises;
use base::{Mem, Refused};
use fol_formula::{Formula, Term};
use fol_sig::{FunId, RelId, Signature, Sort, Symbol};
use fol_subst::{
    Counted, FormulaLimit, is_own_fun, is_own_rel, replace_const, replace_fun, replace_rel,
};
use rml_command::{About, Model, Path, Primitive};
use std::alloc::Global;

// The precondition of a path for what a goal is about, with its relation havocs written out as updates to the fresh
// relations of the answered signature. They are numbered forward, and the path is gone back, so their number falls.
pub fn along(
    alloc: Global,
    model: &Model,
    premises: Premises,
    answered: &Signature,
    about: About,
    path: &Path,
) -> Result<Counted, Refused<FormulaLimit>>
    requires about { HasTarget model.now about }
    requires path { FitsPath (symbols model.now.signature) path.now }
    requires answered { answered.now ≡ with_fresh model.now.signature path.now }
    ensures precondition { IfOk result
        (λ c. form c.formula
        ≡ precondition_of (symbols answered.now) (premises_of premises model.now.axioms) (target_of model.now about)
        (written (symbols model.now.signature) (length model.now.signature.relations) path.now)) }
    ensures within { OnOk result
        (passes_limit (symbols answered.now) (premises_of premises model.now.axioms) (target_of model.now about)
        (written (symbols model.now.signature) (length model.now.signature.relations) path.now) ≡ false) }
    ensures limit { IfErr result
        (Because (λ _. IsTrue
        (passes_limit (symbols answered.now) (premises_of premises model.now.axioms) (target_of model.now about)
        (written (symbols model.now.signature) (length model.now.signature.relations) path.now)))) }
{
    fol_subst::exactness();
    fol_formula::indices();
    fol_formula::growth();
    rml_command::fresh_law();
    let signature = model.signature();
    let _ = signature.sorts();
    let target = target(alloc, model, about)?;
    let mut now = match Counted::of(target) {
        Ok(counted) => counted,
        Err(refused) => return Err(refused),
    };
    let mut fresh = answered.relation_count();
    let mut before = path.primitives();
    while let Some(primitive) = before.next_back() {
        fresh = fresh_before(primitive, fresh);
        now = match step_back(alloc, model, premises, answered, primitive, fresh, now) {
            Ok(counted) => counted,
            Err(refused) => return Err(refused),
        };
    }
    Ok(now)
}

/// The number of the first fresh relation from this primitive on, by that of those behind it: they are numbered along
/// the path.
pub fn fresh_before(primitive: &Primitive, behind: u32) -> u32
    requires { relation_havocs (primitive_view primitive.now ∷ []) ≤ behind }
    ensures { result + relation_havocs (primitive_view primitive.now ∷ []) ≡ behind }
{
    match primitive {
        Primitive::HavocRel(_) => behind - 1,
        _ => behind,
    }
}

fn target(alloc: Global, model: &Model, about: About) -> Mem<Formula>
    requires { HasTarget model.now about }
    ensures { IfOk result (λ f. form f ≡ target_of model.now about) }
{
    match about {
        About::Abort => Ok(Formula::True),
        About::Conjecture(k) => {
            let f = model.conjectures()[k as usize].formula().copy(alloc)?;
            Ok(f)
        }
    }
}

fn step_back(
    alloc: Global,
    model: &Model,
    premises: Premises,
    answered: &Signature,
    primitive: &Primitive,
    fresh: u32,
    rest: Counted,
) -> Result<Counted, Refused<FormulaLimit>>
    requires primitive { FitsStep (symbols answered.now)
        (written_step (symbols model.now.signature) fresh (primitive_view primitive.now)) }
    requires relation { FitsPrimitive (symbols model.now.signature) (primitive_view primitive.now) }
    requires axioms { AllByRecursion (FitsForm (symbols answered.now) []) model.now.axioms }
    requires rest { FitsForm (symbols answered.now) [] (form rest.formula) }
    ensures back { IfOk result
        (λ c. form c.formula
        ≡ back_by (symbols model.now.signature) (symbols answered.now) (premises_of premises model.now.axioms) fresh
        (primitive_view primitive.now) (form rest.formula)) }
    ensures limit { IfErr result
        (Because (λ _. IsTrue
        (is_too_large
        (back_by (symbols model.now.signature) (symbols answered.now) (premises_of premises model.now.axioms) fresh
        (primitive_view primitive.now) (form rest.formula))))) }
{
    match primitive {
        Primitive::Assume(sentence) => {
            let assumed = sentence.formula().copy(alloc)?;
            let counted = under(alloc, assumed, rest)?;
            Ok(counted)
        }
        Primitive::SetRel(rel, by) => before_set_rel(
            alloc, model, premises, answered, *rel, by, rest,
        ),
        Primitive::SetFun(fun, by) => before_set_fun(
            alloc, model, premises, answered, *fun, by, rest,
        ),
        Primitive::Havoc(variable) => {
            before_havoc(alloc, model, premises, answered, *variable, rest.formula)
        }
        Primitive::HavocRel(rel) => {
            let count = model.signature().sorts_of(*rel).len() as u32;
            let by = at_parameters(alloc, RelId(fresh), count)?;
            before_set_rel(alloc, model, premises, answered, *rel, &by, rest)
        }
        Primitive::Abort => Counted::of(Formula::False),
    }
}

/// A relation at so many parameters in order, the last one 0.
pub fn at_parameters(alloc: Global, rel: RelId, count: u32) -> Mem<Formula>
    requires { count ≤ 8 }
    ensures { IfOk result (λ f. form f ≡ at_parameters_of rel.0 count) }
{
    fol_formula::lists();
    let mut args = Vec::with_capacity(alloc, count as usize)?;
    let mut left = count;
    while left > 0 {
        left -= 1;
        args.push(parameter(left))?;
    }
    Ok(Formula::Rel(rel, args))
}

fn parameter(index: u32) -> Term
    ensures { term result ≡ bound index }
{
    Term::Bound(index)
}

// The rest under one more premise. It is not counted again.
fn under(alloc: Global, premise: Formula, rest: Counted) -> Result<Counted, Refused<FormulaLimit>>
    ensures back { IfOk result (λ c. form c.formula ≡ implication (form premise) (form rest.formula)) }
    ensures limit { IfErr result
        (Because (λ _. IsTrue (is_too_large (implication (form premise) (form rest.formula))))) }
{
    let nodes = premise.nodes().saturating_add(rest.nodes).saturating_add(1);
    let depth = premise.depth().max(rest.depth).saturating_add(1);
    let implication = implies(alloc, premise, rest.formula)?;
    let counted = Counted::new(implication, nodes, depth)?;
    Ok(counted)
}

// Where the relation is set to itself, the rest is not walked.
fn before_set_rel(
    alloc: Global,
    model: &Model,
    premises: Premises,
    answered: &Signature,
    rel: RelId,
    by: &Formula,
    rest: Counted,
) -> Result<Counted, Refused<FormulaLimit>>
    requires primitive { FitsStep (symbols answered.now) (set_rel rel.0 (form by.now)) }
    requires axioms { AllByRecursion (FitsForm (symbols answered.now) []) model.now.axioms }
    requires rest { FitsForm (symbols answered.now) [] (form rest.formula) }
    ensures back { IfOk result
        (λ c. form c.formula
        ≡ changed_form (change_rel rel.0 (form by.now)) 0
        (where_lawful_of (premises_at premises model.now.axioms (the_rel rel.0)) (form rest.formula))) }
    ensures limit { IfErr result
        (Because (λ _. IsTrue
        (is_too_large
        (changed_form (change_rel rel.0 (form by.now)) 0
        (where_lawful_of (premises_at premises model.now.axioms (the_rel rel.0)) (form rest.formula)))))) }
{
    fol_subst::conditions();
    fol_subst::own_values();
    let axioms = model.axioms();
    let lawful = premises.lawful(alloc, axioms, Symbol::Relation(rel))?;
    if is_own_rel(rel, by) {
        let unchanged = under(alloc, lawful, rest)?;
        return Ok(unchanged);
    }
    let within = implies(alloc, lawful, rest.formula)?;
    let replaced = replace_rel(alloc, within, rel, by)?;
    Ok(replaced)
}

// Where the function is set to itself, the rest is not walked.
fn before_set_fun(
    alloc: Global,
    model: &Model,
    premises: Premises,
    answered: &Signature,
    fun: FunId,
    by: &Term,
    rest: Counted,
) -> Result<Counted, Refused<FormulaLimit>>
    requires primitive { FitsStep (symbols answered.now) (set_fun fun.0 (term by.now)) }
    requires axioms { AllByRecursion (FitsForm (symbols answered.now) []) model.now.axioms }
    requires rest { FitsForm (symbols answered.now) [] (form rest.formula) }
    ensures back { IfOk result
        (λ c. form c.formula
        ≡ changed_form (change_fun fun.0 (term by.now)) 0
        (where_lawful_of (premises_at premises model.now.axioms (the_fun fun.0)) (form rest.formula))) }
    ensures limit { IfErr result
        (Because (λ _. IsTrue
        (is_too_large
        (changed_form (change_fun fun.0 (term by.now)) 0
        (where_lawful_of (premises_at premises model.now.axioms (the_fun fun.0)) (form rest.formula)))))) }
{
    fol_subst::conditions();
    fol_subst::own_values();
    let axioms = model.axioms();
    let lawful = premises.lawful(alloc, axioms, Symbol::Function(fun))?;
    if is_own_fun(fun, by) {
        let unchanged = under(alloc, lawful, rest)?;
        return Ok(unchanged);
    }
    let within = implies(alloc, lawful, rest.formula)?;
    let replaced = replace_fun(alloc, within, fun, by)?;
    Ok(replaced)
}

fn before_havoc(
    alloc: Global,
    model: &Model,
    premises: Premises,
    answered: &Signature,
    variable: FunId,
    rest: Formula,
) -> Result<Counted, Refused<FormulaLimit>>
    requires primitive { FitsStep (symbols answered.now) (havoc variable.0) }
    requires axioms { AllByRecursion (FitsForm (symbols answered.now) []) model.now.axioms }
    requires rest { FitsForm (symbols answered.now) [] (form rest) }
    ensures back { IfOk result
        (λ c. form c.formula
        ≡ back_of (symbols answered.now) (premises_at premises model.now.axioms (the_fun variable.0))
        (havoc variable.0) (form rest)) }
    ensures limit { IfErr result
        (Because (λ _. IsTrue
        (is_too_large (back_of (symbols answered.now) (premises_at premises model.now.axioms
        (the_fun variable.0))
        (havoc variable.0) (form rest))))) }
{
    fol_subst::conditions();
    fol_formula::indices();
    let axioms = model.axioms();
    let lawful = premises.lawful(alloc, axioms, Symbol::Function(variable))?;
    let within = implies(alloc, lawful, rest)?;
    let replaced = replace_const(alloc, within, variable, 0)?;
    let nodes = replaced.nodes.saturating_add(1);
    let depth = replaced.depth.saturating_add(1);
    let all = for_each(alloc, answered.into_of(variable), replaced.formula)?;
    let counted = Counted::new(all, nodes, depth)?;
    Ok(counted)
}

fn for_each(alloc: Global, sort: Sort, body: Formula) -> Mem<Formula>
    ensures { IfOk result (λ f. form f ≡ for_all sort.0 (form body)) }
{
    Ok(Formula::Forall(sort, Box::new(alloc, body)?))
}

fn implies(alloc: Global, p: Formula, q: Formula) -> Mem<Formula>
    ensures { IfOk result (λ f. form f ≡ implication (form p) (form q)) }
{
    let p = Box::new(alloc, p)?;
    Ok(Formula::Implies(p, Box::new(alloc, q)?))
}
