// Sentences that bound of how many tuples a relation is true.
ghost use Rattle.std.specs.Prelude.{◌≡◌, ◌+◌, ◌<◌, ◌≤◌, ◌^◌, length, map, IfOk, OnOk};
ghost use Rattle.fol_formula.specs.Syntax.{conjunction, for_all, for_some, forms_then};
ghost use Rattle.fol_sig.specs.Tables.{numbers};
ghost use Rattle.fol_sig.specs.Symbols.{symbols};
ghost use Rattle.fol_formula.specs.View.{form, forms, terms};
ghost use Rattle.fol_formula.specs.Fits.{BoundForm};
ghost use Rattle.cti_minimise.specs.TupleBounds.{for_each, for_some_each, for_some_tuples, variables};
ghost use Rattle.cti_minimise.specs.TupleBounds.{tuple_equations, tuple_choices, is_one, tuple_bound};

use base::Mem;
use fol_formula::{Formula, Sentence, Term};
use fol_sig::{RelId, Signature, Sort};
use std::alloc::Global;

/// The relation is true of at most so many tuples: a constant for each of their elements.
pub fn tuple_bound(alloc: Global, signature: &Signature, rel: RelId, most: u32) -> Mem<Sentence>
    requires rel { rel.0 < length signature.now.relations }
    requires few { most < 2 ^ 28 }
    ensures { IfOk result (λ s. s ≡ tuple_bound rel.0 ((symbols signature.now).sorts_of rel.0) most) }
{
    fol_formula::indices();
    let _sorts = signature.sorts();
    let sorts = signature.sorts_of(rel);
    let one = is_one(alloc, rel, sorts.len() as u32, most)?;
    let each = for_each(alloc, sorts, one)?;
    let formula = for_some_tuples(alloc, most, sorts, each)?;
    Ok(Sentence::of(formula))
}

// The relation is false of the tuple that is bound last, or that is one of the tuples bound before.
fn is_one(alloc: Global, rel: RelId, arity: u32, most: u32) -> Mem<Formula>
    requires few { most < 2 ^ 28 }
    requires short { arity ≤ 8 }
    ensures { IfOk result (λ f. form f ≡ is_one rel.0 arity most) }
{
    fol_formula::lists();
    let tuple = Formula::Rel(rel, variables(alloc, arity)?);
    let mut parts = vec![in alloc; Formula::Not(Box::new(alloc, tuple)?)]?;
    push_choices(alloc, &mut parts, arity, most)?;
    Ok(Formula::Or(parts))
}

// The variables that are bound last.
fn variables(alloc: Global, arity: u32) -> Mem<Vec<Term>>
    ensures { IfOk result (λ ts. terms ts.items ≡ variables 0 arity) }
{
    fol_formula::lists();
    let mut all = Vec::new(alloc);
    let mut left = arity;
    while left > 0 {
        left -= 1;
        all.push(Term::Bound(left))?;
    }
    Ok(all)
}

// Pushes that the tuple that is bound last is one of the tuples before, the outermost first.
fn push_choices(alloc: Global, parts: &mut Vec<Formula>, arity: u32, most: u32) -> Mem<()>
    requires few { most < 2 ^ 28 }
    requires short { arity ≤ 8 }
    ensures { OnOk result (forms parts.new.items ≡ forms_then (map form parts.old.items) (tuple_choices arity most)) }
{
    fol_formula::lists();
    let mut left = most;
    while left > 0 {
        parts.push(same_tuple(alloc, arity, left * arity)?)?;
        left -= 1;
    }
    Ok(())
}

// That the tuple that is bound last is the one behind which so many others are bound.
fn same_tuple(alloc: Global, arity: u32, behind: u32) -> Mem<Formula>
    requires { behind + arity < 2 ^ 32 }
    ensures { IfOk result (λ f. form f ≡ conjunction (tuple_equations behind arity)) }
{
    let equations = equations(alloc, arity, behind)?;
    Ok(Formula::And(equations))
}

// The equations of the variables that are bound last with those behind which so many others are bound.
fn equations(alloc: Global, arity: u32, behind: u32) -> Mem<Vec<Formula>>
    requires { behind + arity < 2 ^ 32 }
    ensures { IfOk result (λ ps. forms ps.items ≡ tuple_equations behind arity) }
{
    fol_formula::lists();
    let mut all = Vec::new(alloc);
    let mut left = arity;
    while left > 0 {
        left -= 1;
        all.push(Formula::Eq(Term::Bound(left), Term::Bound(behind + left)))?;
    }
    Ok(all)
}

// The formula under a universal quantifier.
fn for_all(alloc: Global, sort: Sort, body: Formula) -> Mem<Formula>
    ensures { IfOk result (λ f. form f ≡ for_all sort.0 (form body)) }
{
    let body = Box::new(alloc, body)?;
    Ok(Formula::Forall(sort, body))
}

// The formula under an existential quantifier.
fn for_some(alloc: Global, sort: Sort, body: Formula) -> Mem<Formula>
    ensures { IfOk result (λ f. form f ≡ for_some sort.0 (form body)) }
{
    let body = Box::new(alloc, body)?;
    Ok(Formula::Exists(sort, body))
}

// The formula under a universal quantifier for each of these sorts.
fn for_each(alloc: Global, sorts: &[Sort], body: Formula) -> Mem<Formula>
    ensures { IfOk result (λ f. form f ≡ for_each (numbers sorts.now) (form body)) }
{
    let mut formula = body;
    let mut left = sorts.len();
    while left > 0 {
        left -= 1;
        formula = for_all(alloc, sorts[left], formula)?;
    }
    Ok(formula)
}

// The formula under an existential quantifier for each of these sorts.
fn for_some_each(alloc: Global, sorts: &[Sort], body: Formula) -> Mem<Formula>
    ensures { IfOk result (λ f. form f ≡ for_some_each (numbers sorts.now) (form body)) }
{
    let mut formula = body;
    let mut left = sorts.len();
    while left > 0 {
        left -= 1;
        formula = for_some(alloc, sorts[left], formula)?;
    }
    Ok(formula)
}

// The formula under so many times these existential quantifiers.
fn for_some_tuples(alloc: Global, count: u32, sorts: &[Sort], body: Formula) -> Mem<Formula>
    ensures { IfOk result (λ f. form f ≡ for_some_tuples count (numbers sorts.now) (form body)) }
{
    let mut formula = body;
    for _i in 0..count {
        formula = for_some_each(alloc, sorts, formula)?;
    }
    Ok(formula)
}
