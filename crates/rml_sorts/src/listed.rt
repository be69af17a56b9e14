// The axiom of a sort whose elements are listed: no two names are one element, and each element has a name.
ghost use Rattle.std.specs.Prelude.{◌≡◌, ◌+◌, ◌-◌, ◌<◌, ◌≤◌, ◌++◌, map, IfOk, OnOk};
ghost use Rattle.base.specs.Lists.{count_from};
ghost use Rattle.fol_formula.specs.Syntax.{negation, equal, bound};
ghost use Rattle.fol_formula.specs.View.{form, term as term_view};
ghost use Rattle.rml_sorts.specs.Listed.{constant as constant_of, apart, apart_from, all_apart, is_one_of};
ghost use Rattle.rml_sorts.specs.Listed.{listed_axiom as axiom_of};

use base::Mem;
use fol_formula::{Formula, Term};
use fol_sig::{FunId, Sort};
use std::alloc::Global;

// A name as a term.
fn constant(alloc: Global, fun: u32) -> Term
    ensures { term_view result ≡ constant_of fun }
{
    Term::App(FunId(fun), Vec::new(alloc))
}

// The two names are not one element.
fn different(alloc: Global, first: u32, second: u32) -> Mem<Formula>
    ensures { IfOk result (λ p. form p ≡ apart first second) }
{
    let same = Formula::Eq(constant(alloc, first), constant(alloc, second));
    let same = Box::new(alloc, same)?;
    Ok(Formula::Not(same))
}

// The name is none of those from `from` to `end`.
fn push_apart(alloc: Global, parts: &mut Vec<Formula>, name: u32, from: u32, end: u32) -> Mem<()>
    requires { from ≤ end }
    ensures { OnOk result (map form parts.new.items
        ≡ map form parts.old.items ++ apart_from name (count_from from (end - from))) }
{
    for other in from..end {
        let part = different(alloc, name, other)?;
        parts.push(part)?;
    }
    Ok(())
}

// No two of the names from `first` to `end` are one element.
fn all_different(alloc: Global, first: u32, end: u32) -> Mem<Vec<Formula>>
    requires { first ≤ end }
    ensures { IfOk result (λ parts. map form parts.items ≡ all_apart (count_from first (end - first))) }
{
    let mut parts = Vec::new(alloc);
    for name in first..end {
        push_apart(alloc, &mut parts, name, name + 1, end)?;
    }
    Ok(parts)
}

// The bound element is that of the name.
fn is_named(alloc: Global, name: u32) -> Formula
    ensures { form result ≡ equal (bound 0) (constant_of name) }
{
    Formula::Eq(Term::Bound(0), constant(alloc, name))
}

// The bound element is that of one of the names.
fn one_of(alloc: Global, first: u32, end: u32) -> Mem<Vec<Formula>>
    requires { first ≤ end }
    ensures { IfOk result (λ parts. map form parts.items ≡ is_one_of (count_from first (end - first))) }
{
    let mut parts = Vec::new(alloc);
    for name in first..end {
        parts.push(is_named(alloc, name))?;
    }
    Ok(parts)
}

/// What is assumed of a sort whose elements have the names from `first` to `end`.
pub fn listed_axiom(alloc: Global, sort: Sort, first: u32, end: u32) -> Mem<Formula>
    requires { first ≤ end }
    ensures { IfOk result (λ p. form p ≡ axiom_of sort.0 (count_from first (end - first))) }
{
    let mut parts = all_different(alloc, first, end)?;
    let named = Box::new(alloc, Formula::Or(one_of(alloc, first, end)?))?;
    parts.push(Formula::Forall(sort, named))?;
    Ok(Formula::And(parts))
}
