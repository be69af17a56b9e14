// Leaves are put together: those of the arguments to leaves of an application or an atom, and those of
// an atom to one formula.
ghost use Rattle.std.specs.Prelude.{◌≡◌, ◌++◌, map, IfOk, OnOk};
ghost use Rattle.fol_formula.specs.Syntax.{term_then, app};
ghost use Rattle.fol_formula.specs.View.{form};
ghost use Rattle.fol_nnf.specs.Normal.{behind, joined, given, made, one_of, leaf_form, any_of, relation_literal};
ghost use Rattle.fol_nnf.specs.Normal.{equal_literal};
ghost use Rattle.fol_nnf.specs.Leaves.{term_leaf, terms_leaf, atom_leaf};

use crate::leaf::{AtomLeaf, TermLeaf, TermsLeaf, before_terms, equation, literal};
use base::Mem;
use fol_formula::{Formula, Term};
use fol_sig::{FunId, RelId};
use std::alloc::Global;

// Pushes the leaf of an argument before each of the leaves of those behind it.
fn push_terms_behind(
    alloc: Global,
    first: &TermLeaf,
    rest: &[TermsLeaf],
    all: &mut Vec<TermsLeaf>,
) -> Mem<()>
    ensures { OnOk result (map terms_leaf all.new.items ≡ map terms_leaf all.old.items
        ++ map (behind term_then (term_leaf first.now)) (map terms_leaf rest.now)) }
{
    for other in rest {
        all.push(before_terms(alloc, first, other)?)?;
    }
    Ok(())
}

/// Each leaf of an argument before each of the others.
pub fn joined_terms(alloc: Global, first: &[TermLeaf], rest: &[TermsLeaf]) -> Mem<Vec<TermsLeaf>>
    ensures { IfOk result
        (λ ls. map terms_leaf ls.items ≡ joined term_then (map term_leaf first.now) (map terms_leaf rest.now)) }
{
    let mut all = Vec::new(alloc);
    for leaf in first {
        push_terms_behind(alloc, leaf, rest, &mut all)?;
    }
    Ok(all)
}

// Pushes the equation of the leaf of a term with each of another.
fn push_equations(
    alloc: Global,
    positive: bool,
    a: &TermLeaf,
    others: &[TermLeaf],
    all: &mut Vec<AtomLeaf>,
) -> Mem<()>
    ensures { OnOk result (map atom_leaf all.new.items ≡ map atom_leaf all.old.items
        ++ map (behind (equal_literal positive) (term_leaf a.now)) (map term_leaf others.now)) }
{
    for b in others {
        all.push(equation(alloc, positive, a, b)?)?;
    }
    Ok(())
}

/// The equation of each leaf of a term with each of another.
#[inline(never)]
pub fn joined_equations(
    alloc: Global,
    positive: bool,
    first: &[TermLeaf],
    second: &[TermLeaf],
) -> Mem<Vec<AtomLeaf>>
    ensures { IfOk result
        (λ ls. map atom_leaf ls.items ≡ joined (equal_literal positive) (map term_leaf first.now)
        (map term_leaf second.now)) }
{
    let mut all = Vec::new(alloc);
    for leaf in first {
        push_equations(alloc, positive, leaf, second, &mut all)?;
    }
    Ok(all)
}

/// The relation of each leaf of its arguments, or its negation.
#[inline(never)]
pub fn relations(
    alloc: Global,
    positive: bool,
    rel: RelId,
    leaves: Vec<TermsLeaf>,
) -> Mem<Vec<AtomLeaf>>
    ensures { IfOk result
        (λ ls. map atom_leaf ls.items ≡ map (made (relation_literal positive rel.0)) (map terms_leaf leaves.items)) }
{
    let mut all = Vec::new(alloc);
    let mut rest = leaves.into_iter();
    while let Some(leaf) = rest.next() {
        let TermsLeaf { conditions, terms } = leaf;
        let literal = literal(alloc, positive, Formula::Rel(rel, terms))?;
        all.push(AtomLeaf {
            conditions,
            literal,
        })?;
    }
    Ok(all)
}

/// The function of each leaf of its arguments.
pub fn applications(alloc: Global, fun: FunId, leaves: Vec<TermsLeaf>) -> Mem<Vec<TermLeaf>>
    ensures { IfOk result (λ ls. map term_leaf ls.items ≡ map (made (app fun.0)) (map terms_leaf leaves.items)) }
{
    let mut all = Vec::new(alloc);
    let mut rest = leaves.into_iter();
    while let Some(leaf) = rest.next() {
        let TermsLeaf { conditions, terms } = leaf;
        all.push(TermLeaf {
            conditions,
            term: Term::App(fun, terms),
        })?;
    }
    Ok(all)
}

/// Adds the leaves under one more condition.
pub fn push_given(
    alloc: Global,
    condition: &Formula,
    leaves: Vec<TermLeaf>,
    all: &mut Vec<TermLeaf>,
) -> Mem<()>
    ensures { OnOk result (map term_leaf all.new.items ≡ map term_leaf all.old.items
        ++ map (given (form condition.now)) (map term_leaf leaves.items)) }
{
    let mut rest = leaves.into_iter();
    while let Some(leaf) = rest.next() {
        let TermLeaf { conditions, term } = leaf;
        let mut more = conditions;
        more.insert(0, condition.copy(alloc)?)?;
        all.push(TermLeaf {
            conditions: more,
            term,
        })?;
    }
    Ok(())
}

// The conditions, and the literal.
fn conjunction_of(leaf: AtomLeaf) -> Mem<Formula>
    ensures { IfOk result (λ f. form f ≡ leaf_form (atom_leaf leaf)) }
{
    let AtomLeaf {
        conditions,
        literal,
    } = leaf;
    let mut parts = conditions;
    parts.push(literal)?;
    Ok(Formula::And(parts))
}

// One And for each leaf.
fn any_of(alloc: Global, leaves: Vec<AtomLeaf>) -> Mem<Formula>
    ensures { IfOk result (λ f. form f ≡ any_of (map atom_leaf leaves.items)) }
{
    let mut parts = Vec::new(alloc);
    let mut rest = leaves.into_iter();
    while let Some(leaf) = rest.next() {
        parts.push(conjunction_of(leaf)?)?;
    }
    Ok(Formula::Or(parts))
}

/// The Or over the leaves. A literal without `Ite` stays.
#[inline(never)]
pub fn one_of(alloc: Global, leaves: Vec<AtomLeaf>) -> Mem<Formula>
    ensures { IfOk result (λ f. form f ≡ one_of (map atom_leaf leaves.items)) }
{
    if leaves.len() == 1 && leaves[0].conditions.is_empty() {
        let mut leaves = leaves;
        match leaves.pop() {
            Some(leaf) => {
                let AtomLeaf {
                    conditions: _,
                    literal,
                } = leaf;
                Ok(literal)
            }
            None => unreachable!(),
        }
    } else {
        any_of(alloc, leaves)
    }
}
