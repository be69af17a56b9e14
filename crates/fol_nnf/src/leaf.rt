// The leaves of a term: what it may be, and under which conditions. Where `Ite` stands inside a term it
// is not one value but a choice, and each way through the choices is a leaf.
ghost use Rattle.std.specs.Prelude.{◌≡◌, ◌++◌, map, IfOk, OnOk};
ghost use Rattle.fol_formula.specs.Syntax.{term_then};
ghost use Rattle.fol_formula.specs.View.{form, term as term_view, terms as terms_view};
ghost use Rattle.fol_nnf.specs.Normal.{behind, equal_literal, literal};
ghost use Rattle.fol_nnf.specs.Leaves.{term_leaf, terms_leaf, atom_leaf};

use base::Mem;
use fol_formula::{Formula, Term, copy_formulas, copy_terms};
use std::alloc::Global;

/// What a term may be.
#[derive(Drop)]
pub struct TermLeaf {
    /// In normal form, the outermost first; where all hold the term has the value of this leaf.
    pub conditions: Vec<Formula>,
    pub term: Term,
}

/// What the arguments of a symbol may be.
#[derive(Drop)]
pub struct TermsLeaf {
    pub conditions: Vec<Formula>,
    pub terms: Vec<Term>,
}

/// What an atom, or its negation, may be.
#[derive(Drop)]
pub struct AtomLeaf {
    pub conditions: Vec<Formula>,
    pub literal: Formula,
}

/// The atom or its negation.
pub fn literal(alloc: Global, positive: bool, atom: Formula) -> Mem<Formula>
    ensures { IfOk result (λ f. form f ≡ literal positive (form atom)) }
{
    if positive {
        Ok(atom)
    } else {
        Ok(Formula::Not(Box::new(alloc, atom)?))
    }
}

fn both_conditions(alloc: Global, first: &[Formula], second: &[Formula]) -> Mem<Vec<Formula>>
    ensures { IfOk result (λ all. map form all.items ≡ map form first.now ++ map form second.now) }
{
    let mut all = copy_formulas(alloc, first)?;
    let mut more = copy_formulas(alloc, second)?;
    all.append(&mut more)?;
    Ok(all)
}

// A term before others.
fn term_before(alloc: Global, first: &Term, rest: &[Term]) -> Mem<Vec<Term>>
    ensures { IfOk result (λ all. terms_view all.items ≡ term_then (term_view first.now) (terms_view rest.now)) }
{
    let mut all = Vec::with_capacity(alloc, rest.len() + 1)?;
    all.push(first.copy(alloc)?)?;
    let mut more = copy_terms(alloc, rest)?;
    all.append(&mut more)?;
    Ok(all)
}

/// An argument before others.
pub fn before_terms(alloc: Global, first: &TermLeaf, rest: &TermsLeaf) -> Mem<TermsLeaf>
    ensures { IfOk result (λ l. terms_leaf l ≡ behind term_then (term_leaf first.now) (terms_leaf rest.now)) }
{
    let conditions = both_conditions(alloc, &first.conditions, &rest.conditions)?;
    let terms = term_before(alloc, &first.term, &rest.terms)?;
    Ok(TermsLeaf { conditions, terms })
}

/// The equation of two terms, or its negation.
pub fn equation(alloc: Global, positive: bool, a: &TermLeaf, b: &TermLeaf) -> Mem<AtomLeaf>
    ensures { IfOk result (λ l. atom_leaf l ≡ behind (equal_literal positive) (term_leaf a.now) (term_leaf b.now)) }
{
    let conditions = both_conditions(alloc, &a.conditions, &b.conditions)?;
    let left = a.term.copy(alloc)?;
    let right = b.term.copy(alloc)?;
    let literal = literal(alloc, positive, Formula::Eq(left, right))?;
    Ok(AtomLeaf {
        conditions,
        literal,
    })
}
