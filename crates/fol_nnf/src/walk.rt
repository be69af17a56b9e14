// Along the formula: negations are pushed down to the atoms, and each atom becomes the Or over its
// leaves. An atom without `Ite` has one leaf and is copied.
//
// A function clears, at each entry, room for what each of its `?` hands on. Most formulas on the walk are plain atoms,
// negations and rows, so what others need is kept out of line, here and in `join`: formulas with two sides, and the
// leaves of the few atoms that have an `Ite`.
ghost use Rattle.std.specs.Prelude.{◌≡◌, IfOk, map};
ghost use Rattle.fol_formula.specs.View.{form, forms, term as term_view, terms as terms_view};
ghost use Rattle.fol_formula.specs.NormalForms.{both};
ghost use Rattle.fol_nnf.specs.Normal.{constant, gathered, quantified, two, normal, normals, leaves, leaves_of_terms};
ghost use Rattle.fol_nnf.specs.Normal.{made, one_of, relation_literal};
ghost use Rattle.fol_formula.specs.Fragments.{IsNormalForm};
ghost use Rattle.fol_nnf.specs.Atoms.{IsAtom, HasTwoSides};
ghost use Rattle.fol_nnf.specs.Leaves.{term_leaf, terms_leaf};

use crate::join::{applications, joined_equations, joined_terms, one_of, push_given, relations};
use crate::leaf::{TermLeaf, TermsLeaf, literal};
use base::Mem;
use fol_formula::{Formula, Term};
use fol_sig::{RelId, Sort};
use std::alloc::Global;

fn constant(positive: bool) -> Formula
    ensures { form result ≡ constant positive }
{
    if positive {
        Formula::True
    } else {
        Formula::False
    }
}

fn gathered(positive: bool, parts: Vec<Formula>) -> Formula
    ensures { form result ≡ gathered positive (forms parts.items) }
{
    if positive {
        Formula::And(parts)
    } else {
        Formula::Or(parts)
    }
}

fn quantified(alloc: Global, positive: bool, sort: Sort, body: Formula) -> Mem<Formula>
    ensures { IfOk result (λ f. form f ≡ quantified positive sort.0 (form body)) }
{
    let body = Box::new(alloc, body)?;
    Ok(if positive {
        Formula::Forall(sort, body)
    } else {
        Formula::Exists(sort, body)
    })
}

fn two(alloc: Global, p: Formula, q: Formula) -> Mem<Vec<Formula>>
    ensures { IfOk result (λ ps. forms ps.items ≡ two (form p) (form q)) }
{
    let mut all = Vec::new(alloc);
    all.push(p)?;
    all.push(q)?;
    Ok(all)
}

fn both(alloc: Global, p: Formula, q: Formula) -> Mem<Formula>
    ensures { IfOk result (λ f. form f ≡ both (form p) (form q)) }
{
    let parts = two(alloc, p, q)?;
    Ok(Formula::And(parts))
}

// A copy of an atom without `Ite`, or its negation.
#[tactic(auto, using(crate::proofs::Plain::plain_stays))]
fn plain_literal(alloc: Global, positive: bool, atom: &Formula) -> Mem<Formula>
    requires normal { IsNormalForm (form atom.now) }
    requires atom { IsAtom (form atom.now) }
    ensures { IfOk result (λ f. form f ≡ normal positive (form atom.now)) }
{
    let copy = atom.copy(alloc)?;
    let formula = literal(alloc, positive, copy)?;
    Ok(formula)
}

// The Or over the leaves of a relation's arguments.
#[inline(never)]
fn relation_of(alloc: Global, positive: bool, rel: RelId, leaves: Vec<TermsLeaf>) -> Mem<Formula>
    ensures { IfOk result
        (λ f. form f ≡ one_of (map (made (relation_literal positive rel.0)) (map terms_leaf leaves.items))) }
{
    let literals = relations(alloc, positive, rel, leaves)?;
    let formula = one_of(alloc, literals)?;
    Ok(formula)
}

/// The normal form of a formula, or of its negation.
#[cycle(normal)]
pub fn normal_formula(alloc: Global, p: &Formula, positive: bool) -> Mem<Formula>
    ensures { IfOk result (λ f. form f ≡ normal positive (form p.now)) }
{
    match p {
        Formula::True => Ok(constant(positive)),
        Formula::False => Ok(constant(!positive)),
        Formula::Rel(r, args) => {
            if p.is_normal_form() {
                return plain_literal(alloc, positive, p);
            }
            let leaves = leaves_of_all(alloc, args)?;
            relation_of(alloc, positive, *r, leaves)
        }
        Formula::Eq(_, _) => {
            if p.is_normal_form() {
                return plain_literal(alloc, positive, p);
            }
            normal_sides(alloc, p, positive)
        }
        Formula::Not(p) => normal_formula(alloc, p, !positive),
        Formula::And(ps) => {
            let parts = normal_formulas(alloc, ps, positive)?;
            Ok(gathered(positive, parts))
        }
        Formula::Or(ps) => {
            let parts = normal_formulas(alloc, ps, positive)?;
            Ok(gathered(!positive, parts))
        }
        Formula::Implies(_, _) => normal_sides(alloc, p, positive),
        Formula::Iff(_, _) => normal_sides(alloc, p, positive),
        Formula::Forall(k, p) => {
            let body = normal_formula(alloc, p, positive)?;
            quantified(alloc, positive, *k, body)
        }
        Formula::Exists(k, p) => {
            let body = normal_formula(alloc, p, positive)?;
            quantified(alloc, !positive, *k, body)
        }
    }
}

// The same of a formula with two sides.
#[cycle(normal)]
#[inline(never)]
fn normal_sides(alloc: Global, p: &Formula, positive: bool) -> Mem<Formula>
    requires { HasTwoSides (form p.now) }
    ensures { IfOk result (λ f. form f ≡ normal positive (form p.now)) }
{
    match p {
        Formula::Eq(a, b) => {
            let a = leaves_of(alloc, a)?;
            let b = leaves_of(alloc, b)?;
            let literals = joined_equations(alloc, positive, &a, &b)?;
            let formula = one_of(alloc, literals)?;
            Ok(formula)
        }
        Formula::Implies(p, q) => {
            let p = normal_formula(alloc, p, !positive)?;
            let q = normal_formula(alloc, q, positive)?;
            let parts = two(alloc, p, q)?;
            Ok(gathered(!positive, parts))
        }
        Formula::Iff(p, q) => {
            let first = normal_formula(alloc, p, true)?;
            let second = normal_formula(alloc, q, positive)?;
            let left = both(alloc, first, second)?;
            let first = normal_formula(alloc, p, false)?;
            let second = normal_formula(alloc, q, !positive)?;
            let right = both(alloc, first, second)?;
            let parts = two(alloc, left, right)?;
            Ok(Formula::Or(parts))
        }
        _ => unreachable!(),
    }
}

#[cycle(normal)]
fn normal_formulas(alloc: Global, ps: &[Formula], positive: bool) -> Mem<Vec<Formula>>
    ensures { IfOk result (λ fs. forms fs.items ≡ normals positive (forms ps.now)) }
{
    fol_formula::lists();
    let mut all = Vec::with_capacity(alloc, ps.len())?;
    for p in ps {
        all.push(normal_formula(alloc, p, positive)?)?;
    }
    Ok(all)
}

#[cycle(normal)]
#[inline(never)]
fn leaves_of(alloc: Global, t: &Term) -> Mem<Vec<TermLeaf>>
    ensures { IfOk result (λ ls. map term_leaf ls.items ≡ leaves (term_view t.now)) }
{
    match t {
        Term::Bound(i) => {
            let mut all = Vec::new(alloc);
            all.push(TermLeaf {
                conditions: Vec::new(alloc),
                term: Term::Bound(*i),
            })?;
            Ok(all)
        }
        Term::App(f, args) => {
            let leaves = leaves_of_all(alloc, args)?;
            let all = applications(alloc, *f, leaves)?;
            Ok(all)
        }
        Term::Ite(p, a, b) => {
            let mut all = Vec::new(alloc);
            let condition = normal_formula(alloc, p, true)?;
            let leaves = leaves_of(alloc, a)?;
            push_given(alloc, &condition, leaves, &mut all)?;
            let condition = normal_formula(alloc, p, false)?;
            let leaves = leaves_of(alloc, b)?;
            push_given(alloc, &condition, leaves, &mut all)?;
            Ok(all)
        }
    }
}

// From the last argument on.
#[cycle(normal)]
#[inline(never)]
fn leaves_of_all(alloc: Global, ts: &[Term]) -> Mem<Vec<TermsLeaf>>
    ensures { IfOk result (λ ls. map terms_leaf ls.items ≡ leaves_of_terms (terms_view ts.now)) }
{
    let mut all = Vec::new(alloc);
    all.push(TermsLeaf {
        conditions: Vec::new(alloc),
        terms: Vec::new(alloc),
    })?;
    let mut left = ts.len();
    while left > 0 {
        left -= 1;
        let first = leaves_of(alloc, &ts[left])?;
        all = joined_terms(alloc, &first, &all)?;
    }
    Ok(all)
}
