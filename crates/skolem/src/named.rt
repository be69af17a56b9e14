// Indices become what they stand for, below the last existential. Only indices change, so this part of
// a sentence is copied as it stands, and no constant is counted.
ghost use Rattle.std.specs.Prelude.{◌≡◌, ◌∷◌, IfOk};
ghost use Rattle.fol_formula.specs.View.{form, forms, term as term_view, terms as terms_view};
ghost use Rattle.skolem.specs.Constants.{binder, named_form, named_forms, named_term, named_terms};
ghost use Rattle.skolem.specs.Scopes.{slots};

use crate::scope::{Scope, index_term};
use base::Mem;
use fol_formula::{Formula, Term};
use std::alloc::Global;

/// The formula with its indices replaced.
#[cycle(named)]
pub fn named_formula(alloc: Global, p: &Formula, scope: &Scope) -> Mem<Formula>
    ensures { IfOk result (λ f. form f ≡ named_form (slots scope.now) (form p.now)) }
{
    match p {
        Formula::True => Ok(Formula::True),
        Formula::False => Ok(Formula::False),
        Formula::Rel(r, args) => Ok(Formula::Rel(*r, named_terms(alloc, args, scope)?)),
        Formula::Eq(a, b) => {
            let a = named_term(alloc, a, scope)?;
            Ok(Formula::Eq(a, named_term(alloc, b, scope)?))
        }
        Formula::Not(p) => Ok(Formula::Not(named_boxed(alloc, p, scope)?)),
        Formula::And(ps) => Ok(Formula::And(named_formulas(alloc, ps, scope)?)),
        Formula::Or(ps) => Ok(Formula::Or(named_formulas(alloc, ps, scope)?)),
        Formula::Implies(p, q) => {
            let p = named_boxed(alloc, p, scope)?;
            Ok(Formula::Implies(p, named_boxed(alloc, q, scope)?))
        }
        Formula::Iff(p, q) => {
            let p = named_boxed(alloc, p, scope)?;
            Ok(Formula::Iff(p, named_boxed(alloc, q, scope)?))
        }
        Formula::Forall(k, p) => Ok(Formula::Forall(*k, named_inside(alloc, p, scope)?)),
        Formula::Exists(k, p) => Ok(Formula::Exists(*k, named_inside(alloc, p, scope)?)),
    }
}

#[cycle(named)]
fn named_boxed(alloc: Global, p: &Formula, scope: &Scope) -> Mem<Box<Formula>>
    ensures { IfOk result (λ f. form f.value ≡ named_form (slots scope.now) (form p.now)) }
{
    let p = named_formula(alloc, p, scope)?;
    Ok(Box::new(alloc, p)?)
}

// Under one more quantifier that stays.
#[cycle(named)]
fn named_inside(alloc: Global, p: &Formula, scope: &Scope) -> Mem<Box<Formula>>
    ensures { IfOk result (λ f. form f.value ≡ named_form (binder ∷ slots scope.now) (form p.now)) }
{
    let inner = Scope::Binder { outer: &*scope };
    let p = named_formula(alloc, p, &inner)?;
    Ok(Box::new(alloc, p)?)
}

#[cycle(named)]
fn named_formulas(alloc: Global, ps: &[Formula], scope: &Scope) -> Mem<Vec<Formula>>
    ensures { IfOk result (λ fs. forms fs.items ≡ named_forms (slots scope.now) (forms ps.now)) }
{
    fol_formula::lists();
    let mut all = Vec::with_capacity(alloc, ps.len())?;
    for p in ps {
        all.push(named_formula(alloc, p, scope)?)?;
    }
    Ok(all)
}

#[cycle(named)]
fn named_term(alloc: Global, t: &Term, scope: &Scope) -> Mem<Term>
    ensures { IfOk result (λ f. term_view f ≡ named_term (slots scope.now) (term_view t.now)) }
{
    match t {
        Term::Bound(i) => Ok(index_term(alloc, scope, *i)),
        Term::App(f, args) => Ok(Term::App(*f, named_terms(alloc, args, scope)?)),
        Term::Ite(p, a, b) => {
            let p = named_boxed(alloc, p, scope)?;
            let a = named_boxed_term(alloc, a, scope)?;
            Ok(Term::Ite(p, a, named_boxed_term(alloc, b, scope)?))
        }
    }
}

#[cycle(named)]
fn named_boxed_term(alloc: Global, t: &Term, scope: &Scope) -> Mem<Box<Term>>
    ensures { IfOk result (λ f. term_view f.value ≡ named_term (slots scope.now) (term_view t.now)) }
{
    let t = named_term(alloc, t, scope)?;
    Ok(Box::new(alloc, t)?)
}

#[cycle(named)]
fn named_terms(alloc: Global, ts: &[Term], scope: &Scope) -> Mem<Vec<Term>>
    ensures { IfOk result (λ fs. terms_view fs.items ≡ named_terms (slots scope.now) (terms_view ts.now)) }
{
    fol_formula::lists();
    let mut all = Vec::with_capacity(alloc, ts.len())?;
    for t in ts {
        all.push(named_term(alloc, t, scope)?)?;
    }
    Ok(all)
}
