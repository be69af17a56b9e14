// The ground terms and atoms that the terms and atoms of a formula become. None of this takes memory.
ghost use Rattle.std.specs.Prelude.{◌≡◌, ◌<◌, ◌≤◌, Bool, length};
ghost use Rattle.fol_sig.specs.Symbols.{symbols};
ghost use Rattle.fol_sig.specs.Tables.{InRange};
ghost use Rattle.fol_formula.specs.Syntax.{size_of};
ghost use Rattle.fol_formula.specs.Fits.{FitsTerms};
ghost use Rattle.fol_formula.specs.View.{form, term as term_view, terms as terms_view};
ghost use Rattle.ground_terms.specs.Terms.{term_counts};
ghost use Rattle.ground_terms.specs.Universe.{symbols_in, names_in};
ghost use Rattle.ground_terms.specs.Trees.{literal};
ghost use Rattle.ground_expand.specs.Instance.{place_of_term, places_of_terms, sort_of_term, literal_at};
ghost use Rattle.ground_expand.specs.Scopes.{sorts_in, terms_in};
ghost use Rattle.ground_expand.specs.Groundable.{IsGroundableTerm, AreGroundableTerms, IsGroundableAtom};

use crate::scope::{Scope, sort_at, term_at};
use fol_formula::{Formula, Term};
use fol_sig::{FunId, Signature, Sort, Tuple, range_laws};
use ground_terms::{Atom, Herbrand, place_laws};
use std::alloc::Global;

/// The ground atom of a relation or an equation.
pub fn atom(alloc: Global, universe: &Herbrand, p: &Formula, scope: &Scope) -> Atom
    requires in_range { InRange (term_counts universe.now.terms.now) (sorts_in scope.now) (terms_in scope.now) }
    requires known { IsGroundableAtom (symbols_in universe.now) (sorts_in scope.now) (form p.now) }
    ensures { (positive : Bool) → literal result positive ≡ literal_at (symbols_in universe.now)
        (names_in universe.now) (sorts_in scope.now) (form p.now) (terms_in scope.now) positive }
{
    match p {
        Formula::Rel(r, args) => Atom::Rel(*r, places(alloc, universe, args, scope)),
        Formula::Eq(a, b) => {
            let sort = sort_of(universe.signature, a, scope);
            let left = place(alloc, universe, a, scope);
            let right = place(alloc, universe, b, scope);
            Atom::Eq(sort, left, right)
        }
        _ => unreachable!(),
    }
}

fn sort_of(signature: &Signature, t: &Term, scope: &Scope) -> Sort
    requires { IsGroundableTerm (symbols signature.now) (sorts_in scope.now) (term_view t.now) }
    ensures { result.0 ≡ sort_of_term (symbols signature.now) (sorts_in scope.now) (term_view t.now) }
{
    match t {
        Term::Bound(i) => sort_at(scope, *i),
        Term::App(f, _) => signature.into_of(*f),
        Term::Ite(_, _, _) => unreachable!(),
    }
}

#[cycle(place)]
fn place(alloc: Global, universe: &Herbrand, t: &Term, scope: &Scope) -> u32
    requires in_range { InRange (term_counts universe.now.terms.now) (sorts_in scope.now) (terms_in scope.now) }
    requires known { IsGroundableTerm (symbols_in universe.now) (sorts_in scope.now) (term_view t.now) }
    ensures { result ≡ place_of_term (names_in universe.now) (term_view t.now)
        (terms_in scope.now) }
{
    match t {
        Term::Bound(i) => term_at(scope, *i),
        Term::App(f, args) => application(alloc, universe, *f, args, scope),
        Term::Ite(_, _, _) => unreachable!(),
    }
}

#[cycle(place)]
fn application(
    alloc: Global,
    universe: &Herbrand,
    function: FunId,
    arguments: &[Term],
    scope: &Scope,
) -> u32
    requires in_range { InRange (term_counts universe.now.terms.now) (sorts_in scope.now) (terms_in scope.now) }
    requires function { function.0 < length universe.now.signature.now.functions }
    requires few { size_of (terms_view arguments.now) ≤ 8 }
    requires fits { FitsTerms (symbols_in universe.now) (sorts_in scope.now) (terms_view arguments.now)
        ((symbols_in universe.now).from_of function.0) }
    requires known { AreGroundableTerms (symbols_in universe.now) (sorts_in scope.now) (terms_view arguments.now) }
    ensures { result ≡ (names_in universe.now).place function.0
        (places_of_terms (names_in universe.now) (terms_view arguments.now)
        (terms_in scope.now)) }
{
    range_laws();
    place_laws();
    let _sorts = universe.signature.sorts();
    let arguments = places(alloc, universe, arguments, scope);
    universe.place(function, arguments.as_slice())
}

#[cycle(place)]
fn places(alloc: Global, universe: &Herbrand, ts: &[Term], scope: &Scope) -> Tuple
    requires in_range { InRange (term_counts universe.now.terms.now) (sorts_in scope.now) (terms_in scope.now) }
    requires few { size_of (terms_view ts.now) ≤ 8 }
    requires known { AreGroundableTerms (symbols_in universe.now) (sorts_in scope.now) (terms_view ts.now) }
    ensures { result ≡ places_of_terms (names_in universe.now) (terms_view ts.now)
        (terms_in scope.now) }
{
    let mut all = Tuple::new(alloc);
    for t in ts {
        all.push(place(alloc, universe, t, scope));
    }
    all
}
