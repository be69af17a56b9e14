// The places of an index that a formula does not bind.
ghost use Rattle.std.specs.Prelude.{◌≡◌, suc};
ghost use Rattle.fol_formula.specs.View.{form, forms, term as term_view, terms as terms_view};
ghost use Rattle.fol_formula.specs.Indices.{IndicesFit, IndicesFitAll, IndicesFitTerm, IndicesFitTerms};
ghost use Rattle.fol_subst.specs.Extents.{places_form, places_forms, places_term, places_terms};

use crate::extent::Extent;
use fol_formula::{Formula, Term};

#[cycle(places)]
pub fn places_in_formula(formula: &Formula, index: u64) -> Extent
    ensures places { result ≡ places_form index (form formula.now) }
    ensures indices { IndicesFit (form formula.now) }
{
    match formula {
        Formula::True => Extent::NONE,
        Formula::False => Extent::NONE,
        Formula::Rel(_, args) => places_in_terms(args, index).under(),
        Formula::Eq(a, b) => places_in_term(a, index)
            .beside(places_in_term(b, index))
            .under(),
        Formula::Not(p) => places_in_formula(p, index).under(),
        Formula::And(ps) => places_in_formulas(ps, index).under(),
        Formula::Or(ps) => places_in_formulas(ps, index).under(),
        Formula::Implies(p, q) => places_in_formula(p, index)
            .beside(places_in_formula(q, index))
            .under(),
        Formula::Iff(p, q) => places_in_formula(p, index)
            .beside(places_in_formula(q, index))
            .under(),
        Formula::Forall(_, p) => places_inside(p, index).under(),
        Formula::Exists(_, p) => places_inside(p, index).under(),
    }
}

// Under a binder.
#[cycle(places)]
fn places_inside(formula: &Formula, index: u64) -> Extent
    ensures places { result ≡ places_form (suc index) (form formula.now) }
    ensures indices { IndicesFit (form formula.now) }
{
    places_in_formula(formula, index.saturating_add(1))
}

#[cycle(places)]
fn places_in_formulas(formulas: &[Formula], index: u64) -> Extent
    ensures places { result ≡ places_forms index (forms formulas.now) }
    ensures indices { IndicesFitAll (forms formulas.now) }
{
    let mut all = Extent::NONE;
    for p in formulas {
        all = all.beside(places_in_formula(p, index));
    }
    all
}

#[cycle(places)]
pub fn places_in_term(term: &Term, index: u64) -> Extent
    ensures places { result ≡ places_term index (term_view term.now) }
    ensures indices { IndicesFitTerm (term_view term.now) }
{
    match term {
        Term::Bound(i) => {
            if *i as u64 == index {
                Extent::ONE
            } else {
                Extent::NONE
            }
        }
        Term::App(_, args) => places_in_terms(args, index).under(),
        Term::Ite(p, a, b) => {
            let terms = places_in_term(a, index).beside(places_in_term(b, index));
            places_in_formula(p, index).beside(terms).under()
        }
    }
}

#[cycle(places)]
fn places_in_terms(terms: &[Term], index: u64) -> Extent
    ensures places { result ≡ places_terms index (terms_view terms.now) }
    ensures indices { IndicesFitTerms (terms_view terms.now) }
{
    let mut all = Extent::NONE;
    for t in terms {
        all = all.beside(places_in_term(t, index));
    }
    all
}
