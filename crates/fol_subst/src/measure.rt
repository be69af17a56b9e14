// How large the result of a replacement is, without the result.
ghost use Rattle.std.specs.Prelude.{◌≡◌, ℕ, ◌<◌, ◌≤◌, length, slice_get, Some};
ghost use Rattle.fol_formula.specs.View.{form, forms, term as term_view, terms as terms_view};
ghost use Rattle.fol_formula.specs.Syntax.{size_of};
ghost use Rattle.fol_subst.specs.Changes.{change_of};
ghost use Rattle.fol_subst.specs.Room.{ReadyForm, ReadyForms, ReadyTerm, ReadyTerms};
ghost use Rattle.fol_subst.specs.Extents.{extent_form, extent_forms, extent_term, extent_terms, extent_instance};
ghost use Rattle.fol_subst.specs.Extents.{places_of};
ghost use Rattle.fol_subst.specs.Measured.{Measures};
ghost use Rattle.fol_sig.specs.Arguments.{max_arguments};

use crate::extent::Extent;
use crate::places::{places_in_formula, places_in_term};
use crate::replacement::Replacement;
use fol_formula::{Formula, Term};

// The extent of what replaces the symbol, and the places of each parameter in it.
#[derive(Clone, Copy)]
pub struct Measure {
    pub whole: Extent,
    pub places: [Extent; 8],
}

impl Measure {
    pub fn of(change: &Replacement) -> Measure
        ensures { Measures result (change_of change.now) }
    {
        let whole = match change {
            Replacement::Rel(_, by) => Extent::new(by.nodes(), by.depth()),
            Replacement::Fun(_, by) => Extent::new(by.nodes(), by.depth()),
            Replacement::Const(_, _) => Extent::ONE,
        };
        let places = [
            places_of(change, 0),
            places_of(change, 1),
            places_of(change, 2),
            places_of(change, 3),
            places_of(change, 4),
            places_of(change, 5),
            places_of(change, 6),
            places_of(change, 7),
        ];
        Measure { whole, places }
    }

    #[cycle(measure)]
    pub fn formula(&self, p: &Formula, change: &Replacement) -> Extent
        requires measures { Measures self.now (change_of change.now) }
        requires ready { ReadyForm (change_of change.now) (form p.now) }
        ensures { result ≡ extent_form (change_of change.now) (form p.now) }
    {
        match p {
            Formula::True => Extent::ONE,
            Formula::False => Extent::ONE,
            Formula::Rel(rel, args) => {
                if change.changes_rel(*rel) {
                    self.instance(args, change)
                } else {
                    self.terms(args, change).over()
                }
            }
            Formula::Eq(a, b) => self.term(a, change).beside(self.term(b, change)).over(),
            Formula::Not(p) => self.formula(p, change).over(),
            Formula::And(ps) => self.formulas(ps, change).over(),
            Formula::Or(ps) => self.formulas(ps, change).over(),
            Formula::Implies(p, q) => self
                .formula(p, change)
                .beside(self.formula(q, change))
                .over(),
            Formula::Iff(p, q) => self
                .formula(p, change)
                .beside(self.formula(q, change))
                .over(),
            Formula::Forall(_, p) => self.formula(p, change).over(),
            Formula::Exists(_, p) => self.formula(p, change).over(),
        }
    }

    #[cycle(measure)]
    fn formulas(&self, ps: &[Formula], change: &Replacement) -> Extent
        requires measures { Measures self.now (change_of change.now) }
        requires ready { ReadyForms (change_of change.now) (forms ps.now) }
        ensures { result ≡ extent_forms (change_of change.now) (forms ps.now) }
    {
        let mut all = Extent::NONE;
        for p in ps {
            all = all.beside(self.formula(p, change));
        }
        all
    }

    #[cycle(measure)]
    fn term(&self, t: &Term, change: &Replacement) -> Extent
        requires measures { Measures self.now (change_of change.now) }
        requires ready { ReadyTerm (change_of change.now) (term_view t.now) }
        ensures { result ≡ extent_term (change_of change.now) (term_view t.now) }
    {
        match t {
            Term::Bound(_) => Extent::ONE,
            Term::App(fun, args) => {
                if change.changes_fun(*fun) {
                    self.instance(args, change)
                } else {
                    self.terms(args, change).over()
                }
            }
            Term::Ite(p, a, b) => {
                let terms = self.term(a, change).beside(self.term(b, change));
                self.formula(p, change).beside(terms).over()
            }
        }
    }

    #[cycle(measure)]
    fn terms(&self, ts: &[Term], change: &Replacement) -> Extent
        requires measures { Measures self.now (change_of change.now) }
        requires ready { ReadyTerms (change_of change.now) (terms_view ts.now) }
        ensures { result ≡ extent_terms (change_of change.now) (terms_view ts.now) }
    {
        let mut all = Extent::NONE;
        for t in ts {
            all = all.beside(self.term(t, change));
        }
        all
    }

    // What replaces the symbol, with these arguments.
    #[cycle(measure)]
    fn instance(&self, args: &[Term], change: &Replacement) -> Extent
        requires measures { Measures self.now (change_of change.now) }
        requires few { size_of (terms_view args.now) ≤ max_arguments }
        requires ready { ReadyTerms (change_of change.now) (terms_view args.now) }
        ensures { result ≡ extent_instance (change_of change.now) self.now.whole (terms_view args.now) }
    {
        fol_formula::lists();
        let mut all = self.whole;
        let mut index = args.len();
        for t in args {
            index -= 1;
            all = all.put_in(self.places[index], self.term(t, change));
        }
        all
    }
}

fn places_of(change: &Replacement, index: u64) -> Extent
    ensures { result ≡ places_of (change_of change.now) index }
{
    match change {
        Replacement::Rel(_, by) => places_in_formula(by, index),
        Replacement::Fun(_, by) => places_in_term(by, index),
        Replacement::Const(_, _) => Extent::NONE,
    }
}
