// The fragments that a formula lies in.
ghost use Rattle.std.specs.Prelude.{◌≡◌, ◌↔◌, IsTrue, true, false};
ghost use Rattle.fol_formula.specs.View.{form, forms, term as term_view, terms as terms_view};
ghost use Rattle.fol_formula.specs.Fragments.{IsUniversal, IsExistsForall, IsQuantifierFree, IsQuantifierFreeTerm};
ghost use Rattle.fol_formula.specs.Fragments.{HasPlainTerms, IsNormalForm};
ghost use Rattle.fol_formula.specs.Deciding.{every_class, opposite, common, both_ways, under_all, under_some, classes};
ghost use Rattle.fol_formula.specs.Deciding.{common_classes, is_quantifier_free, are_quantifier_free};
ghost use Rattle.fol_formula.specs.Deciding.{is_quantifier_free_term, are_quantifier_free_terms, has_plain_terms};
ghost use Rattle.fol_formula.specs.Deciding.{have_plain_terms, is_ite_free, are_ite_free, is_plain_atom};
ghost use Rattle.fol_formula.specs.Deciding.{is_normal_form, are_normal_forms};

use crate::{Formula, Term};

/// The prefix classes in which a formula lies once its negations stand at atoms alone. Quantifiers
/// inside an `Ite` don't count.
#[derive(Clone, Copy, PartialEq, Eq, Debug)]
pub struct PrefixClasses {
    /// No existential stands in it.
    pub universal: bool,
    /// No universal stands in it.
    pub existential: bool,
    /// No existential stands in the scope of a universal.
    pub exists_forall: bool,
    /// No universal stands in the scope of an existential.
    pub forall_exists: bool,
}

impl PrefixClasses {
    const EVERY: PrefixClasses = PrefixClasses {
        universal: true,
        existential: true,
        exists_forall: true,
        forall_exists: true,
    };

    // Those of the negation.
    fn opposite(self) -> PrefixClasses
        ensures { result ≡ opposite self }
    {
        PrefixClasses {
            universal: self.existential,
            existential: self.universal,
            exists_forall: self.forall_exists,
            forall_exists: self.exists_forall,
        }
    }

    // Those that both have.
    fn common(self, other: PrefixClasses) -> PrefixClasses
        ensures { result ≡ common self other }
    {
        PrefixClasses {
            universal: self.universal && other.universal,
            existential: self.existential && other.existential,
            exists_forall: self.exists_forall && other.exists_forall,
            forall_exists: self.forall_exists && other.forall_exists,
        }
    }

    // Those that it has as it stands and negated.
    fn both_ways(self) -> PrefixClasses
        ensures { result ≡ both_ways self }
    {
        let quantifier_free = self.universal && self.existential;
        let alternation_free = self.exists_forall && self.forall_exists;
        PrefixClasses {
            universal: quantifier_free,
            existential: quantifier_free,
            exists_forall: alternation_free,
            forall_exists: alternation_free,
        }
    }

    fn under_all(self) -> PrefixClasses
        ensures { result ≡ under_all self }
    {
        PrefixClasses {
            existential: false,
            exists_forall: self.universal,
            ..self
        }
    }

    fn under_some(self) -> PrefixClasses
        ensures { result ≡ under_some self }
    {
        PrefixClasses {
            universal: false,
            forall_exists: self.existential,
            ..self
        }
    }
}

impl Formula {
    /// One walk, since a side of `Iff` counts as it stands and as its negation.
    pub fn prefix_classes(&self) -> PrefixClasses
        ensures universal { IsTrue result.universal ↔ IsUniversal true (form self.now) }
        ensures existential { IsTrue result.existential ↔ IsUniversal false (form self.now) }
        ensures exists_forall { IsTrue result.exists_forall ↔ IsExistsForall true (form self.now) }
        ensures forall_exists { IsTrue result.forall_exists ↔ IsExistsForall false (form self.now) }
    {
        classes_of(self)
    }

    /// Whether no quantifier stands in it, also inside its terms.
    pub fn is_quantifier_free(&self) -> bool
        ensures { IsTrue result ↔ IsQuantifierFree (form self.now) }
    {
        is_free(self)
    }

    /// Whether no quantifier stands inside an `Ite`.
    pub fn has_plain_terms(&self) -> bool
        ensures { IsTrue result ↔ HasPlainTerms (form self.now) }
    {
        is_plain(self)
    }

    /// Whether negations stand at atoms alone, and no `Implies`, `Iff` or `Ite` stands anywhere.
    pub fn is_normal_form(&self) -> bool
        ensures { IsTrue result ↔ IsNormalForm (form self.now) }
    {
        is_normal(self)
    }
}

impl Term {
    /// Whether no quantifier stands in it.
    pub fn is_quantifier_free(&self) -> bool
        ensures { IsTrue result ↔ IsQuantifierFreeTerm (term_view self.now) }
    {
        is_free_term(self)
    }
}

#[cycle(classes)]
fn classes_of(formula: &Formula) -> PrefixClasses
    ensures { result ≡ classes (form formula.now) }
{
    match formula {
        Formula::True => PrefixClasses::EVERY,
        Formula::False => PrefixClasses::EVERY,
        Formula::Rel(_, _) => PrefixClasses::EVERY,
        Formula::Eq(_, _) => PrefixClasses::EVERY,
        Formula::Not(p) => classes_of(p).opposite(),
        Formula::And(ps) => common_classes(ps),
        Formula::Or(ps) => common_classes(ps),
        Formula::Implies(p, q) => classes_of(p).opposite().common(classes_of(q)),
        Formula::Iff(p, q) => classes_of(p).both_ways().common(classes_of(q).both_ways()),
        Formula::Forall(_, p) => classes_of(p).under_all(),
        Formula::Exists(_, p) => classes_of(p).under_some(),
    }
}

#[cycle(classes)]
fn common_classes(formulas: &[Formula]) -> PrefixClasses
    ensures { result ≡ common_classes (forms formulas.now) }
{
    let mut all = PrefixClasses::EVERY;
    for p in formulas {
        all = all.common(classes_of(p));
    }
    all
}

#[cycle(free)]
fn is_free(formula: &Formula) -> bool
    ensures { result ≡ is_quantifier_free (form formula.now) }
{
    match formula {
        Formula::True => true,
        Formula::False => true,
        Formula::Rel(_, args) => are_free_terms(args),
        Formula::Eq(a, b) => is_free_term(a) && is_free_term(b),
        Formula::Not(p) => is_free(p),
        Formula::And(ps) => are_free(ps),
        Formula::Or(ps) => are_free(ps),
        Formula::Implies(p, q) => is_free(p) && is_free(q),
        Formula::Iff(p, q) => is_free(p) && is_free(q),
        Formula::Forall(_, _) => false,
        Formula::Exists(_, _) => false,
    }
}

#[cycle(free)]
fn are_free(formulas: &[Formula]) -> bool
    ensures { result ≡ are_quantifier_free (forms formulas.now) }
{
    for p in formulas {
        if !is_free(p) {
            return false;
        }
    }
    true
}

#[cycle(free)]
fn is_free_term(term: &Term) -> bool
    ensures { result ≡ is_quantifier_free_term (term_view term.now) }
{
    match term {
        Term::Bound(_) => true,
        Term::App(_, args) => are_free_terms(args),
        Term::Ite(p, a, b) => is_free(p) && is_free_term(a) && is_free_term(b),
    }
}

#[cycle(free)]
fn are_free_terms(terms: &[Term]) -> bool
    ensures { result ≡ are_quantifier_free_terms (terms_view terms.now) }
{
    for t in terms {
        if !is_free_term(t) {
            return false;
        }
    }
    true
}

#[cycle(plain)]
fn is_plain(formula: &Formula) -> bool
    ensures { result ≡ has_plain_terms (form formula.now) }
{
    match formula {
        Formula::True => true,
        Formula::False => true,
        Formula::Rel(_, args) => are_free_terms(args),
        Formula::Eq(a, b) => is_free_term(a) && is_free_term(b),
        Formula::Not(p) => is_plain(p),
        Formula::And(ps) => are_plain(ps),
        Formula::Or(ps) => are_plain(ps),
        Formula::Implies(p, q) => is_plain(p) && is_plain(q),
        Formula::Iff(p, q) => is_plain(p) && is_plain(q),
        Formula::Forall(_, p) => is_plain(p),
        Formula::Exists(_, p) => is_plain(p),
    }
}

#[cycle(plain)]
fn are_plain(formulas: &[Formula]) -> bool
    ensures { result ≡ have_plain_terms (forms formulas.now) }
{
    for p in formulas {
        if !is_plain(p) {
            return false;
        }
    }
    true
}

#[cycle(normal)]
fn is_normal(formula: &Formula) -> bool
    ensures { result ≡ is_normal_form (form formula.now) }
{
    match formula {
        Formula::True => true,
        Formula::False => true,
        Formula::Rel(_, args) => are_without_ite(args),
        Formula::Eq(a, b) => is_without_ite(a) && is_without_ite(b),
        Formula::Not(p) => is_plain_atom(p),
        Formula::And(ps) => are_normal(ps),
        Formula::Or(ps) => are_normal(ps),
        Formula::Implies(_, _) => false,
        Formula::Iff(_, _) => false,
        Formula::Forall(_, p) => is_normal(p),
        Formula::Exists(_, p) => is_normal(p),
    }
}

#[cycle(normal)]
fn are_normal(formulas: &[Formula]) -> bool
    ensures { result ≡ are_normal_forms (forms formulas.now) }
{
    for p in formulas {
        if !is_normal(p) {
            return false;
        }
    }
    true
}

fn is_plain_atom(formula: &Formula) -> bool
    ensures { result ≡ is_plain_atom (form formula.now) }
{
    match formula {
        Formula::Rel(_, args) => are_without_ite(args),
        Formula::Eq(a, b) => is_without_ite(a) && is_without_ite(b),
        _ => false,
    }
}

#[cycle(ite)]
fn is_without_ite(term: &Term) -> bool
    ensures { result ≡ is_ite_free (term_view term.now) }
{
    match term {
        Term::Bound(_) => true,
        Term::App(_, args) => are_without_ite(args),
        Term::Ite(_, _, _) => false,
    }
}

#[cycle(ite)]
fn are_without_ite(terms: &[Term]) -> bool
    ensures { result ≡ are_ite_free (terms_view terms.now) }
{
    for t in terms {
        if !is_without_ite(t) {
            return false;
        }
    }
    true
}
