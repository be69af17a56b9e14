// The size of a sentence's ground formulas. The normal form is not made: a walk takes the sizes of a formula's normal
// form and of its negation's at once, since an equivalence needs both of both sides.
ghost use Rattle.std.specs.Prelude.{◌≡◌, List, ℕ, [], length, map};
ghost use Rattle.fol_sig.specs.Symbols.{symbols};
ghost use Rattle.fol_formula.specs.View.{form, forms, term as term_view, terms as terms_view};
ghost use Rattle.fol_formula.specs.Counts.{saturated};
ghost use Rattle.fol_formula.specs.Fits.{FitsForm};
ghost use Rattle.fol_nnf.specs.Normal.{leaves, leaves_of_terms};
ghost use Rattle.ground_size.specs.Sizes.{size_of};
ghost use Rattle.ground_size.specs.Leaves.{AreSizesOf, AreSizesOfAll, AreLeavesOf};

use crate::axioms::with_axioms;
use crate::{Counts, LeafCount, SignedCount};
use fol_formula::{Ea, Formula, Term};
use fol_sig::Signature;

/// The size of the sentence's ground formulas, the nodes of its instance and the axioms of equality, where each sort
/// has so many terms. A size that 64 bits do not hold is the greatest that they hold. Nothing is built, and both sides
/// of an equivalence are walked once.
pub fn ground_size(signature: &Signature, counts: &Counts, sentence: &Ea) -> u64
    requires counted { length counts.now ≡ signature.now.sorts }
    requires fits { FitsForm (symbols signature.now) [] sentence.now }
    ensures { (terms : List ℕ) → counts.now ≡ map saturated terms
        → result ≡ saturated (size_of signature.now terms sentence.now) }
{
    let nodes = sizes_of(counts, sentence.sentence().formula()).positive;
    with_axioms(signature, counts, nodes)
}

/// The sizes of a formula.
#[cycle(sizes)]
pub(crate) fn sizes_of(counts: &Counts, formula: &Formula) -> SignedCount
    ensures { AreSizesOf counts.now (form formula.now) result }
{
    match formula {
        Formula::True => SignedCount::ONE,
        Formula::False => SignedCount::ONE,
        Formula::Rel(_, args) => leaves_of_terms(counts, args).relation(),
        Formula::Eq(a, b) => leaves_of(counts, a).equation(leaves_of(counts, b)),
        Formula::Not(p) => sizes_of(counts, p).opposite(),
        Formula::And(ps) => sizes_of_all(counts, ps).gathered(),
        Formula::Or(ps) => sizes_of_all(counts, ps).gathered(),
        Formula::Implies(p, q) => sizes_of(counts, p)
            .opposite()
            .beside(sizes_of(counts, q))
            .gathered(),
        Formula::Iff(p, q) => sizes_of(counts, p).equivalent(sizes_of(counts, q), 3),
        Formula::Forall(sort, p) => sizes_of(counts, p).under_all(counts.of_sort(*sort)),
        Formula::Exists(sort, p) => sizes_of(counts, p).under_some(counts.of_sort(*sort)),
    }
}

#[cycle(sizes)]
fn sizes_of_all(counts: &Counts, formulas: &[Formula]) -> SignedCount
    ensures { AreSizesOfAll counts.now (forms formulas.now) result }
{
    let mut all = SignedCount::NONE;
    for p in formulas {
        all = all.beside(sizes_of(counts, p));
    }
    all
}

#[cycle(sizes)]
fn leaves_of(counts: &Counts, term: &Term) -> LeafCount
    ensures { AreLeavesOf counts.now (leaves (term_view term.now)) result }
{
    match term {
        Term::Bound(_) => LeafCount::ONE,
        Term::App(_, args) => leaves_of_terms(counts, args).application(),
        Term::Ite(p, a, b) => leaves_of(counts, a).chosen(
            leaves_of(counts, b),
            sizes_of(counts, p),
        ),
    }
}

#[cycle(sizes)]
fn leaves_of_terms(counts: &Counts, terms: &[Term]) -> LeafCount
    ensures { AreLeavesOf counts.now (leaves_of_terms (terms_view terms.now)) result }
{
    let mut row = LeafCount::ONE;
    for i in (0..terms.len()).rev() {
        row = leaves_of(counts, &terms[i]).in_front_of(row);
    }
    row
}
