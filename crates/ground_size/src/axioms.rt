// How many axioms of equality there are over so many ground terms.
ghost use Rattle.std.specs.Prelude.{◌≡◌, List, ℕ, true, map, slice_index};
ghost use Rattle.fol_sig.specs.Symbols.{symbols};
ghost use Rattle.fol_sig.specs.Tables.{numbers};
ghost use Rattle.fol_formula.specs.Syntax.{FormTree};
ghost use Rattle.fol_formula.specs.Counts.{saturated};
ghost use Rattle.fol_nnf.specs.Normal.{normal};
ghost use Rattle.ground_terms.specs.TermCounts.{sum_below};
ghost use Rattle.ground_size.specs.Sizes.{equivalence_axioms, congruence_axioms, axiom_count};
ghost use Rattle.ground_size.specs.Sizes.{instance_nodes, size_of};

use crate::Counts;
use crate::counts::{count_of, tuples};
use fol_sig::{FunId, RelId, Signature, Sort};

/// The size of a sentence's ground formulas, where its instance has so many nodes: with the axioms of equality. A size
/// that 64 bits do not hold is the greatest that they hold.
pub fn with_axioms(signature: &Signature, counts: &Counts, nodes: u64) -> u64
    ensures { (terms : List ℕ) (p : FormTree) → counts.now ≡ map saturated terms
        → nodes ≡ saturated (instance_nodes counts.now (normal true p))
        → result ≡ saturated (size_of signature.now terms p) }
{
    nodes.saturating_add(axioms(signature, &counts.terms))
}

// How many axioms of equality there are.
fn axioms(signature: &Signature, counts: &[u64]) -> u64
    ensures { result ≡ saturated (axiom_count (symbols signature.now) counts.now) }
{
    let congruence = axioms_of_relations(signature, counts).saturating_add(axioms_of_functions(
        signature, counts,
    ));
    axioms_of_sorts(signature, counts).saturating_add(congruence)
}

fn axioms_of_sorts(signature: &Signature, counts: &[u64]) -> u64
    ensures { result ≡ saturated (sum_below signature.now.sorts (λ k. equivalence_axioms (slice_index counts.now k))) }
{
    let mut axioms = 0u64;
    for k in 0..signature.sorts() {
        axioms = axioms.saturating_add(equivalence(count_of(counts, Sort(k))));
    }
    axioms
}

// That equality is reflexive, symmetric and transitive, of so many terms.
fn equivalence(terms: u64) -> u64
    ensures { result ≡ saturated (equivalence_axioms terms) }
{
    let pairs = terms.saturating_mul(terms);
    terms
        .saturating_add(pairs)
        .saturating_add(pairs.saturating_mul(terms))
}

fn axioms_of_relations(signature: &Signature, counts: &[u64]) -> u64
    ensures { result ≡ saturated (sum_below (symbols signature.now).relations (λ r.
        congruence_axioms counts.now ((symbols signature.now).sorts_of r))) }
{
    let mut axioms = 0u64;
    for r in 0..signature.relation_count() {
        axioms = axioms.saturating_add(congruence(counts, signature.sorts_of(RelId(r))));
    }
    axioms
}

fn axioms_of_functions(signature: &Signature, counts: &[u64]) -> u64
    ensures { result ≡ saturated (sum_below (symbols signature.now).functions (λ f.
        congruence_axioms counts.now ((symbols signature.now).from_of f))) }
{
    let mut axioms = 0u64;
    for f in 0..signature.function_count() {
        axioms = axioms.saturating_add(congruence(counts, signature.from_of(FunId(f))));
    }
    axioms
}

// That equal terms can be exchanged in each argument place.
fn congruence(counts: &[u64], sorts: &[Sort]) -> u64
    ensures { result ≡ saturated (congruence_axioms counts.now (numbers sorts.now)) }
{
    let tuples = tuples(counts, sorts);
    let mut axioms = 0u64;
    for sort in sorts {
        axioms = axioms.saturating_add(count_of(counts, *sort).saturating_mul(tuples));
    }
    axioms
}
