// How many ground terms each sort has once the existentials of a sentence are constants. No term is made.
ghost use Rattle.std.specs.Prelude.{◌≡◌, ◌+◌, ◌<◌, [], length, map, replicate, sum_by, All, IfOk};
ghost use Rattle.fol_sig.specs.Symbols.{symbols};
ghost use Rattle.fol_sig.specs.Strata.{IsStrata};
ghost use Rattle.fol_formula.specs.Syntax.{FormTree};
ghost use Rattle.fol_formula.specs.Counts.{saturated};
ghost use Rattle.fol_formula.specs.Fits.{FitsForm};
ghost use Rattle.fol_formula.specs.Fragments.{IsEa};
ghost use Rattle.ground_terms.specs.TermCounts.{or_one};
ghost use Rattle.ground_size.specs.Counting.{AreCounted};
ghost use Rattle.ground_size.specs.Existentials.{AreConstants};
ghost use Rattle.ground_size.specs.Walks.{capped_counts, own_count};

use crate::counts::{Counts, count_of, set_count, tuples};
use crate::existentials::add_existentials;
use base::Mem;
use fol_formula::Ea;
use fol_sig::{FunId, Signature, Strata};
use ground_terms::FunctionsInto;
use std::alloc::Global;

/// Counts the ground terms of the signature with a constant for each existential of the sentence's normal form. An
/// error is want of memory: two numbers are kept for each sort.
pub fn count(alloc: Global, signature: &Signature, strata: &Strata, sentence: &Ea) -> Mem<Counts>
    requires strata { IsStrata (symbols signature.now) strata.now }
    requires fits { FitsForm (symbols signature.now) [] sentence.now }
    ensures { IfOk result (AreCounted signature.now sentence.now) }
{
    let mut constants = vec![in alloc; 0u64; signature.sorts() as usize]?;
    add_existentials(&mut constants, sentence.sentence().formula(), 1, 0);
    let counts = count_with(alloc, signature, strata, &constants)?;
    Ok(counts)
}

/// Counts the ground terms of the signature with so many constants of each sort besides, which are those of each
/// sentence that has as many existentials in normal form. An error is want of memory: a number is kept for each sort.
pub fn count_with(
    alloc: Global,
    signature: &Signature,
    strata: &Strata,
    constants: &[u64],
) -> Mem<Counts>
    requires { IsStrata (symbols signature.now) strata.now }
    ensures { IfOk result (λ counts. (p : FormTree) → IsEa p → FitsForm (symbols signature.now) [] p
        → AreConstants signature.now.sorts p constants.now → AreCounted signature.now p counts) }
{
    fol_sig::growth_laws();
    fol_nnf::exactness();
    skolem::exactness();
    skolem::witnesses();
    let terms = counts_along(alloc, signature, strata, constants)?;
    Ok(Counts { terms })
}

// The terms of each sort from those of the sorts before it.
fn counts_along(
    alloc: Global,
    signature: &Signature,
    strata: &Strata,
    constants: &[u64],
) -> Mem<Vec<u64>>
    requires { All (λ k. k < signature.now.sorts) strata.now }
    ensures { IfOk result (λ counts. counts.items
        ≡ capped_counts (symbols signature.now) constants.now strata.now (replicate signature.now.sorts 0)) }
{
    let functions = FunctionsInto::new(alloc, signature)?;
    let mut counts = vec![in alloc; 0u64; signature.sorts() as usize]?;
    for sort in strata.order() {
        let own = count_of(constants, *sort);
        let count = terms_of(signature, &counts, own, functions.of_sort(*sort));
        set_count(&mut counts, *sort, count);
    }
    Ok(counts)
}

// The terms of a sort that has these constants besides, and these functions into it: the functions applied to the terms
// that are counted, and the default constant where there are none.
fn terms_of(signature: &Signature, counts: &[u64], constants: u64, functions: &[FunId]) -> u64
    requires { All (λ f. f < length signature.now.functions) (map (λ f. f.0) functions.now) }
    ensures { result ≡ saturated (or_one (constants
        + sum_by (own_count (symbols signature.now) counts.now) (map (λ f. f.0) functions.now))) }
{
    let mut terms = constants;
    for function in functions {
        terms = terms.saturating_add(tuples(counts, signature.from_of(*function)));
    }
    if terms == 0 { 1 } else { terms }
}
