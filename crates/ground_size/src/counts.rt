// How many ground terms each sort has, in 64 bits.
ghost use Rattle.std.specs.Prelude.{◌≡◌, List, ℕ, map, replicate, sum, slice_index, slice_set, IfOk};
ghost use Rattle.fol_sig.specs.Tables.{tuple_count, numbers};
ghost use Rattle.fol_formula.specs.Counts.{saturated};

use base::Mem;
use fol_sig::{Signature, Sort};
use std::alloc::Global;
use std::marker::Model;

/// How many ground terms each sort has; a number that 64 bits do not hold is the greatest that they hold.
#[derive(Drop)]
pub struct Counts {
    pub(crate) terms: Vec<u64>,
}

impl Model for Counts {
    ghost use Rattle.std.specs.Prelude.{List, ℕ};

    ghost Value = { List ℕ };

    ghost view = { λ c. c.terms.items };
}

impl Counts {
    /// One term of each sort of the signature: what is counted over them is the formula itself, and none of its
    /// instances. Err: out of memory.
    pub fn ones(alloc: Global, signature: &Signature) -> Mem<Counts>
        ensures { IfOk result (λ counts. counts ≡ replicate signature.now.sorts 1) }
    {
        Ok(Counts {
            terms: vec![in alloc; 1u64; signature.sorts() as usize]?,
        })
    }

    /// How many terms a sort has; a sort that there is not has none.
    pub fn of_sort(&self, sort: Sort) -> u64
        ensures { result ≡ slice_index self.now sort.0 }
    {
        count_of(&self.terms, sort)
    }

    /// How many ground terms there are in all, counted like each.
    pub fn total(&self) -> u64
        ensures { (counts : List ℕ) → self.now ≡ map saturated counts → result ≡ saturated (sum counts) }
    {
        total_of(&self.terms)
    }
}

fn total_of(counts: &[u64]) -> u64
    ensures { result ≡ saturated (sum counts.now) }
{
    let mut total = 0u64;
    for n in counts {
        total = total.saturating_add(*n);
    }
    total
}

/// How many terms a sort has; a sort that there is not has none.
pub(crate) fn count_of(counts: &[u64], sort: Sort) -> u64
    ensures { result ≡ slice_index counts.now sort.0 }
{
    let place = sort.0 as usize;
    if place < counts.len() {
        counts[place]
    } else {
        0
    }
}

/// Sets how many terms a sort has; nothing changes for a sort that there is not.
pub(crate) fn set_count(counts: &mut [u64], sort: Sort, count: u64)
    ensures { counts.new ≡ slice_set counts.old sort.0 count }
{
    let place = sort.0 as usize;
    if place < counts.len() {
        counts[place] = count;
    }
}

/// How many tuples of terms of these sorts there are.
pub(crate) fn tuples(counts: &[u64], sorts: &[Sort]) -> u64
    ensures { result ≡ saturated (tuple_count counts.now (numbers sorts.now)) }
{
    let mut tuples = 1u64;
    for sort in sorts {
        tuples = tuples.saturating_mul(count_of(counts, *sort));
    }
    tuples
}
