// The numbers of tuples. Whatever has a value for each tuple lies in a row and is read at the tuple's number, so these
// calls take no memory, and a number costs one product and one sum for each element.
ghost use Rattle.std.specs.Prelude.{◌≡◌, ◌<◌, ◌≤◌, ◌^◌, ◌↔◌, length, min, All, IfOk, IsTrue};
ghost use Rattle.fol_sig.specs.Tables.{InRange, tuple_count, place_of, numbers};
ghost use Rattle.fol_sig.specs.Tuples.{tuple_at};
ghost use Rattle.fol_sig.specs.TupleSets.{is_in_range, are_in_range};
ghost use Rattle.fol_sig.specs.Arguments.{max_arguments};

use crate::{Sort, Tuple};
use base::Mem;
use std::alloc::{AllocError, Global};

/// How many tuples of elements of these sorts there are, or `usize::MAX` where there are more.
pub fn count_tuples(sizes: &[u32], sorts: &[Sort]) -> usize
    requires { All (λ k. k < length sizes.now) (numbers sorts.now) }
    ensures { result ≡ min (tuple_count sizes.now (numbers sorts.now)) usize.MAX }
{
    let mut count = 1usize;
    for sort in sorts {
        count = count.saturating_mul(sizes[sort.0 as usize] as usize);
    }
    count
}

/// How many cells a table over these sorts has: one for each tuple. Err: there are 2^63 or more, and no table has more
/// cells than memory has bytes.
pub fn table_len(sizes: &[u32], sorts: &[Sort]) -> Mem<usize>
    requires { All (λ k. k < length sizes.now) (numbers sorts.now) }
    ensures count { IfOk result (λ n. n ≡ tuple_count sizes.now (numbers sorts.now)) }
    ensures room { IfOk result (λ n. n < 2 ^ 63) }
{
    let count = count_tuples(sizes, sorts);
    if count > isize::MAX as usize {
        return Err(AllocError);
    }
    Ok(count)
}

/// The number of a tuple in lexicographic order.
pub fn number_of_tuple(sizes: &[u32], sorts: &[Sort], tuple: &[u32]) -> usize
    requires sorted { All (λ k. k < length sizes.now) (numbers sorts.now) }
    requires in_range { InRange sizes.now (numbers sorts.now) tuple.now }
    requires room { tuple_count sizes.now (numbers sorts.now) < 2 ^ 63 }
    ensures value { result ≡ place_of sizes.now (numbers sorts.now) tuple.now }
    ensures within { result < tuple_count sizes.now (numbers sorts.now) }
{
    let mut at = 0usize;
    for i in 0..sorts.len() {
        at = at * sizes[sorts[i].0 as usize] as usize + tuple[i] as usize;
    }
    at
}

/// The tuple with a number.
pub fn tuple_of_number(alloc: Global, sizes: &[u32], sorts: &[Sort], number: usize) -> Tuple
    requires sorted { All (λ k. k < length sizes.now) (numbers sorts.now) }
    requires short { length sorts.now ≤ max_arguments }
    requires known { number < tuple_count sizes.now (numbers sorts.now) }
    requires room { tuple_count sizes.now (numbers sorts.now) < 2 ^ 63 }
    ensures value { result ≡ tuple_at sizes.now (numbers sorts.now) number }
    ensures in_range { InRange sizes.now (numbers sorts.now) result }
    ensures number { place_of sizes.now (numbers sorts.now) result ≡ number }
{
    let mut rest = count_tuples(sizes, sorts);
    let mut left = number;
    let mut tuple = Tuple::new(alloc);
    for sort in sorts {
        rest /= sizes[sort.0 as usize] as usize;
        tuple.push((left / rest) as u32);
        left %= rest;
    }
    tuple
}

/// Whether each of these tuples has an element of each of these sorts, and no more.
pub(crate) fn are_in_range(sizes: &[u32], sorts: &[Sort], tuples: &[Tuple]) -> bool
    requires { All (λ k. k < length sizes.now) (numbers sorts.now) }
    ensures { result ≡ are_in_range sizes.now (numbers sorts.now) tuples.now }
{
    let mut rest = tuples;
    while let [tuple, after @ ..] = rest {
        if !is_in_range(sizes, sorts, tuple.as_slice()) {
            return false;
        }
        rest = after;
    }
    true
}

/// Whether a tuple has an element of each of these sorts, and no more.
pub fn is_in_range(sizes: &[u32], sorts: &[Sort], tuple: &[u32]) -> bool
    requires { All (λ k. k < length sizes.now) (numbers sorts.now) }
    ensures value { result ≡ is_in_range sizes.now (numbers sorts.now) tuple.now }
    ensures decides { IsTrue result ↔ InRange sizes.now (numbers sorts.now) tuple.now }
{
    if sorts.len() != tuple.len() {
        return false;
    }
    for i in 0..sorts.len() {
        if tuple[i] >= sizes[sorts[i].0 as usize] {
            return false;
        }
    }
    true
}
