// The walk over all tuples of some sorts, which takes no memory.
ghost use Rattle.std.specs.Prelude.{◌≡◌, ◌<◌, ◌≤◌, length, All, IfOk};
ghost use Rattle.std.specs.List.{AllByRecursion};
ghost use Rattle.std.specs.Iterator.{YieldsFirst, item_count};
ghost use Rattle.fol_sig.specs.Tables.{numbers, InRange};
ghost use Rattle.fol_sig.specs.Arguments.{max_arguments};
ghost use Rattle.fol_sig.specs.Tuples.{tuples};

use crate::tuples::{table_len, tuple_of_number};
use crate::{Sort, Tuple};
use base::Mem;
use std::alloc::Global;
use std::marker::Model;

/// The tuples that a walk has not come to yet.
#[derive(Drop)]
pub struct TuplesLeft<'a> {
    alloc: Global,
    sizes: &'a [u32],
    sorts: &'a [Sort],
    next: usize,
    count: usize,
}

impl<'a> Model for TuplesLeft<'a> {
    ghost use Rattle.std.specs.Prelude.{List, ℕ, drop};
    ghost use Rattle.fol_sig.specs.Tables.{numbers};
    ghost use Rattle.fol_sig.specs.Tuples.{tuples, IsWalk};

    ghost Value = { List (List ℕ) };

    ghost view = { λ t. drop t.next (tuples t.sizes.now (numbers t.sorts.now)) };

    ghost invariant = { λ t. IsWalk t.sizes.now (numbers t.sorts.now) t.next t.count };
}

/// The tuples of elements of these sorts, in lexicographic order. Err: there are 2^63 or more.
#[tactic(auto, using(crate::proofs::Walks::all_in_range))]
pub fn each_tuple<'a>(alloc: Global, sizes: &'a [u32], sorts: &'a [Sort]) -> Mem<TuplesLeft<'a>>
    requires sorted { All (λ k. k < length sizes.now) (numbers sorts.now) }
    requires short { length sorts.now ≤ max_arguments }
    ensures all { IfOk result (λ left. left ≡ tuples sizes.now (numbers sorts.now)) }
    ensures in_range { IfOk result (AllByRecursion (InRange sizes.now (numbers sorts.now))) }
{
    let count = table_len(sizes, sorts)?;
    Ok(TuplesLeft {
        alloc,
        sizes,
        sorts,
        next: 0,
        count,
    })
}

impl<'a> Iterator for TuplesLeft<'a> {
    type Item = Tuple;

    ghost next_gives = { YieldsFirst (λ t. t) };

    ghost remaining = { item_count (λ t. t) };

    #[tactic(auto, using(crate::proofs::Walks::next_left, crate::proofs::Walks::none_left))]
    fn next(&mut self) -> Option<Tuple> {
        if self.next == self.count {
            return None;
        }
        let tuple = tuple_of_number(self.alloc, self.sizes, self.sorts, self.next);
        self.next += 1;
        Some(tuple)
    }
}
