// The axioms as a list, for what looks at all of them.
ghost use Rattle.std.specs.Prelude.{◌≡◌, map, IfOk};
ghost use Rattle.ground_terms.specs.Universe.{symbols_in};
ghost use Rattle.ground_terms.specs.CallViews.{plain_call};
ghost use Rattle.ground_terms.specs.Taking.{calls_of_each};
ghost use Rattle.equality_axioms.specs.Axioms.{equality_axioms};

use crate::axioms_into;
use base::Mem;
use ground_terms::{Herbrand, SinkCall};
use std::alloc::Global;

/// The axioms of equality in the order of `axioms_into`, the nodes of each in prefix order. An error is want of memory.
pub fn axioms(alloc: Global, universe: &Herbrand) -> Mem<Vec<SinkCall>>
    ensures { IfOk result (λ made.
        map plain_call made.items ≡ calls_of_each (equality_axioms (symbols_in universe.now) universe.now.terms.now)) }
{
    let mut made = Vec::new(alloc);
    axioms_into(alloc, universe, &mut made)?;
    Ok(made)
}
