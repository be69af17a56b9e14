// The instance as a list, for what looks at all of it.
ghost use Rattle.std.specs.Prelude.{◌≡◌, [], map, IfOk};
ghost use Rattle.fol_formula.specs.Fits.{FitsForm};
ghost use Rattle.fol_formula.specs.Fragments.{IsNormalForm};
ghost use Rattle.ground_terms.specs.Universe.{symbols_in};
ghost use Rattle.ground_terms.specs.Calls.{calls_of};
ghost use Rattle.ground_terms.specs.CallViews.{plain_call};
ghost use Rattle.ground_expand.specs.Instance.{instance_of};

use crate::expand_into;
use base::Mem;
use fol_formula::Universal;
use ground_terms::{Herbrand, SinkCall};
use std::alloc::Global;

/// The instance of a sentence in normal form, its nodes in prefix order. An error is want of memory.
pub fn expand(alloc: Global, universe: &Herbrand, sentence: &Universal) -> Mem<Vec<SinkCall>>
    requires fits { FitsForm (symbols_in universe.now) [] sentence.now }
    requires normal { IsNormalForm sentence.now }
    ensures { IfOk result (λ made.
        map plain_call made.items
        ≡ calls_of (instance_of (symbols_in universe.now) universe.now.terms.now sentence.now)) }
{
    let mut made = Vec::new(alloc);
    expand_into(alloc, universe, sentence, &mut made)?;
    Ok(made)
}
