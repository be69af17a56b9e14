// The list of a symbol's argument sorts.
ghost use Rattle.std.specs.Prelude.{◌≡◌, ◌<◌, ◌≤◌, List, [], ◌++◌, ◌∷◌, length};
ghost use Rattle.fol_sig.specs.Tables.{numbers};
ghost use Rattle.fol_sig.specs.Arguments.{max_arguments};

use crate::Sort;
use smallvec::SmallVec;
use std::alloc::Global;
use std::marker::Model;

/// A list of at most 8 sorts. It lies in place, so that none of its calls takes memory.
#[derive(Drop, Debug)]
pub struct Sorts {
    items: SmallVec<Sort, 8>,
}

impl Model for Sorts {
    ghost use Rattle.std.specs.Prelude.{◌≡◌, List, ℕ, ◌≤◌, length};
    ghost use Rattle.fol_sig.specs.Arguments.{max_arguments};
    ghost use Rattle.fol_sig.specs.Tables.{numbers};

    ghost Value = { List ℕ };

    ghost view = { λ s. numbers s.items.items };

    ghost invariant = { λ s. (length s.items.items ≤ max_arguments) × (s.items.capacity ≡ max_arguments) };
}

impl Sorts {
    /// The empty list, to which `push` adds.
    pub fn new(alloc: Global) -> Sorts
        ensures { result ≡ [] }
    {
        Sorts {
            items: SmallVec::new(alloc),
        }
    }

    /// Adds a sort behind the others.
    pub fn push(&mut self, sort: Sort)
        requires { length self.old < max_arguments }
        ensures { self.new ≡ self.old ++ sort.0 ∷ [] }
    {
        self.items.push_reserved(sort);
    }

    /// The sorts, in order.
    pub fn as_slice(&self) -> &[Sort]
        ensures value { numbers result.now ≡ self.now }
        ensures few { length result.now ≤ max_arguments }
    {
        self.items.as_slice()
    }

    /// A second list of the same sorts.
    pub fn copy(&self) -> Sorts
        ensures { result ≡ self.now }
    {
        match SmallVec::from_slice(*self.items.allocator(), self.items.as_slice()) {
            Ok(items) => Sorts { items },
            Err(_) => unreachable!(),
        }
    }
}
