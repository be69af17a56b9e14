// An order of the sorts, and why there is none.
ghost use Rattle.std.specs.Prelude.{◌≡◌};
ghost use Rattle.fol_sig.specs.Tables.{numbers};

use crate::{FunId, Sort};
use std::marker::Model;

/// All sorts of a signature, each once and behind the argument sorts of the functions into it.
#[derive(Drop, Debug)]
pub struct Strata {
    pub(crate) order: Vec<Sort>,
}

impl Model for Strata {
    ghost use Rattle.std.specs.Prelude.{List, ℕ};
    ghost use Rattle.fol_sig.specs.Tables.{numbers};

    ghost Value = { List ℕ };

    ghost view = { λ s. numbers s.order.items };
}

impl Strata {
    /// The sorts, in the order.
    pub fn order(&self) -> &[Sort]
        ensures { numbers result.now ≡ self.now }
    {
        &self.order
    }
}

/// Why there are no strata: the first function that closes a cycle with those before it.
#[derive(Clone, Copy, PartialEq, Eq, Debug)]
pub struct Cycle {
    /// The function that closes the cycle.
    pub function: FunId,
}
