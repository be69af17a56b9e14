// The constants that were put behind the functions so far.
ghost use Rattle.std.specs.Prelude.{◌≡◌, ◌+◌, ◌<◌, ◌^◌, ◌++◌, ◌∷◌, [], length, IfOk, OnOk};
ghost use Rattle.fol_sig.specs.Tables.{numbers};

use base::Mem;
use fol_sig::{FunId, Sort};
use std::alloc::Global;
use std::marker::Model;

/// Seen as what stands before the constants and their sorts.
#[derive(Drop)]
pub struct Constants {
    functions: u32,
    sorts: Vec<Sort>,
}

impl Model for Constants {
    ghost use Rattle.pool_skolem.specs.Named.{Named};
    ghost use Rattle.fol_sig.specs.Tables.{numbers};

    ghost Value = { Named };

    ghost view = { λ c. record { functions = c.functions; sorts = numbers c.sorts.items } };
}

impl Constants {
    /// None yet, behind so many functions.
    pub fn new(alloc: Global, functions: u32) -> Constants
        ensures functions { result.functions ≡ functions }
        ensures sorts { result.sorts ≡ [] }
    {
        Constants {
            functions,
            sorts: Vec::new(alloc),
        }
    }

    /// One more, of this sort.
    pub fn add(&mut self, sort: Sort) -> Mem<FunId>
        requires { self.old.functions + length self.old.sorts < 2 ^ 32 }
        ensures constant { IfOk result (λ f. f.0 ≡ self.old.functions + length self.old.sorts) }
        ensures functions { self.new.functions ≡ self.old.functions }
        ensures sorts { OnOk result (self.new.sorts ≡ self.old.sorts ++ sort.0 ∷ []) }
    {
        let constant = FunId(self.functions + self.sorts.len() as u32);
        self.sorts.push(sort)?;
        Ok(constant)
    }

    /// Their sorts, in order.
    pub fn into_sorts(self) -> Vec<Sort>
        ensures { numbers result.items ≡ self.sorts }
    {
        self.sorts
    }
}
