// Sets of literals that are emptied at once, in memory that goes by how many literals there are and not by their
// numbers: a checker fills and empties one for each line of a log.
ghost use Rattle.std.specs.Prelude.{◌≡◌, ℕ, ◌==◌, ◌||◌, ◌≤◌, false, length, get_or, OnOk, OnErr};
ghost use Rattle.cnf_base.specs.Literals.{member};
ghost use Rattle.cnf_base.specs.LitSetValue.{set_of};

use crate::Lit;
use crate::clause::{holds, keep};
use base::Mem;
use indexmap::IndexSet;
use std::alloc::Global;
use std::marker::Model;

// So many literals have stamps in any case.
const LEAST: usize = 1024;

/// A set of literals, seen as a test of literals. A literal has a stamp and is in the set where that is the epoch, so
/// one more epoch empties the set. Literals whose codes are too great for the stamps stand in a table.
#[derive(Drop)]
pub struct LitSet {
    stamps: Vec<u32>,
    epoch: u32,
    room: usize,
    far: IndexSet<Lit>,
}

impl Model for LitSet {
    ghost use Rattle.cnf_base.specs.LitSetValue.{LitSetValue};

    ghost Value = { LitSetValue };

    ghost use Rattle.cnf_base.specs.LitSets.{value_of_set, IsLitSet};

    ghost view = { value_of_set };

    ghost invariant = { IsLitSet };
}

fn zero(stamps: &mut [u32])
    ensures { (k : ℕ) → get_or stamps.new k 0 ≡ 0 }
{
    for stamp in stamps.iter_mut() {
        *stamp = 0;
    }
}

// Makes the stamps so many at least.
fn grow(stamps: &mut Vec<u32>, len: usize) -> Mem<()>
    ensures len { OnOk result (len ≤ length stamps.new.items) }
    ensures same { (k : ℕ) → get_or stamps.new.items k 0 ≡ get_or stamps.old.items k 0 }
{
    if stamps.len() < len {
        stamps.resize(len, 0)?;
    }
    Ok(())
}

impl LitSet {
    ghost use Rattle.cnf_base.specs.Literals.{member};
    ghost use Rattle.cnf_base.specs.LitSetValue.{set_of};

    /// The empty set.
    pub fn new(alloc: Global) -> LitSet
        ensures { (x : ℕ) → set_of result x ≡ false }
    {
        LitSet {
            stamps: Vec::new(alloc),
            epoch: 1,
            room: LEAST,
            far: IndexSet::new(alloc),
        }
    }

    /// Allows memory for the stamps of so many more literals, of which each variable has one at least.
    pub fn allow(&mut self, literals: usize)
        ensures { self.new ≡ self.old }
    {
        self.room = self.room.saturating_add(literals.saturating_mul(4));
    }

    /// Whether a literal is in the set.
    pub fn has(&self, lit: Lit) -> bool
        ensures { result ≡ set_of self.now lit }
    {
        let code = lit.code() as usize;
        if code < self.stamps.len() && self.stamps[code] == self.epoch {
            return true;
        }
        if self.far.is_empty() {
            return false;
        }
        self.has_far(lit)
    }

    // Nearly all sets have no such literal: out of line, so that the walk of a clause keeps its registers.
    #[cold]
    #[inline(never)]
    fn has_far(&self, lit: Lit) -> bool
        ensures { result ≡ member lit self.now.far }
    {
        holds(&self.far, &lit)
    }

    /// Puts a literal into the set. After want of memory the set is as before.
    pub fn insert(&mut self, lit: Lit) -> Mem<()>
        ensures ok { OnOk result ((x : ℕ) → set_of self.new x ≡ (x == lit || set_of self.old x)) }
        ensures kept { OnErr result ((x : ℕ) → set_of self.new x ≡ set_of self.old x) }
    {
        let code = lit.code() as usize;
        if code < self.stamps.len() {
            self.stamps[code] = self.epoch;
            return Ok(());
        }
        self.insert_beyond(lit)?;
        Ok(())
    }

    // A literal beyond the stamps: there are more stamps from now on, or it goes into the table.
    #[cold]
    #[inline(never)]
    fn insert_beyond(&mut self, lit: Lit) -> Mem<()>
        ensures ok { OnOk result ((x : ℕ) → set_of self.new x ≡ (x == lit || set_of self.old x)) }
        ensures kept { OnErr result ((x : ℕ) → set_of self.new x ≡ set_of self.old x) }
    {
        let code = lit.code() as usize;
        if code >= self.room && code >= self.stamps.len() {
            keep(&mut self.far, lit)?;
            return Ok(());
        }
        grow(&mut self.stamps, code + 1)?;
        self.stamps[code] = self.epoch;
        Ok(())
    }

    /// Empties the set.
    pub fn clear(&mut self)
        ensures { (x : ℕ) → set_of self.new x ≡ false }
    {
        if !self.far.is_empty() {
            self.far = IndexSet::new(*self.stamps.allocator());
        }
        if self.epoch == u32::MAX {
            zero(self.stamps.as_mut_slice());
            self.epoch = 0;
        }
        self.epoch += 1;
    }
}
