// Clauses: a list of literals is made into one, so that nothing above has to think of repeated or opposite literals. A
// short list is scanned, and a long one looked up in a table, so that time is linear.
ghost use Rattle.std.specs.Prelude.{◌≡◌, ℕ, List, IfOk, OnOk, OnErr, ◌∷◌, true, if◌then◌else◌, []};
ghost use Rattle.cnf_base.specs.Literals.{member};
ghost use Rattle.cnf_base.specs.Clauses.{IsClause, with_literal, entry_of};
ghost use Rattle.cnf_base.specs.declared.cnf.Entry.TheVariants.{True};

use crate::{Entry, Lit};
use base::Mem;
use indexmap::IndexSet;
use smallvec::SmallVec;
use std::alloc::Global;
use std::marker::Model;

// Up to here a scan is faster than a table.
const SHORT: usize = 16;

/// A clause: its literals, none twice and none beside its opposite. Up to 4 lie in place.
#[derive(Drop)]
pub struct Clause {
    lits: SmallVec<Lit, 4>,
}

impl Model for Clause {
    ghost use Rattle.std.specs.Prelude.{List, ℕ};

    ghost Value = { List ℕ };

    ghost use Rattle.cnf_base.specs.Clauses.{IsClause};

    ghost view = { λ c. c.lits.items };

    ghost invariant = { λ c. IsClause c.lits.items };
}

impl Clause {
    /// The literals, in the order in which they came.
    pub fn as_slice(&self) -> &[Lit]
        ensures value { result.now ≡ self.now }
        ensures clause { IsClause self.now }
    {
        self.lits.as_slice()
    }

    /// A copy; want of memory is all that can keep it out.
    pub fn copy(&self, alloc: Global) -> Mem<Clause>
        ensures { IfOk result (λ copy. copy ≡ self.now) }
    {
        let lits = SmallVec::from_slice(alloc, self.lits.as_slice())?;
        Ok(Clause { lits })
    }
}

fn has(lits: &[Lit], lit: Lit) -> bool
    ensures { result ≡ member lit lits.now }
{
    let mut rest = lits;
    while let [l, after @ ..] = rest {
        if lit.code() == l.code() {
            return true;
        }
        rest = after;
    }
    false
}

// Adds a literal that isn't there yet; false where its opposite is there.
#[tactic(auto, using(crate::proofs::Clauses::literal_added))]
fn add(kept: &mut SmallVec<Lit, 4>, lit: Lit) -> Mem<bool>
    ensures clause { IfOk result (λ goes_on. goes_on ≡ true → IsClause kept.old.items → IsClause kept.new.items) }
    ensures entry { IfOk result (λ goes_on. (ls : List ℕ) →
        entry_of kept.old.items (lit ∷ ls) ≡ (if goes_on then entry_of kept.new.items ls else True)) }
{
    if has(kept.as_slice(), lit.opposite()) {
        return Ok(false);
    }
    if has(kept.as_slice(), lit) {
        return Ok(true);
    }
    kept.push(lit)?;
    Ok(true)
}

// The clause of these literals, by a scan for each.
fn short_entry(alloc: Global, lits: &[Lit]) -> Mem<Entry>
    ensures { IfOk result (λ e. e ≡ entry_of [] lits.now) }
{
    let mut kept = SmallVec::new(alloc);
    let mut rest = lits;
    while let [lit, after @ ..] = rest {
        if !add(&mut kept, *lit)? {
            return Ok(Entry::True);
        }
        rest = after;
    }
    Ok(Entry::Clause(Clause { lits: kept }))
}

/// Whether a literal is in a table.
#[tactic(auto, using(crate::proofs::Sets::keys_have))]
pub fn holds(kept: &IndexSet<Lit>, lit: &Lit) -> bool
    ensures { result ≡ member lit.now kept.now.keys }
{
    kept.contains(lit)
}

/// Puts a literal into a table, where it is not in it. After want of memory the table is as before.
#[tactic(auto, using(crate::proofs::Sets::keys_wider))]
pub fn keep(kept: &mut IndexSet<Lit>, lit: Lit) -> Mem<()>
    ensures ok { OnOk result (kept.new.keys ≡ with_literal kept.old.keys lit) }
    ensures kept { OnErr result (kept.new.keys ≡ kept.old.keys) }
{
    kept.insert(lit)?;
    Ok(())
}

// As `add`, by a look-up.
#[tactic(auto, using(crate::proofs::Sets::literal_added))]
fn add_long(kept: &mut IndexSet<Lit>, lit: Lit) -> Mem<bool>
    ensures clause { IfOk result (λ goes_on. goes_on ≡ true → IsClause kept.old.keys → IsClause kept.new.keys) }
    ensures entry { IfOk result (λ goes_on. (ls : List ℕ) →
        entry_of kept.old.keys (lit ∷ ls) ≡ (if goes_on then entry_of kept.new.keys ls else True)) }
{
    let opposite = lit.opposite();
    if holds(kept, &opposite) {
        return Ok(false);
    }
    keep(kept, lit)?;
    Ok(true)
}

// The clause of these literals, by a table of them.
fn long_entry(alloc: Global, lits: &[Lit]) -> Mem<Entry>
    ensures { IfOk result (λ e. e ≡ entry_of [] lits.now) }
{
    let mut kept = IndexSet::new(alloc);
    let mut rest = lits;
    while let [lit, after @ ..] = rest {
        if !add_long(&mut kept, *lit)? {
            return Ok(Entry::True);
        }
        rest = after;
    }
    let lits = SmallVec::from_slice(alloc, kept.as_slice())?;
    Ok(Entry::Clause(Clause { lits }))
}

/// The clause of these literals, each at its first place, or `True` where one stands beside its
/// opposite.
pub fn entry(alloc: Global, lits: &[Lit]) -> Mem<Entry>
    ensures { IfOk result (λ e. e ≡ entry_of [] lits.now) }
{
    if lits.len() <= SHORT {
        short_entry(alloc, lits)
    } else {
        long_entry(alloc, lits)
    }
}
