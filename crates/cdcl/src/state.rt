// What propagation works on: the clauses, what is set, and which literals watch. It stands apart from the levels and
// the order of decisions, so that what a visit of a watch keeps is said without them.
use crate::pairing::watch;
use crate::trail::Trail;
use base::Mem;
use cdcl_tables::{Clauses, Pair, Watches};
use cnf_base::Lit;

/// The clauses, what is set, and which literals watch.
#[derive(Drop)]
pub struct State {
    pub clauses: Clauses,
    pub trail: Trail,
    pub watches: Watches,
}

impl State {
    ghost use Rattle.std.specs.Prelude.{◌≡◌, ◌+◌, ◌-◌, ◌^◌, ◌<◌, ◌≤◌, [], ◌∷◌, ◌++◌, length, OnOk};
    ghost use Rattle.cnf_base.specs.declared.cnf.Entry.TheVariants.{Clause, True};
    ghost use Rattle.cnf_base.specs.Literals.{opposite};
    ghost use Rattle.cdcl.specs.Added.{IsAdded};
    ghost use Rattle.cdcl.specs.Trail.{literal_at};

    /// Holds one more clause, watched by a pair, or by none where the pair is one literal twice.
    pub fn add(&mut self, clause: &[Lit], pair: Pair) -> Mem<()>
        requires first { pair.first < length self.old.watches.lists.items }
        requires second { pair.second < length self.old.watches.lists.items }
        requires paired { length self.old.watches.pairs.items ≡ length self.old.clauses }
        requires room { length self.old.clauses < 2 ^ 31 }
        ensures clauses { OnOk result (self.new.clauses ≡ self.old.clauses ++ Clause clause.now ∷ []) }
        ensures trail { OnOk result (self.new.trail ≡ self.old.trail) }
        ensures added { OnOk result (IsAdded self.old.watches self.new.watches (length self.old.clauses) pair) }
    {
        let place = self.clauses.len() as u32;
        self.clauses.push(clause)?;
        watch(&mut self.watches, place, pair)?;
        Ok(())
    }

    /// Holds a clause that is always true, which nothing watches.
    pub fn add_true(&mut self) -> Mem<()>
        requires some { 2 < length self.old.watches.lists.items }
        requires paired { length self.old.watches.pairs.items ≡ length self.old.clauses }
        requires room { length self.old.clauses < 2 ^ 31 }
        ensures clauses { OnOk result (self.new.clauses ≡ self.old.clauses ++ True ∷ []) }
        ensures trail { OnOk result (self.new.trail ≡ self.old.trail) }
        ensures added { OnOk result (IsAdded self.old.watches self.new.watches (length self.old.clauses)
            (record { first = 2; second = 2 })) }
    {
        let place = self.clauses.len() as u32;
        self.clauses.push_true()?;
        let literal = Lit::positive(1);
        let pair = Pair {
            first: literal,
            second: literal,
        };
        watch(&mut self.watches, place, pair)?;
        Ok(())
    }

    /// A literal, and the opposite of the one just before a place of the trail; the literal twice where the place is 0.
    pub fn pair_at(&self, first: Lit, second: usize) -> Pair
        requires { second ≤ length self.now.trail.steps }
        ensures first { result.first ≡ first }
        ensures second { 0 < second → result.second ≡ opposite (literal_at self.now.trail.steps (second - 1)) }
        ensures none { second ≡ 0 → result.second ≡ first }
        ensures small { first < self.now.trail.size → result.second < self.now.trail.size }
    {
        if second == 0 {
            Pair {
                first,
                second: first,
            }
        } else {
            Pair {
                first,
                second: self.trail.step(second - 1).literal.opposite(),
            }
        }
    }
}
