// How a search begins: all clauses held, and those of one literal set.
ghost use Rattle.std.specs.Prelude.{List, ◌≡◌, ℕ, ◌+◌, ◌*◌, ◌^◌, ◌<◌, ◌≤◌, [], ◌∷◌, ◌++◌, length, IfOk, OnOk, IfSome};
ghost use Rattle.std.specs.Prelude.{IfNone, All};
ghost use Rattle.cnf_base.specs.declared.cnf.Entry.TheVariants.{Clause, True};
ghost use Rattle.cnf_base.specs.Literals.{opposite};
ghost use Rattle.cnf_base.specs.Clauses.{IsClause};
ghost use Rattle.cnf_base.specs.Formulas.{IsFormula};
ghost use Rattle.cdcl.specs.Solver.{IsRefuted};
ghost use Rattle.cdcl.specs.Loading.{IsAtRoot, IsLoaded};
ghost use Rattle.cdcl.specs.Watch.{IsPairOf};
ghost use Rattle.cnf_base.specs.Numerals.{max_number};

use crate::search::{Search, Solver};
use crate::state::State;
use crate::trail::Trail;
use base::Mem;
use cdcl_tables::{Clauses, Order, Pair, Phases, Restarts, Watches, greatest_variable};
use cnf_base::{Cnf, Entry, Lit};
use std::alloc::Global;

/// A search that may begin, or the hints of the empty clause.
#[derive(Drop)]
pub enum Loaded {
    Ready(Solver),
    Refuted(Vec<u32>),
}

impl Search {
    /// A search without clauses over the variables from 1 to below `slots`.
    fn new(alloc: Global, slots: u32) -> Mem<Search>
        requires some { 1 < slots }
        requires few { slots ≤ 2 ^ 31 }
        ensures root { IfOk result (λ s. IsAtRoot s) }
        ensures clauses { IfOk result (λ s. s.state.clauses ≡ []) }
        ensures size { IfOk result (λ s. s.state.trail.size ≡ 2 * slots) }
    {
        let literals = 2 * slots as usize;
        Ok(Search {
            state: State {
                clauses: Clauses::new(alloc),
                trail: Trail::new(alloc, slots as usize)?,
                watches: Watches::new(alloc, literals)?,
            },
            starts: Vec::new(alloc),
            head: 0,
            marks: vec![in alloc; false; literals]?,
            order: Order::new(alloc, slots)?,
            phases: Phases::new(alloc, slots)?,
            restarts: Restarts::new(),
        })
    }

    /// Holds a clause without literals, which is false.
    fn add_empty(&mut self, clause: &[Lit]) -> Mem<u32>
        requires root { IsAtRoot self.old }
        requires empty { clause.now ≡ [] }
        requires room { length self.old.state.clauses + 1 < 2 ^ 31 }
        ensures clauses { OnOk result (self.new.state.clauses ≡ self.old.state.clauses ++ Clause clause.now ∷ []) }
        ensures refuted { IfOk result (λ id. IsRefuted self.new id) }
    {
        let id = self.state.clauses.len() as u32 + 1;
        let literal = Lit::positive(1);
        let pair = Pair {
            first: literal,
            second: literal,
        };
        self.state.add(clause, pair)?;
        Ok(id)
    }

    /// Holds a clause of one literal, and sets it, unless it is false.
    fn add_unit(&mut self, clause: &[Lit], literal: Lit) -> Mem<Option<u32>>
        requires root { IsAtRoot self.old }
        requires unit { clause.now ≡ literal ∷ [] }
        requires small { (literal < self.old.state.trail.size) × (opposite literal < self.old.state.trail.size) }
        requires room { length self.old.state.clauses + 1 < 2 ^ 31 }
        ensures clauses { OnOk result (self.new.state.clauses ≡ self.old.state.clauses ++ Clause clause.now ∷ []) }
        ensures size { OnOk result (self.new.state.trail.size ≡ self.old.state.trail.size) }
        ensures root { IfOk result (λ r. IfNone r (IsAtRoot self.new)) }
        ensures refuted { IfOk result (λ r. IfSome r (λ id. IsRefuted self.new id)) }
    {
        let id = self.state.clauses.len() as u32 + 1;
        let pair = Pair {
            first: literal,
            second: literal,
        };
        self.state.add(clause, pair)?;
        if self.state.trail.is_set(literal.opposite()) {
            return Ok(Some(id));
        }
        if self.state.trail.is_set(literal) {
            return Ok(None);
        }
        self.state.trail.push(literal, id)?;
        Ok(None)
    }

    /// Holds a clause that is watched by two literals.
    fn add_watched(&mut self, clause: &[Lit], pair: Pair) -> Mem<()>
        requires root { IsAtRoot self.old }
        requires pair { IsPairOf clause.now pair }
        requires small { All (λ l. (l < self.old.state.trail.size)
            × (opposite l < self.old.state.trail.size)) clause.now }
        requires room { length self.old.state.clauses + 1 < 2 ^ 31 }
        ensures clauses { OnOk result (self.new.state.clauses ≡ self.old.state.clauses ++ Clause clause.now ∷ []) }
        ensures size { OnOk result (self.new.state.trail.size ≡ self.old.state.trail.size) }
        ensures root { OnOk result (IsAtRoot self.new) }
    {
        self.state.add(clause, pair)?;
        Ok(())
    }

    /// Holds a clause that is always true.
    fn add_true(&mut self) -> Mem<()>
        requires root { IsAtRoot self.old }
        requires room { length self.old.state.clauses + 1 < 2 ^ 31 }
        ensures clauses { OnOk result (self.new.state.clauses ≡ self.old.state.clauses ++ True ∷ []) }
        ensures size { OnOk result (self.new.state.trail.size ≡ self.old.state.trail.size) }
        ensures root { OnOk result (IsAtRoot self.new) }
    {
        self.state.add_true()?;
        Ok(())
    }

    /// Holds a clause, and sets its literal where it has one alone. The answer is its id where it is false.
    fn add_clause(&mut self, clause: &[Lit]) -> Mem<Option<u32>>
        requires root { IsAtRoot self.old }
        requires clause { IsClause clause.now }
        requires small { All (λ l. (l < self.old.state.trail.size)
            × (opposite l < self.old.state.trail.size)) clause.now }
        requires room { length self.old.state.clauses + 1 < 2 ^ 31 }
        ensures clauses { OnOk result (self.new.state.clauses ≡ self.old.state.clauses ++ Clause clause.now ∷ []) }
        ensures size { IfOk result (λ r. IfNone r (self.new.state.trail.size ≡ self.old.state.trail.size)) }
        ensures root { IfOk result (λ r. IfNone r (IsAtRoot self.new)) }
        ensures refuted { IfOk result (λ r. IfSome r (λ id. IsRefuted self.new id)) }
    {
        match clause {
            [] => {
                let id = self.add_empty(clause)?;
                Ok(Some(id))
            }
            [literal] => {
                let conflict = self.add_unit(clause, *literal)?;
                Ok(conflict)
            }
            [first, second, ..] => {
                let pair = Pair {
                    first: *first,
                    second: *second,
                };
                self.add_watched(clause, pair)?;
                Ok(None)
            }
        }
    }

    fn add_entry(&mut self, entry: &Entry) -> Mem<Option<u32>>
        requires root { IsAtRoot self.old }
        requires entry { (c : List ℕ) → entry.now ≡ Clause c → IsClause c
            × All (λ l. (l < self.old.state.trail.size) × (opposite l < self.old.state.trail.size)) c }
        requires room { length self.old.state.clauses + 1 < 2 ^ 31 }
        ensures clauses { OnOk result (self.new.state.clauses ≡ self.old.state.clauses ++ entry.now ∷ []) }
        ensures size { IfOk result (λ r. IfNone r (self.new.state.trail.size ≡ self.old.state.trail.size)) }
        ensures root { IfOk result (λ r. IfNone r (IsAtRoot self.new)) }
        ensures refuted { IfOk result (λ r. IfSome r (λ id. IsRefuted self.new id)) }
    {
        match entry {
            Entry::Clause(clause) => {
                let conflict = self.add_clause(clause.as_slice())?;
                Ok(conflict)
            }
            Entry::True => {
                self.add_true()?;
                Ok(None)
            }
        }
    }
}

/// Holds the clauses of a formula.
pub fn load(alloc: Global, cnf: &Cnf) -> Mem<Loaded>
    requires { length cnf.now.clauses < max_number }
    ensures loaded { IfOk result (IsLoaded cnf.now) }
    ensures formula { OnOk result (IsFormula cnf.now) }
{
    let entries = cnf.clauses();
    let greatest = greatest_variable(entries);
    let mut search = Search::new(alloc, greatest + 1)?;
    for entry in entries {
        match search.add_entry(entry)? {
            Some(id) => {
                let hints = search.refute(alloc, id)?;
                return Ok(Loaded::Refuted(hints));
            }
            None => {}
        }
    }
    Ok(Loaded::Ready(Solver { search }))
}
