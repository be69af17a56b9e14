// The search: decisions, and the way back from a conflict.
ghost use Rattle.std.specs.Prelude.{◌≡◌, ◌≢◌, ℕ, false, ◌+◌, ◌-◌, ◌^◌, ◌<◌, ◌≤◌, [], ◌∷◌, ◌++◌, length, IfOk, OnOk};
ghost use Rattle.std.specs.Prelude.{IfSome, IfNone, get_or, reverse, All, MatchOption};
ghost use Rattle.cnf_base.specs.declared.cnf.Entry.TheVariants.{Clause};
ghost use Rattle.cnf_base.specs.Literals.{opposite};
ghost use Rattle.lrat_log.specs.Learnt.{IsUnit, IsLearnt, IsResolvent};
ghost use Rattle.cdcl.specs.Trail.{reason_at, is_set, free, IsConflict};
ghost use Rattle.cdcl.specs.Learning.{is_marked, IsSecond};
ghost use Rattle.cdcl.specs.State.{held_in, IsState};
ghost use Rattle.cdcl.specs.Found.{IsFound};
ghost use Rattle.cdcl.specs.Assigned.{IsUnset, AreAllSet};
ghost use Rattle.cdcl.specs.Solver.{IsSearch, WentBack, IsCut};

use crate::analyse::{Learnt, Levels, learn, refute};
use crate::state::State;
use crate::trail::Trail;
use base::Mem;
use cdcl_tables::{Order, Phases, Restarts, pop_starts};
use cnf_base::Lit;
use std::alloc::Global;
use std::marker::Model;

/// A search: its state, the places of the trail where its levels begin, how far propagation is, and what guides it.
#[derive(Drop)]
pub struct Search {
    pub state: State,
    pub starts: Vec<usize>,
    pub head: usize,
    pub marks: Vec<bool>,
    pub order: Order,
    pub phases: Phases,
    pub restarts: Restarts,
}

/// A search of which the invariant holds. The main loop moves it from call to call, so it sees none in mid-work.
#[derive(Drop)]
pub struct Solver {
    pub search: Search,
}

impl Model for Solver {
    ghost use Rattle.cdcl.specs.declared.search.Search.{Search};
    ghost use Rattle.cdcl.specs.Solver.{IsSearch};

    ghost Value = { Search };

    ghost view = { λ a. a.search };

    ghost invariant = { λ a. IsSearch a.search };
}

/// An unset variable, if there is one. Only where the order is empty, so once a search, are all looked at.
fn next_unset(order: &mut Order, trail: &Trail) -> Option<u32>
    ensures { MatchOption result (AreAllSet trail.now) (IsUnset trail.now) }
{
    for _ in 0..order.len() {
        if let Some(variable) = order.pop() {
            if trail.is_unset(variable) {
                return Some(variable);
            }
        }
    }
    trail.first_unset()
}

impl Search {
    /// Begins a level with a literal of an unset variable.
    fn decide(&mut self, variable: u32) -> Mem<()>
        requires solver { IsSearch self.old }
        requires drawn { self.old.head ≡ length self.old.state.trail.steps }
        requires unset { IsUnset self.old.state.trail variable }
        ensures solver { OnOk result (IsSearch self.new) }
        ensures clauses { OnOk result (self.new.state.clauses ≡ self.old.state.clauses) }
        ensures size { OnOk result (self.new.state.trail.size ≡ self.old.state.trail.size) }
        ensures fewer { OnOk result (free (is_set self.new.state.trail.steps) self.old.state.trail.size + 1 ≡ free
            (is_set self.old.state.trail.steps) self.old.state.trail.size) }
    {
        let literal = self.phases.literal(variable);
        self.starts.push(self.state.trail.len())?;
        self.state.trail.push(literal, 0)?;
        Ok(())
    }

    fn propagate(&mut self, alloc: Global) -> Mem<Option<u32>>
        requires { IsSearch self.old }
        ensures solver { OnOk result (IsSearch self.new) }
        ensures clauses { OnOk result (self.new.state.clauses ≡ self.old.state.clauses) }
        ensures size { OnOk result (self.new.state.trail.size ≡ self.old.state.trail.size) }
        ensures fewer { OnOk result (free (is_set self.new.state.trail.steps) self.old.state.trail.size ≤ free
            (is_set self.old.state.trail.steps) self.old.state.trail.size) }
        ensures conflict { IfOk result (λ r. IfSome r
            (λ id. IsConflict (held_in self.new.state) self.new.state.trail.steps id)) }
        ensures drawn { IfOk result (λ r. IfNone r (self.new.head ≡ length self.new.state.trail.steps)) }
    {
        let conflict = self.state.propagate(alloc, &mut self.head)?;
        Ok(conflict)
    }

    /// Decides, and draws the consequences, until a clause is false, whose id is the answer, or all variables are set.
    pub fn descend(&mut self, alloc: Global) -> Mem<Option<u32>>
        requires { IsSearch self.old }
        ensures solver { OnOk result (IsSearch self.new) }
        ensures clauses { OnOk result (self.new.state.clauses ≡ self.old.state.clauses) }
        ensures size { OnOk result (self.new.state.trail.size ≡ self.old.state.trail.size) }
        ensures conflict { IfOk result (λ r. IfSome r
            (λ id. IsConflict (held_in self.new.state) self.new.state.trail.steps id)) }
        ensures drawn { IfOk result (λ r. IfNone r (self.new.head ≡ length self.new.state.trail.steps)) }
        ensures set { IfOk result (λ r. IfNone r (AreAllSet self.new.state.trail)) }
    {
        loop {
            match self.propagate(alloc)? {
                Some(id) => return Ok(Some(id)),
                None => {}
            }
            match next_unset(&mut self.order, &self.state.trail) {
                Some(variable) => self.decide(variable)?,
                None => return Ok(None),
            }
        }
    }

    /// Goes back to the lowest level that begins at a place or later.
    pub fn go_back(&mut self, second: usize) -> Mem<()>
        requires solver { IsSearch self.old }
        requires some { 0 < length self.old.starts.items }
        requires last { second ≤ get_or self.old.starts.items (length self.old.starts.items - 1) 0 }
        ensures solver { OnOk result (IsSearch self.new) }
        ensures back { OnOk result (WentBack self.old self.new second) }
    {
        let to = pop_starts(&mut self.starts, second);
        self.cut(to)?;
        Ok(())
    }

    /// Takes the newest literals off the trail, down to a length.
    fn cut(&mut self, to: usize) -> Mem<()>
        requires { to ≤ length self.old.state.trail.steps }
        ensures { OnOk result (IsCut self.old self.new to) }
    {
        while self.state.trail.len() > to {
            let step = self.state.trail.pop();
            self.phases.save(step.literal);
            self.order.put_back(step.literal.variable())?;
        }
        self.head = to;
        Ok(())
    }

    /// Holds a learnt clause, and sets its first literal, whose others are false. Another literal to watch was set just
    /// before `second`.
    fn add_learnt(&mut self, literals: &[Lit], second: usize) -> Mem<()>
        requires solver { IsSearch self.old }
        requires drawn { self.old.head ≡ length self.old.state.trail.steps }
        requires unit { IsUnit (is_set self.old.state.trail.steps) literals.now (get_or literals.now 0 0) }
        requires small { All (λ l. (l < self.old.state.trail.size)
            × (opposite l < self.old.state.trail.size)) literals.now }
        requires second { second ≤ length self.old.state.trail.steps }
        requires stands { IsSecond self.old.state.trail.steps literals.now second }
        requires before { (i : ℕ) → i < length self.old.starts.items → get_or self.old.starts.items i 0 < second }
        requires room { length self.old.state.clauses + 1 < 2 ^ 31 }
        ensures solver { OnOk result (IsSearch self.new) }
        ensures clauses { OnOk result (self.new.state.clauses ≡ self.old.state.clauses ++ Clause literals.now ∷ []) }
        ensures size { OnOk result (self.new.state.trail.size ≡ self.old.state.trail.size) }
    {
        let first = literals[0];
        let id = self.state.clauses.len() as u32 + 1;
        let pair = self.state.pair_at(first, second);
        self.state.add(literals, pair)?;
        self.state.trail.push(first, id)?;
        Ok(())
    }

    /// Finds a clause that follows from a conflict.
    fn analyse(&mut self, alloc: Global, conflict: u32) -> Mem<Learnt>
        requires solver { IsSearch self.old }
        requires conflict { IsConflict (held_in self.old.state) self.old.state.trail.steps conflict }
        requires some { 0 < length self.old.starts.items }
        ensures solver { OnOk result (IsSearch self.new) }
        ensures same { OnOk result ((self.new.state ≡ self.old.state) × (self.new.starts ≡ self.old.starts)) }
        ensures found { IfOk result (λ w. IsFound self.new w) }
    {
        let levels = Levels {
            root: self.starts[0],
            top: self.starts[self.starts.len() - 1],
        };
        let learnt = learn(
            alloc,
            &self.state.clauses,
            &self.state.trail,
            self.marks.as_mut_slice(),
            &mut self.order,
            levels,
            conflict,
        )?;
        Ok(learnt)
    }

    /// Learns from a conflict above level 0, and goes back to where the learnt clause is unit.
    pub fn learn(&mut self, alloc: Global, conflict: u32) -> Mem<Learnt>
        requires solver { IsSearch self.old }
        requires conflict { IsConflict (held_in self.old.state) self.old.state.trail.steps conflict }
        requires some { 0 < length self.old.starts.items }
        requires room { length self.old.state.clauses + 1 < 2 ^ 31 }
        ensures solver { OnOk result (IsSearch self.new) }
        ensures clauses { IfOk result (λ w.
            self.new.state.clauses ≡ self.old.state.clauses ++ Clause w.literals.items ∷ []) }
        ensures learnt { IfOk result (λ w. IsLearnt (held_in self.old.state) w.literals.items (reverse w.hints.items)) }
    {
        let learnt = self.analyse(alloc, conflict)?;
        self.go_back(learnt.second)?;
        self.add_learnt(learnt.literals.as_slice(), learnt.second)?;
        self.order.bump_all(learnt.literals.as_slice());
        Ok(learnt)
    }

    /// Goes back to level 0 now and then.
    pub fn restart(&mut self) -> Mem<()>
        requires { IsSearch self.old }
        ensures solver { OnOk result (IsSearch self.new) }
        ensures clauses { OnOk result (self.new.state.clauses ≡ self.old.state.clauses) }
    {
        if self.restarts.is_due() && !self.starts.is_empty() {
            self.go_back(0)?;
        }
        Ok(())
    }

    /// The hints of the empty clause, from a conflict at level 0.
    pub fn refute(&mut self, alloc: Global, conflict: u32) -> Mem<Vec<u32>>
        requires state { IsState self.old.state }
        requires marked { length self.old.marks.items ≡ self.old.state.trail.size }
        requires clear { (l : ℕ) → is_marked self.old.marks.items l ≡ false }
        requires conflict { IsConflict (held_in self.old.state) self.old.state.trail.steps conflict }
        requires decisions { (i : ℕ) → i < length self.old.state.trail.steps
            → reason_at self.old.state.trail.steps i ≢ 0 }
        ensures same { OnOk result (self.new.state ≡ self.old.state) }
        ensures resolvent { IfOk result (λ hints. IsResolvent (held_in self.new.state) [] hints.items) }
    {
        let mut hints = refute(
            alloc,
            &self.state.clauses,
            &self.state.trail,
            self.marks.as_mut_slice(),
            conflict,
        )?;
        hints.as_mut_slice().reverse();
        Ok(hints)
    }
}
