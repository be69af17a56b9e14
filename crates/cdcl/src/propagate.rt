// Unit propagation: sets what the clauses force under the literals that are set. Nearly all of a search's time goes to
// the visits here, so a visit reads as little as it can: the blocker first, then the other watched literal, and only
// then the clause, from where the last search in it ended.
ghost use Rattle.std.specs.Prelude.{◌≡◌, ℕ, ◌+◌, ◌<◌, ◌≤◌, length, All, IfOk, OnOk, MatchOption, IfSome, IfNone, set};
ghost use Rattle.std.specs.Prelude.{Some};
ghost use Rattle.cnf_base.specs.Literals.{opposite};
ghost use Rattle.cdcl.specs.Trail.{is_set, IsConflict};
ghost use Rattle.cdcl.specs.Visit.{AreFalseBut, IsOpen};
ghost use Rattle.cdcl.specs.State.{held_in, IsState, Grows, IsVisiting, IsWatchingAt};

use crate::state::State;
use crate::trail::Trail;
use base::Mem;
use cdcl_tables::{Watch, WatchList, other_of};
use cnf_base::Lit;
use std::alloc::Global;

/// A literal that may be watched, and its position in its clause.
#[derive(Clone, Copy)]
pub struct Open {
    pub literal: Lit,
    pub position: usize,
}

/// A literal of a clause that is not false and neither of two.
fn first_open(trail: &Trail, clause: &[Lit], one: Lit, other: Lit) -> Option<Open>
    requires { All (λ l. (l < trail.now.size) × (opposite l < trail.now.size)) clause.now }
    ensures { MatchOption result (AreFalseBut (is_set trail.now.steps) clause.now one other)
        (λ o. IsOpen (is_set trail.now.steps) clause.now one other o.literal) }
{
    for (position, l) in clause.iter().enumerate() {
        if *l != one && *l != other && !trail.is_set(l.opposite()) {
            return Some(Open {
                literal: *l,
                position,
            });
        }
    }
    None
}

/// As `first_open`, by a search from a position on, and from the front where it finds none.
pub fn open_literal(
    trail: &Trail,
    clause: &[Lit],
    position: usize,
    one: Lit,
    other: Lit,
) -> Option<Open>
    requires { All (λ l. (l < trail.now.size) × (opposite l < trail.now.size)) clause.now }
    ensures { MatchOption result (AreFalseBut (is_set trail.now.steps) clause.now one other)
        (λ o. IsOpen (is_set trail.now.steps) clause.now one other o.literal) }
{
    let (front, back) = clause.split_at(position.min(clause.len()));
    match first_open(trail, back, one, other) {
        Some(open) => Some(Open {
            literal: open.literal,
            position: open.position.saturating_add(front.len()),
        }),
        None => first_open(trail, front, one, other),
    }
}

impl State {
    /// Visits the watch at index `i` of the list of the literal that became false at place `head`. The answer is the
    /// clause's id where it is false.
    fn visit(&mut self, list: &mut WatchList, head: usize, i: usize) -> Mem<Option<u32>>
        requires state { IsState self.old }
        requires index { i < length list.old }
        requires visited { IsVisiting self.old head list.old (i + 1) }
        ensures state { OnOk result (IsState self.new) }
        ensures grows { OnOk result (Grows self.old self.new) }
        ensures length { OnOk result (i ≤ length list.new) }
        ensures visited { IfOk result (λ r. IfNone r (IsVisiting self.new head list.new i)) }
        ensures conflict { IfOk result (λ r. IfSome r (λ id. IsConflict (held_in self.new) self.new.trail.steps id)) }
        ensures stopped { IfOk result (λ r. IfSome r (λ id. IsVisiting self.new head list.new (i + 1))) }
    {
        let watch = list.get(i);
        if self.trail.is_set(watch.blocker) {
            return Ok(None);
        }
        let false_one = self.trail.step(head).literal.opposite();
        let other = other_of(self.watches.pair(watch.place), false_one);
        let kept = Watch {
            place: watch.place,
            blocker: other,
        };
        if self.trail.is_set(other) {
            list.set(i, kept);
            return Ok(None);
        }
        let id = watch.place + 1;
        let position = self.clauses.position(watch.place);
        let clause = self.clauses.clause(id);
        match open_literal(&self.trail, clause, position, false_one, other) {
            Some(open) => {
                self.clauses.set_position(watch.place, open.position);
                self.watches.move_to(watch.place, open.literal, other)?;
                list.remove(i);
                Ok(None)
            }
            None => {
                if self.trail.is_set(other.opposite()) {
                    return Ok(Some(id));
                }
                self.trail.push(other, id)?;
                list.set(i, kept);
                Ok(None)
            }
        }
    }

    /// Visits a whole list, up to the first clause that is false.
    fn visit_list(&mut self, list: &mut WatchList, head: usize) -> Mem<Option<u32>>
        requires state { IsState self.old }
        requires visited { IsVisiting self.old head list.old (length list.old) }
        ensures state { OnOk result (IsState self.new) }
        ensures grows { OnOk result (Grows self.old self.new) }
        ensures visited { IfOk result (λ r. IfNone r (IsVisiting self.new head list.new 0)) }
        ensures conflict { IfOk result (λ r. IfSome r (λ id. IsConflict (held_in self.new) self.new.trail.steps id)) }
        ensures stopped { IfOk result (λ r. IfSome r (λ id. (n : ℕ) × IsVisiting self.new head list.new n)) }
    {
        let mut i = list.len();
        while i > 0 {
            i -= 1;
            match self.visit(list, head, i)? {
                Some(id) => return Ok(Some(id)),
                None => {}
            }
        }
        Ok(None)
    }

    /// Draws the consequences of the literal at place `head`.
    fn propagate_one(&mut self, alloc: Global, head: usize) -> Mem<Option<u32>>
        requires state { IsState self.old }
        requires within { head < length self.old.trail.steps }
        requires watching { IsWatchingAt self.old head }
        ensures state { OnOk result (IsState self.new) }
        ensures grows { OnOk result (Grows self.old self.new) }
        ensures watching { IfOk result (λ r. IfNone r (IsWatchingAt self.new (head + 1))) }
        ensures conflict { IfOk result (λ r. IfSome r (λ id. IsConflict (held_in self.new) self.new.trail.steps id)) }
        ensures stopped { IfOk result (λ r. IfSome r (λ id. IsWatchingAt self.new head)) }
    {
        let false_one = self.trail.step(head).literal.opposite();
        let mut list = self.watches.take_list(alloc, false_one);
        let conflict = self.visit_list(&mut list, head)?;
        self.watches.put_list(false_one, list);
        Ok(conflict)
    }

    /// Sets what the clauses force, until all is drawn or a clause is false. The answer is then that clause's id.
    pub fn propagate(&mut self, alloc: Global, head: &mut usize) -> Mem<Option<u32>>
        requires state { IsState self.old }
        requires within { head.old ≤ length self.old.trail.steps }
        requires watching { IsWatchingAt self.old head.old }
        ensures state { OnOk result (IsState self.new) }
        ensures grows { OnOk result (Grows self.old self.new) }
        ensures within { OnOk result (head.new ≤ length self.new.trail.steps) }
        ensures watching { OnOk result (IsWatchingAt self.new head.new) }
        ensures conflict { IfOk result (λ r. IfSome r (λ id. IsConflict (held_in self.new) self.new.trail.steps id)) }
        ensures drawn { IfOk result (λ r. IfNone r (head.new ≡ length self.new.trail.steps)) }
    {
        while *head < self.trail.len() {
            match self.propagate_one(alloc, *head)? {
                Some(id) => return Ok(Some(id)),
                None => {}
            }
            *head += 1;
        }
        Ok(None)
    }
}
