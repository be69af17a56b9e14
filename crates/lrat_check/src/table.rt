// The held clauses in flat tables, with the set of the literals that are set during a step.
use crate::hints::{mark_false, run_hints};
use crate::marks::next_epoch;
use crate::spans::{Span, find};
use base::{Mem, place_of};
use cnf_base::{Lit, LitSet};
use lrat_log::{Outcome, RefusalCode};
use std::alloc::Global;
use std::marker::Model;

/// Clauses under increasing ids. A deleted clause keeps its span, which is no longer held.
#[derive(Drop)]
pub struct Table {
    spans: Vec<Span>,
    literals: Vec<Lit>,
    set: LitSet,
    marks: Vec<u32>,
    epoch: u32,
}

impl Model for Table {
    ghost use Rattle.lrat_check.specs.TableValue.{TableValue};

    ghost Value = { TableValue };

    ghost use Rattle.lrat_check.specs.TableState.{value_of_table, IsTable};

    ghost view = { value_of_table };

    ghost invariant = { IsTable };
}

ghost use Rattle.std.specs.Prelude.{◌≡◌, ℕ, ◌+◌, ◌<◌, ◌≤◌, false, List, [], ◌∷◌, length, All, IfOk, OnOk, OnErr};
ghost use Rattle.std.specs.Prelude.{get_or, slice_set, if◌then◌else◌};
ghost use Rattle.cnf_base.specs.declared.cnf.Entry.{Entry};
ghost use Rattle.cnf_base.specs.declared.cnf.Entry.TheVariants.{Clause, True};
ghost use Rattle.cnf_base.specs.Clauses.{has_opposites};
ghost use Rattle.lrat_log.specs.Held.{with_entry, without};
ghost use Rattle.lrat_log.specs.Accepted.{outcome_of_addition, outcome_of_deletion};
ghost use Rattle.cnf_base.specs.LitSetValue.{set_of};
ghost use Rattle.lrat_check.specs.Spans.{marked, AreSorted, held_in, AreWithin, AreUpTo};
ghost use Rattle.lrat_check.specs.TableValue.{held_by_table};
ghost use Rattle.lrat_check.specs.declared.spans.Span.{Span};

// Marks the span of each id, until it meets one that is not held or marked already.
fn check_ids(spans: &[Span], marks: &mut [u32], epoch: u32, ids: &[u32]) -> Outcome
    requires sorted { AreSorted spans.now }
    requires marks_size { length marks.old ≡ length spans.now }
    requires past { AreUpTo epoch marks.old }
    requires fresh { (x : ℕ) → marked marks.old epoch x ≡ false }
    ensures outcome { (literals : List ℕ) → result ≡ outcome_of_deletion (held_in literals spans.now) ids.now }
    ensures past { AreUpTo epoch marks.new }
{
    for id in ids {
        match find(spans, *id) {
            None => return Outcome::Refused(RefusalCode::UnknownId),
            Some(place) => {
                if !spans[place].is_held || marks[place] == epoch {
                    return Outcome::Refused(RefusalCode::UnknownId);
                }
                marks[place] = epoch;
            }
        }
    }
    Outcome::Accepted
}

// The span at a place is no longer held.
fn release(spans: &mut [Span], place: usize)
    requires { place < length spans.old }
    ensures { (d : Span) → spans.new
        ≡ slice_set spans.old place (record (get_or spans.old place d) { is_held = false }) }
{
    let span = spans[place];
    spans[place] = Span {
        id: span.id,
        start: span.start,
        end: span.end,
        is_true: span.is_true,
        is_held: false,
    };
}

fn delete_id(spans: &mut [Span], id: u32)
    requires sorted { AreSorted spans.old }
    ensures held { (literals : List ℕ) (k : ℕ) → held_in literals spans.new k
        ≡ without (held_in literals spans.old) (id ∷ []) k }
    ensures sorted { AreSorted spans.new }
    ensures within { (n : ℕ) → AreWithin spans.old n → AreWithin spans.new n }
    ensures ids { (k : ℕ) (d : Span) → (get_or spans.new k d).id ≡ (get_or spans.old k d).id }
{
    if let Some(place) = find(spans, id) {
        release(spans, place);
    }
}

fn delete_ids(spans: &mut [Span], ids: &[u32])
    requires sorted { AreSorted spans.old }
    ensures held { (literals : List ℕ) (k : ℕ) → held_in literals spans.new k
        ≡ without (held_in literals spans.old) ids.now k }
    ensures sorted { AreSorted spans.new }
    ensures within { (n : ℕ) → AreWithin spans.old n → AreWithin spans.new n }
    ensures ids { (k : ℕ) (d : Span) → (get_or spans.new k d).id ≡ (get_or spans.old k d).id }
{
    for id in ids {
        delete_id(spans, *id);
    }
}

// Whether an addition is accepted, and whether it has opposite literals.
fn check_clause(
    set: &mut LitSet,
    spans: &[Span],
    literals: &[Lit],
    clause: &[Lit],
    hints: &[u32],
) -> Mem<(Outcome, bool)>
    requires sorted { AreSorted spans.now }
    requires within { AreWithin spans.now (length literals.now) }
    requires empty { (x : ℕ) → set_of set.old x ≡ false }
    ensures outcome { IfOk result (λ r. r.0
        ≡ outcome_of_addition (held_in literals.now spans.now) clause.now hints.now) }
    ensures opposites { IfOk result (λ r. r.1 ≡ has_opposites clause.now) }
{
    let is_true = mark_false(set, clause)?;
    if is_true {
        return Ok((Outcome::Accepted, true));
    }
    let outcome = run_hints(set, spans, literals, hints)?;
    Ok((outcome, false))
}

// Where a clause ends that stands behind so many literals.
fn end_of(literals: usize, clause: usize) -> Mem<u32>
    ensures { IfOk result (λ end. end ≡ literals + clause) }
{
    let end = place_of(literals.saturating_add(clause))?;
    Ok(end)
}

impl Table {
    /// A table without clauses, with room for so many.
    pub fn new(alloc: Global, clauses: usize) -> Mem<Table>
        ensures { IfOk result (λ t. (t.spans ≡ []) × (t.literals ≡ [])) }
    {
        Ok(Table {
            spans: Vec::with_capacity(alloc, clauses)?,
            literals: Vec::new(alloc),
            set: LitSet::new(alloc),
            marks: Vec::with_capacity(alloc, clauses)?,
            epoch: 0,
        })
    }

    /// Whether an addition is accepted, and whether it has opposite literals.
    pub fn check_addition(&mut self, clause: &[Lit], hints: &[u32]) -> Mem<(Outcome, bool)>
        ensures outcome { IfOk result (λ r. r.0 ≡ outcome_of_addition (held_by_table self.old) clause.now hints.now) }
        ensures opposites { IfOk result (λ r. r.1 ≡ has_opposites clause.now) }
        ensures same { self.new ≡ self.old }
    {
        self.set.clear();
        let checked = check_clause(
            &mut self.set,
            self.spans.as_slice(),
            self.literals.as_slice(),
            clause,
            hints,
        )?;
        Ok(checked)
    }

    /// Whether a deletion is accepted: each id in turn is still held.
    pub fn check_deletion(&mut self, ids: &[u32]) -> Outcome
        ensures outcome { result ≡ outcome_of_deletion (held_by_table self.old) ids.now }
        ensures same { self.new ≡ self.old }
    {
        self.epoch = next_epoch(self.marks.as_mut_slice(), self.epoch);
        check_ids(
            self.spans.as_slice(),
            self.marks.as_mut_slice(),
            self.epoch,
            ids,
        )
    }

    /// The clauses of these ids are no longer held.
    pub fn delete(&mut self, ids: &[u32])
        ensures held { (k : ℕ) → held_by_table self.new k ≡ without (held_by_table self.old) ids.now k }
        ensures ids { (k : ℕ) (d : Span) → (get_or self.new.spans k d).id ≡ (get_or self.old.spans k d).id }
        ensures len { length self.new.spans ≡ length self.old.spans }
    {
        delete_ids(self.spans.as_mut_slice(), ids);
    }

    /// Holds a clause under a new id, which is above all others.
    pub fn add(&mut self, id: u32, clause: &[Lit], is_true: bool) -> Mem<()>
        requires { All (λ s. s.id < id) self.old.spans }
        ensures ok { OnOk result ((k : ℕ) → held_by_table self.new k
            ≡ with_entry (held_by_table self.old) id (if is_true then True else Clause clause.now) k) }
        ensures err { OnErr result ((k : ℕ) → held_by_table self.new k ≡ held_by_table self.old k) }
        ensures spans_ok { OnOk result (All (λ s. s.id ≤ id) self.new.spans) }
        ensures spans_err { OnErr result (self.new.spans ≡ self.old.spans) }
    {
        let start = self.literals.len();
        let end = end_of(start, clause.len())?;
        self.set.allow(clause.len());
        self.literals.extend_from_slice(clause)?;
        self.spans.reserve(1)?;
        self.marks.push(0)?;
        self.spans.push(Span {
            id,
            start: start as u32,
            end,
            is_true,
            is_held: true,
        })?;
        Ok(())
    }
}
