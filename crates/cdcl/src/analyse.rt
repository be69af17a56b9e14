// From a conflict back to a clause that follows.
ghost use Rattle.std.specs.Prelude.{List, ◌≡◌, ◌≢◌, ◌⊎◌, ℕ, true, false, not, ◌==◌, ◌&&◌, ◌||◌, ◌+◌, ◌<◌, ◌≤◌, []};
ghost use Rattle.std.specs.Prelude.{◌^◌, length, All, IfOk, OnOk, reverse, Some, min};
ghost use Rattle.cnf_base.specs.declared.cnf.Entry.TheVariants.{Clause};
ghost use Rattle.cnf_base.specs.Literals.{opposite, member};
ghost use Rattle.lrat_log.specs.Learnt.{IsResolvent, IsQuiet, IsLearnt};
ghost use Rattle.cdcl.specs.Trail.{reason_at, was_set, IsBelow, IsConflict};
ghost use Rattle.lrat_log.specs.Held.{held_by};
ghost use Rattle.cdcl.specs.Learning.{is_marked, is_except, HasTops, AreBeforeSecond, IsSecond};
ghost use Rattle.cdcl.specs.Holding.{IsHolding};

use crate::trail::{Step, Trail};
use base::Mem;
use cdcl_tables::{Clauses, Order};
use cnf_base::Lit;
use std::alloc::Global;

/// What a conflict gives: the learnt literals, from the newest on, and the hints, from the last on.
#[derive(Drop)]
pub struct Learnt {
    pub literals: Vec<Lit>,
    pub hints: Vec<u32>,
    pub tops: usize,
    pub second: usize,
}

/// The levels that an analysis tells apart: `root` is where level 1 begins, `top` where the highest level does.
#[derive(Clone, Copy)]
pub struct Levels {
    pub root: usize,
    pub top: usize,
}

/// What an analysis starts from: the id of the clause that is false, the levels, and whether nothing but decisions is
/// learnt from the top level.
#[derive(Clone, Copy)]
pub struct Analysis {
    pub conflict: u32,
    pub levels: Levels,
    pub decisions_only: bool,
}

/// A marked literal on the way down the trail: its place, how many of the marked literals were set at the top level,
/// and how many learnt ones were.
#[derive(Clone, Copy)]
pub struct Met {
    pub place: usize,
    pub open: usize,
    pub tops: usize,
}

fn is_left_out(except: &Option<Lit>, l: Lit) -> bool
    ensures { result ≡ is_except except.now l }
{
    match except {
        Some(e) => l == *e,
        None => false,
    }
}

fn newly_open(marks: &[bool], literal: Lit, trail: &Trail, top: usize) -> usize
    requires small { literal < length marks.now }
    requires size { length marks.now ≡ trail.now.size }
{
    if !marks[literal.code() as usize] && trail.was_set_from(literal, top) {
        1
    } else {
        0
    }
}

/// Marks the literals whose opposites stand in a clause, but for one literal. Counts those set at the top level.
fn mark_clause(
    marks: &mut [bool],
    clause: &[Lit],
    except: Option<Lit>,
    trail: &Trail,
    top: usize,
) -> usize
    requires small { All (λ l. (l < trail.now.size) × (opposite l < trail.now.size)) clause.now }
    requires size { length marks.old ≡ trail.now.size }
    ensures { (l : ℕ) → is_marked marks.new l ≡
        (is_marked marks.old l || (member (opposite l) clause.now && not (is_except except (opposite l)))) }
{
    let mut open = 0usize;
    for l in clause {
        if !is_left_out(&except, *l) {
            let o = l.opposite();
            open = open.wrapping_add(newly_open(marks, o, trail, top));
            marks[o.code() as usize] = true;
        }
    }
    open
}

fn unmark(marks: &mut [bool], literal: Lit)
    requires { literal < length marks.old }
    ensures { (l : ℕ) → is_marked marks.new l ≡ (is_marked marks.old l && not (l == literal)) }
{
    marks[literal.code() as usize] = false;
}

/// Whether the other literals of a reason are marked already, or set at level 0.
fn is_implied(marks: &[bool], clause: &[Lit], except: Lit, trail: &Trail, root: usize) -> bool
    requires small { All (λ l. (l < trail.now.size) × (opposite l < trail.now.size)) clause.now }
    requires size { length marks.now ≡ trail.now.size }
{
    for l in clause {
        if *l != except {
            let o = l.opposite();
            if !marks[o.code() as usize] && trail.was_set_from(o, root) {
                return false;
            }
        }
    }
    true
}

/// Whether a marked literal is learnt and not resolved: always where it was decided.
fn is_kept(
    clauses: &Clauses,
    trail: &Trail,
    marks: &[bool],
    step: &Step,
    met: Met,
    analysis: Analysis,
) -> bool
    requires tables { IsHolding clauses.now trail.now }
    requires held { (step.now.reason ≡ 0) ⊎ ((c : List ℕ) × (held_by clauses.now step.now.reason ≡ Some (Clause c))) }
    requires size { length marks.now ≡ trail.now.size }
    ensures decision { step.now.reason ≡ 0 → result ≡ true }
    ensures root { step.now.reason ≢ 0 → met.place < analysis.levels.top → met.place < analysis.levels.root
        → result ≡ false }
    ensures only { step.now.reason ≢ 0 → analysis.levels.top ≤ met.place → analysis.decisions_only ≡ true
        → result ≡ false }
{
    let levels = analysis.levels;
    if step.reason == 0 {
        return true;
    }
    if met.place >= levels.top {
        return !analysis.decisions_only && met.open == 1 && met.tops == 0;
    }
    if met.place < levels.root {
        return false;
    }
    let reason = clauses.clause(step.reason);
    !is_implied(marks, reason, step.literal, trail, levels.root)
}

/// A variable that was set above level 0 is met.
fn meet(order: &mut Order, literal: Lit, t: usize, root: usize) {
    if t >= root {
        order.bump(literal.variable());
    }
}

fn less_open(open: usize, t: usize, top: usize) -> usize {
    if t >= top { open.wrapping_sub(1) } else { open }
}

/// One more literal is learnt: one of the top level counts, up to 2.
fn count_tops(tops: usize, t: usize, top: usize) -> usize
    ensures at_top { top ≤ t → result ≡ min (tops + 1) 2 }
    ensures below { t < top → result ≡ tops }
{
    if t < top {
        tops
    } else if tops < 2 {
        tops + 1
    } else {
        2
    }
}

/// The place behind the newest learnt literal below the top level, or 0.
fn second_place(second: usize, t: usize, top: usize) -> usize
    requires { t < 2 ^ 63 }
    ensures at_top { top ≤ t → result ≡ second }
    ensures first { t < top → second ≡ 0 → result ≡ t + 1 }
    ensures later { t < top → 0 < second → result ≡ second }
{
    if t < top && second == 0 {
        t + 1
    } else {
        second
    }
}

/// Walks down the trail. A marked literal is resolved with its reason, or its opposite is learnt.
fn analyse(
    alloc: Global,
    clauses: &Clauses,
    trail: &Trail,
    marks: &mut [bool],
    order: &mut Order,
    analysis: Analysis,
) -> Mem<Learnt>
    requires tables { IsHolding clauses.now trail.now }
    requires size { length marks.old ≡ trail.now.size }
    requires clear { (l : ℕ) → is_marked marks.old l ≡ false }
    requires conflict { IsConflict (held_by clauses.now) trail.now.steps analysis.conflict }
    requires decisions { (i : ℕ) → analysis.levels.top < i → i < length trail.now.steps
        → reason_at trail.now.steps i ≢ 0 }
    ensures resolvent { IfOk result (λ w. IsResolvent (held_by clauses.now) w.literals.items (reverse w.hints.items)) }
    ensures tops { IfOk result (λ w. HasTops trail.now.steps analysis.levels.top w.literals.items w.tops) }
    ensures some { IsQuiet (held_by clauses.now) (was_set trail.now.steps analysis.levels.top)
        → IfOk result (λ w. 0 < w.tops) }
    ensures root { length trail.now.steps ≤ analysis.levels.root → length trail.now.steps ≤ analysis.levels.top
        → ((i : ℕ) → i < length trail.now.steps → reason_at trail.now.steps i ≢ 0)
        → IfOk result (λ w. w.literals.items ≡ []) }
    ensures second { IfOk result (λ w. AreBeforeSecond trail.now.steps analysis.levels.top w.literals.items w.second) }
    ensures second_at_most { IfOk result (λ w. w.second ≤ analysis.levels.top) }
    ensures second_stands { IfOk result (λ w. IsSecond trail.now.steps w.literals.items w.second) }
    ensures below { IfOk result (λ w. (x : ℕ) → member x w.literals.items ≡ true
        → IsBelow trail.now.steps (length trail.now.steps) (opposite x)) }
    ensures one { analysis.decisions_only ≡ true → IfOk result (λ w. w.tops ≤ 1) }
    ensures clear { OnOk result ((l : ℕ) → is_marked marks.new l ≡ false) }
{
    let levels = analysis.levels;
    let mut found = Vec::new(alloc);
    let mut hints = Vec::new(alloc);
    let (mut tops, mut second) = (0, 0);
    hints.push(analysis.conflict)?;
    let clause = clauses.clause(analysis.conflict);
    let mut open = mark_clause(marks, clause, None, trail, levels.top);
    let mut t = trail.len();
    while t > 0 {
        t -= 1;
        let step = trail.step(t);
        if marks[step.literal.code() as usize] {
            unmark(marks, step.literal);
            meet(order, step.literal, t, levels.root);
            let met = Met {
                place: t,
                open,
                tops,
            };
            let kept = is_kept(clauses, trail, marks, &step, met, analysis);
            open = less_open(open, t, levels.top);
            if kept {
                tops = count_tops(tops, t, levels.top);
                second = second_place(second, t, levels.top);
                found.push(step.literal.opposite())?;
            } else {
                hints.push(step.reason)?;
                let reason = clauses.clause(step.reason);
                let more = mark_clause(marks, reason, Some(step.literal), trail, levels.top);
                open = open.wrapping_add(more);
            }
        }
    }
    Ok(Learnt {
        literals: found,
        hints,
        tops,
        second,
    })
}

/// Learns a clause from a conflict above level 0. Its first literal alone was set at the top level: the first unique
/// implication point, or else the decision.
pub fn learn(
    alloc: Global,
    clauses: &Clauses,
    trail: &Trail,
    marks: &mut [bool],
    order: &mut Order,
    levels: Levels,
    conflict: u32,
) -> Mem<Learnt>
    requires tables { IsHolding clauses.now trail.now }
    requires size { length marks.old ≡ trail.now.size }
    requires clear { (l : ℕ) → is_marked marks.old l ≡ false }
    requires conflict { IsConflict (held_by clauses.now) trail.now.steps conflict }
    requires decisions { (i : ℕ) → levels.top < i → i < length trail.now.steps → reason_at trail.now.steps i ≢ 0 }
    requires quiet { IsQuiet (held_by clauses.now) (was_set trail.now.steps levels.top) }
    requires level { levels.top ≤ length trail.now.steps }
    ensures learnt { IfOk result (λ w. IsLearnt (held_by clauses.now) w.literals.items (reverse w.hints.items)) }
    ensures one { IfOk result (λ w. HasTops trail.now.steps levels.top w.literals.items 1) }
    ensures second { IfOk result (λ w. AreBeforeSecond trail.now.steps levels.top w.literals.items w.second) }
    ensures second_at_most { IfOk result (λ w. w.second ≤ levels.top) }
    ensures second_stands { IfOk result (λ w. IsSecond trail.now.steps w.literals.items w.second) }
    ensures clear { OnOk result ((l : ℕ) → is_marked marks.new l ≡ false) }
{
    let to_the_first = Analysis {
        conflict,
        levels,
        decisions_only: false,
    };
    let first = analyse(alloc, clauses, trail, marks, order, to_the_first)?;
    if first.tops == 1 {
        return Ok(first);
    }
    let to_the_decision = Analysis {
        conflict,
        levels,
        decisions_only: true,
    };
    let second = analyse(alloc, clauses, trail, marks, order, to_the_decision)?;
    Ok(second)
}

/// The hints of the empty clause, from the last on, from a conflict at level 0.
pub fn refute(
    alloc: Global,
    clauses: &Clauses,
    trail: &Trail,
    marks: &mut [bool],
    conflict: u32,
) -> Mem<Vec<u32>>
    requires tables { IsHolding clauses.now trail.now }
    requires size { length marks.old ≡ trail.now.size }
    requires clear { (l : ℕ) → is_marked marks.old l ≡ false }
    requires conflict { IsConflict (held_by clauses.now) trail.now.steps conflict }
    requires decisions { (i : ℕ) → i < length trail.now.steps → reason_at trail.now.steps i ≢ 0 }
    ensures { IfOk result (λ hints. IsResolvent (held_by clauses.now) [] (reverse hints.items)) }
{
    let end = trail.len();
    let analysis = Analysis {
        conflict,
        levels: Levels {
            root: end,
            top: end,
        },
        decisions_only: true,
    };
    let mut order = Order::none(alloc);
    let found = analyse(alloc, clauses, trail, marks, &mut order, analysis)?;
    Ok(found.hints)
}
