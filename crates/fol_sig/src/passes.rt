// The order of the sorts in which the functions go upward.
ghost use Rattle.std.specs.Prelude.{◌≡◌, ◌<◌, ◌≤◌, ◌^◌, ℕ, length, All, IfOk, IfErr, OnOk};
ghost use Rattle.base.specs.Because.{Because};
ghost use Rattle.fol_sig.specs.Tables.{numbers};
ghost use Rattle.fol_sig.specs.Symbols.{Symbols, symbols};
ghost use Rattle.fol_sig.specs.Strata.{IsStrata, IsFirstCycle, IsOnCycle, with_functions};
ghost use Rattle.fol_sig.specs.Passes.{ArePlaced, AreWaiting, IsSoFar, Advances, HasOrder, HasNoCycle};

use crate::order::{Cycle, Strata};
use crate::{FunId, Signature, Sort};
use base::{Mem, Refused};
use std::alloc::Global;

/// The order of the sorts in which the functions go upward.
pub fn strata(alloc: Global, signature: &Signature) -> Result<Strata, Refused<Cycle>>
    ensures order { IfOk result (IsStrata (symbols signature.now)) }
    ensures acyclic { IfOk result (λ _. (f : ℕ) → IsOnCycle (symbols signature.now) f → ⊥) }
    ensures cycle { IfErr result (Because (λ cycle. IsFirstCycle (symbols signature.now) cycle.function.0)) }
    ensures cyclic { IfErr result (Because (λ cycle. IsOnCycle (symbols signature.now) cycle.function.0)) }
{
    match order_of(alloc, signature, signature.function_count())? {
        Some(strata) => Ok(strata),
        None => Err(Refused::For(Cycle {
            function: first_cycle(alloc, signature)?,
        })),
    }
}

// Halves the functions between those that have an order and those that have none.
fn first_cycle(alloc: Global, signature: &Signature) -> Mem<FunId>
    requires { (f : ℕ) × IsOnCycle (symbols signature.now) f }
    ensures first { IfOk result (λ f. IsFirstCycle (symbols signature.now) f.0) }
    ensures cyclic { IfOk result (λ f. IsOnCycle (symbols signature.now) f.0) }
{
    let mut ordered = 0;
    let mut cyclic = signature.function_count();
    while ordered + 1 < cyclic {
        let middle = ordered + (cyclic - ordered) / 2;
        if has_order(alloc, signature, middle)? {
            ordered = middle;
        } else {
            cyclic = middle;
        }
    }
    Ok(FunId(ordered))
}

fn has_order(alloc: Global, signature: &Signature, functions: u32) -> Mem<bool>
    requires { functions ≤ length signature.now.functions }
    ensures { IfOk result (HasNoCycle (with_functions (symbols signature.now) functions)) }
{
    Ok(order_of(alloc, signature, functions)?.is_some())
}

// The order for the first functions, if there is one.
fn order_of(alloc: Global, signature: &Signature, functions: u32) -> Mem<Option<Strata>>
    requires { functions ≤ length signature.now.functions }
    ensures { IfOk result (HasOrder (with_functions (symbols signature.now) functions)) }
{
    let mut placed = vec![in alloc; false; signature.sorts() as usize]?;
    let mut order = Vec::new(alloc);
    loop {
        let waits = waiting(alloc, signature, functions, &placed)?;
        if !place_free(&waits, &mut placed, &mut order)? {
            if placed.contains(&false) {
                return Ok(None);
            }
            return Ok(Some(Strata { order }));
        }
    }
}

// The sorts into which a function goes that takes a sort not yet placed.
fn waiting(alloc: Global, signature: &Signature, functions: u32, placed: &[bool]) -> Mem<Vec<bool>>
    requires known { functions ≤ length signature.now.functions }
    requires each { length placed.now ≡ signature.now.sorts }
    ensures { IfOk result
        (λ waits. AreWaiting (with_functions (symbols signature.now) functions) placed.now waits.items) }
{
    let mut waits = vec![in alloc; false; signature.sorts() as usize]?;
    for f in 0..functions {
        if !are_placed(placed, signature.from_of(FunId(f))) {
            waits[signature.into_of(FunId(f)).0 as usize] = true;
        }
    }
    Ok(waits)
}

fn are_placed(placed: &[bool], sorts: &[Sort]) -> bool
    requires { All (λ k. k < length placed.now) (numbers sorts.now) }
    ensures { ArePlaced placed.now (numbers sorts.now) result }
{
    for sort in sorts {
        if !placed[sort.0 as usize] {
            return false;
        }
    }
    true
}

// Places each sort that waits for none. Whether there was one.
fn place_free(waits: &[bool], placed: &mut Vec<bool>, order: &mut Vec<Sort>) -> Mem<bool>
    requires each { length waits.now ≡ length placed.old.items }
    requires few { length waits.now < 2 ^ 32 }
    ensures so_far { (sig : Symbols) → AreWaiting sig placed.old.items waits.now
        → IsSoFar sig placed.old.items (numbers order.old.items)
        → OnOk result (IsSoFar sig placed.new.items (numbers order.new.items)) }
    ensures advances { IfOk result (Advances waits.now placed.old.items placed.new.items) }
{
    let mut any = false;
    for k in 0..waits.len() {
        if waits[k] || placed[k] {
            continue;
        }
        placed[k] = true;
        order.push(Sort(k as u32))?;
        any = true;
    }
    Ok(any)
}
