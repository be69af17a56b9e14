// The conjectures that carry no group but their own.
ghost use Rattle.std.specs.Prelude.{◌≡◌, ◌==◌, not, IfOk};
ghost use Rattle.std.specs.List.{filter, list_any};
ghost use Rattle.model_reasons.specs.Idle.{names, is_about, serves, idle_conjectures, is_carried, are_carried};

use crate::reason::Reason;
use base::{Mem, Row};
use rml_command::{About, Checked};
use rml_houdini::all_conjectures;
use rml_reasons::{Carried, Need};
use std::alloc::Global;

fn is_needed(conjecture: u32, needs: &[Need]) -> bool
    ensures { result ≡ list_any (λ n. n.conjecture == conjecture) needs.now }
{
    needs.iter().any(|need| need.conjecture == conjecture)
}

// Whether the conjecture is one of those that carry a group.
fn names(conjecture: u32, carried: &Carried) -> bool
    ensures { result ≡ names conjecture carried.now }
{
    match carried {
        Carried::By(needs) => is_needed(conjecture, needs.as_slice()),
        Carried::Not(_) => false,
    }
}

fn is_about(conjecture: u32, about: About) -> bool
    ensures { result ≡ is_about conjecture about }
{
    match about {
        About::Abort => false,
        About::Conjecture(number) => number == conjecture,
    }
}

// Whether it carries this group, which is not about it.
fn serves(conjecture: u32, reason: &Reason) -> bool
    ensures { result ≡ serves conjecture reason.now }
{
    names(conjecture, &reason.carried) && !is_about(conjecture, reason.about)
}

fn serves_some(conjecture: u32, reasons: &[Reason]) -> bool
    ensures { result ≡ list_any (serves conjecture) reasons.now }
{
    reasons.iter().any(|reason| serves(conjecture, reason))
}

// Those of these that serve none.
fn idle_among(alloc: Global, numbers: &[u32], reasons: &[Reason]) -> Mem<Vec<u32>>
    ensures { IfOk result (λ idle. idle.items ≡ filter (λ k. not (list_any (serves k) reasons.now)) numbers.now) }
{
    let mut idle = Vec::new(alloc);
    for k in numbers {
        if !serves_some(*k, reasons) {
            idle.push(*k)?;
        }
    }
    Ok(idle)
}

/// The conjectures that carry none of these groups, or each only its own, by their numbers in the order of the file. Of
/// a group that not even all conjectures carry nothing is known.
pub fn idle(alloc: Global, checked: &Checked, reasons: &[Reason]) -> Mem<Row<u32>>
    ensures { IfOk result (λ idle. idle ≡ idle_conjectures checked.now reasons.now) }
{
    let all = all_conjectures(alloc, checked)?;
    let idle = idle_among(alloc, &all, reasons)?;
    Ok(Row::from_vec(idle))
}

fn is_carried(carried: &Carried) -> bool
    ensures { result ≡ is_carried carried.now }
{
    match carried {
        Carried::By(_) => true,
        Carried::Not(_) => false,
    }
}

/// Whether each of these groups is carried. Where one is not, it may need a conjecture that is idle among the others.
pub fn are_carried(reasons: &[Reason]) -> bool
    ensures { result ≡ are_carried reasons.now }
{
    reasons.iter().all(|reason| is_carried(&reason.carried))
}
