// Conjectures are dropped one by one. Each drop leaves fewer, so the rounds end.
ghost use Rattle.std.specs.Prelude.{◌≡◌, IfOk};
ghost use Rattle.limits.specs.Ceilings.{ceilings};
ghost use Rattle.rml_houdini.specs.Greatest.{IsFound};
ghost use Rattle.rml_houdini.specs.Progress.{IsConjecture};

use crate::houdini::{Dropped, Houdini};
use crate::known::{Known, keeping_law};
use crate::laws::{dropping_law, settled_law};
use crate::round::{Round, decide_round};
use crate::sets::{all_conjectures, without};
use base::{Mem, Row};
use lean_decide::Counted;
use limits::Limits;
use progress::{Progress, Work};
use rml_command::{About, Checked};
use std::alloc::Global;

// The conjecture that a goal is about.
fn conjecture_of(about: About) -> u32
    requires { IsConjecture about }
    ensures { about ≡ About.Conjecture result }
{
    match about {
        About::Abort => unreachable!(),
        About::Conjecture(conjecture) => conjecture,
    }
}

/// Finds the greatest set of the model's conjectures that is inductive apart from aborts: all are held at first; in
/// each round the goals of those that are held are decided in order, and the first that fails drops its conjecture. The
/// last round is one in which none fails. What was found by conjectures that are still held is not decided again, where
/// the limits are those of whole refuting sentences; where they are those of lean ones, each round decides all that it
/// counts. A lean sentence that is too large to be built is answered as want of memory (`lean_decide`).
pub fn greatest<P: Progress>(
    alloc: Global,
    checked: &Checked,
    counted: Counted,
    limits: &Limits,
    progress: &mut P,
) -> Mem<Houdini>
    ensures { IfOk result (IsFound counted (ceilings limits.now) checked.now) }
{
    dropping_law();
    settled_law();
    keeping_law();
    let _checked = checked.model();
    let mut dropped = Vec::new(alloc);
    let mut held = all_conjectures(alloc, checked)?;
    let count = held.len() as u64;
    let mut known = Known::nothing(alloc, checked)?;
    loop {
        match decide_round(alloc, checked, counted, &held, limits, &mut known)? {
            Round::Fails(shown) => {
                let conjecture = conjecture_of(shown.goal.about);
                let left = without(alloc, &held, conjecture)?;
                let held_then = Row::from_vec(held);
                dropped.push(Dropped {
                    conjecture,
                    held: held_then,
                    shown,
                })?;
                progress.tell(Work::Drops, dropped.len() as u64, count);
                held = left;
            }
            Round::Passes(unsettled) => {
                return Ok(Houdini {
                    dropped: Row::from_vec(dropped),
                    kept: Row::from_vec(held),
                    unsettled,
                });
            }
        }
    }
}
