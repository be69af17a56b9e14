// A shown run is followed again: from its first structure, path by path, each with the elements of its part.
ghost use Rattle.std.specs.Prelude.{◌≡◌, ℕ, IfSome, slice_get, Some};
ghost use Rattle.fol_sig.specs.Symbols.{symbols, FitsStructure};
ghost use Rattle.rml_command.specs.Models.{FitsPath};
ghost use Rattle.rml_exec.specs.Followed.{EndFits};
ghost use Rattle.rml_bmc.specs.declared.answer.Run.{Run};
ghost use Rattle.rml_bmc.specs.declared.answer.Length.TheVariants as answer;

use crate::Seen;
use base::Mem;
use fol_eval::{Env, holds, satisfies};
use fol_sig::Structure;
use lean_decide::Counted;
use limits::Limits;
use progress::Silent;
use rml_bmc::{Bounded, Length, Part, Run, bounded};
use rml_command::{About, Checked, Path, Stage, goal_law};
use rml_exec::{Followed, follow};
use std::alloc::Global;

// The path of a part, where there is one.
fn path_of<'a>(checked: &'a Checked, part: &Part) -> Option<Path<'a>>
    ensures { IfSome result (λ p. FitsPath (symbols checked.now.signature) p) }
{
    goal_law();
    let _checked = checked.model();
    let paths = checked.stage_paths(part.stage);
    let place = (part.trace.path as usize).saturating_sub(1);
    if place < paths.len() {
        Some(paths.path(place))
    } else {
        None
    }
}

// Whether the conjecture of this number is false.
fn is_false_at(checked: &Checked, number: u32, end: &Structure) -> bool
    requires { FitsStructure (symbols checked.now.signature) end.now }
{
    let conjectures = checked.model().conjectures();
    match conjectures.get(number as usize) {
        Some(sentence) => !holds(end, sentence.formula(), &Env::Empty),
        None => false,
    }
}

// Whether the last part did what is forbidden.
fn does_break(checked: &Checked, about: About, last: &Followed) -> bool
    requires { EndFits (symbols checked.now.signature) last.now }
{
    match (about, last) {
        (About::Abort, Followed::Aborted) => true,
        (About::Conjecture(number), Followed::Ended(end)) => is_false_at(checked, number, end),
        _ => false,
    }
}

// Whether the parts, followed one behind the other from a structure, do what is forbidden in the end.
fn follow_parts(
    alloc: Global,
    checked: &Checked,
    parts: &[Part],
    about: About,
    start: Structure,
) -> Mem<bool>
    requires { FitsStructure (symbols checked.now.signature) start }
{
    let mut now = Followed::Ended(start);
    let mut rest = parts;
    while let [part, after @ ..] = rest {
        let Followed::Ended(from) = now else {
            return Ok(false);
        };
        let Some(path) = path_of(checked, part) else {
            return Ok(false);
        };
        now = follow(alloc, checked, &path, &part.trace, &from)?;
        rest = after;
    }
    Ok(does_break(checked, about, &now))
}

// Whether the run begins where the axioms are true.
fn begins_lawfully(checked: &Checked, start: &Structure) -> bool
    requires { FitsStructure (symbols checked.now.signature) start.now }
{
    satisfies(start, checked.model().axioms())
}

// Whether a run does what it is said to do.
fn is_right(alloc: Global, checked: &Checked, run: &Run) -> Mem<bool>
    requires { FitsStructure (symbols checked.now.signature) run.now.start }
{
    if !begins_lawfully(checked, &run.start) {
        return Ok(false);
    }
    let start = run.start.copy(alloc)?;
    follow_parts(alloc, checked, run.parts.as_slice(), run.about, start)
}

fn count_run(alloc: Global, checked: &Checked, run: &Run, seen: Seen) -> Mem<Seen>
    requires { FitsStructure (symbols checked.now.signature) run.now.start }
{
    if is_right(alloc, checked, run)? {
        return Ok(Seen {
            right: seen.right.saturating_add(1),
            ..seen
        });
    }
    Ok(Seen {
        wrong: seen.wrong.saturating_add(1),
        ..seen
    })
}

// The run of the length that is broken, where one is.
fn count_runs(alloc: Global, checked: &Checked, bounded: &Bounded, seen: Seen) -> Mem<Seen>
    requires { (k : ℕ) (run : Run) → slice_get bounded.now.lengths k ≡ Some (answer.Broken run)
        → FitsStructure (symbols checked.now.signature) run.start }
{
    let lengths = bounded.lengths.as_slice();
    for k in 0..lengths.len() {
        if let Length::Broken(run) = &lengths[k] {
            return count_run(alloc, checked, run, seen);
        }
    }
    Ok(Seen {
        unbroken: seen.unbroken.saturating_add(1),
        ..seen
    })
}

/// Adds what is seen of the runs of a model with up to two actions.
pub fn follow_runs(alloc: Global, checked: &Checked, limits: &Limits, seen: Seen) -> Mem<Seen> {
    let bounded = bounded(alloc, checked, 2, Counted::Whole, limits, &mut Silent)?;
    let found = count_runs(alloc, checked, &bounded, seen);
    drop(bounded);
    found
}
