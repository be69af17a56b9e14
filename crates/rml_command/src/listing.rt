// The paths of a block, counted before they are listed. The paths of a part are made once, from the left, and
// each path so far goes on with each of them.
ghost use Rattle.std.specs.Prelude.{◌≡◌, ◌+◌, ◌*◌, ◌^◌, ◌<◌, ◌≤◌, ◌∷◌, [], length, map, IfOk, IfErr, OnOk, IsTrue, ◌↔◌};
ghost use Rattle.std.specs.List.{AllByRecursion, flat_map};
ghost use Rattle.base.specs.Because.{Because};
ghost use Rattle.rml_command.specs.View.{primitive as primitive_view, command as command_view, commands};
ghost use Rattle.rml_command.specs.Paths.{continued, max_paths, paths_of, paths_in_turn, paths_of_each};
ghost use Rattle.rml_command.specs.Fragment.{HasFewPaths};
ghost use Rattle.rml_command.specs.Counts.{open_count, stopped_count, capped};
ghost use Rattle.rml_command.specs.Routes.{Grows, IsRoute, path_along};

use crate::block_paths::Paths;
use crate::command::{Command, Primitive};
use crate::drafts::{Drafts, only};
use crate::route::Route;
use crate::span::Span;
use base::{Mem, Refused, place_of};
use std::alloc::{AllocError, Global};

/// How many paths a block may have.
pub const MAX_PATHS: u64 = 4096;

/// A block has more than `MAX_PATHS` paths.
#[derive(Clone, Copy, Debug, PartialEq, Eq)]
pub struct TooManyPaths;

/// The paths of a block, in order. They are counted first, so that a block with too many of them is
/// refused in the time that reading it takes. Making them takes the time and memory of the block and of
/// the spans of its paths.
pub fn paths(alloc: Global, command: &Command) -> Result<Paths, Refused<TooManyPaths>>
    ensures paths { IfOk result (λ ps. ps ≡ paths_of (command_view command.now)) }
    ensures few { OnOk result (length (paths_of (command_view command.now)) ≤ max_paths) }
    ensures many { IfErr result (Because (λ cause. max_paths < length (paths_of (command_view command.now)))) }
{
    if !has_few_paths(command) {
        return Err(Refused::For(TooManyPaths));
    }
    let mut primitives = Vec::new(alloc);
    let routes = list(alloc, command, &mut primitives)?;
    Ok(Paths::new(primitives, routes))
}

/// The paths of a block that is known to have few.
pub fn few_paths(alloc: Global, command: &Command) -> Mem<Paths>
    requires { HasFewPaths (command_view command.now) }
    ensures { IfOk result (λ ps. ps ≡ paths_of (command_view command.now)) }
{
    match paths(alloc, command) {
        Ok(all) => Ok(all),
        Err(Refused::For(_)) => unreachable!(),
        Err(Refused::NoMemory) => Err(AllocError),
    }
}

/// Whether a block has at most `MAX_PATHS` paths. No path is built, and no memory is taken.
pub fn has_few_paths(command: &Command) -> bool
    ensures { IsTrue result ↔ (length (paths_of (command_view command.now)) ≤ max_paths) }
{
    let counts = count(command);
    sum(counts.onward, counts.stopped) <= MAX_PATHS
}

// How many paths go on, and how many end in abort. Both stop one above the limit.
#[derive(Clone, Copy)]
struct Counts {
    onward: u64,
    stopped: u64,
}

fn sum(a: u64, b: u64) -> u64
    ensures { result ≡ capped (a + b) }
{
    a.saturating_add(b).min(MAX_PATHS + 1)
}

fn product(a: u64, b: u64) -> u64
    ensures { result ≡ capped (a * b) }
{
    a.saturating_mul(b).min(MAX_PATHS + 1)
}

#[cycle(count)]
fn count(command: &Command) -> Counts
    ensures onward { result.onward ≡ capped (open_count (paths_of (command_view command.now))) }
    ensures stopped { result.stopped ≡ capped (stopped_count (paths_of (command_view command.now))) }
{
    match command {
        Command::Prim(Primitive::Abort) => Counts {
            onward: 0,
            stopped: 1,
        },
        Command::Prim(_) => Counts {
            onward: 1,
            stopped: 0,
        },
        Command::Seq(parts) => count_in_turn(parts),
        Command::Choose(branches) => count_of_each(branches),
    }
}

#[cycle(count)]
fn count_in_turn(parts: &[Command]) -> Counts
    ensures onward { result.onward ≡ capped (open_count (paths_in_turn (commands parts.now))) }
    ensures stopped { result.stopped ≡ capped (stopped_count (paths_in_turn (commands parts.now))) }
{
    let mut onward = 1;
    let mut stopped = 0;
    for part in parts {
        let next = count(part);
        stopped = sum(stopped, product(onward, next.stopped));
        onward = product(onward, next.onward);
    }
    Counts { onward, stopped }
}

#[cycle(count)]
fn count_of_each(branches: &[Command]) -> Counts
    ensures onward { result.onward ≡ capped (open_count (paths_of_each (commands branches.now))) }
    ensures stopped { result.stopped ≡ capped (stopped_count (paths_of_each (commands branches.now))) }
{
    let mut onward = 0;
    let mut stopped = 0;
    for branch in branches {
        let next = count(branch);
        onward = sum(onward, next.onward);
        stopped = sum(stopped, next.stopped);
    }
    Counts { onward, stopped }
}

// The routes of a command, whose primitives are listed behind those that stand.
#[cycle(list)]
fn list(alloc: Global, command: &Command, into: &mut Vec<Primitive>) -> Mem<Vec<Route>>
    ensures grown { OnOk result (Grows into.old.items into.new.items) }
    ensures routes { IfOk result (λ rs. AllByRecursion (IsRoute into.new.items) rs.items) }
    ensures paths { IfOk result (λ rs. map (path_along into.new.items) rs.items ≡ paths_of (command_view command.now)) }
{
    match command {
        Command::Prim(primitive) => {
            let routes = list_one(alloc, primitive, into)?;
            Ok(routes)
        }
        Command::Seq(parts) => {
            let routes = list_in_turn(alloc, parts, into)?;
            Ok(routes)
        }
        Command::Choose(branches) => {
            let routes = list_each(alloc, branches, into)?;
            Ok(routes)
        }
    }
}

fn list_one(alloc: Global, primitive: &Primitive, into: &mut Vec<Primitive>) -> Mem<Vec<Route>>
    ensures grown { OnOk result (Grows into.old.items into.new.items) }
    ensures routes { IfOk result (λ rs. AllByRecursion (IsRoute into.new.items) rs.items) }
    ensures paths { IfOk result
        (λ rs. map (path_along into.new.items) rs.items ≡ (primitive_view primitive.now ∷ []) ∷ []) }
{
    let start = place_of(into.len())?;
    into.push(primitive.copy(alloc)?)?;
    let span = Span {
        start,
        end: start + 1,
    };
    let routes = only(alloc, Route::of(alloc, span, primitive.is_abort()))?;
    Ok(routes)
}

#[cycle(list)]
fn list_in_turn(alloc: Global, parts: &[Command], into: &mut Vec<Primitive>) -> Mem<Vec<Route>>
    ensures grown { OnOk result (Grows into.old.items into.new.items) }
    ensures routes { IfOk result (λ rs. AllByRecursion (IsRoute into.new.items) rs.items) }
    ensures paths { IfOk result (λ rs. map (path_along into.new.items) rs.items ≡ paths_in_turn (commands parts.now)) }
{
    let mut drafts = Drafts::new(alloc)?;
    for part in parts {
        drafts = list_behind(alloc, drafts, part, into)?;
    }
    let routes = drafts.into_routes(alloc)?;
    Ok(routes)
}

// Behind aborts alone nothing is done, so no part is listed there.
#[cycle(list)]
fn list_behind(
    alloc: Global,
    drafts: Drafts,
    part: &Command,
    into: &mut Vec<Primitive>,
) -> Mem<Drafts>
    requires { AllByRecursion (IsRoute into.old.items) drafts }
    ensures grown { OnOk result (Grows into.old.items into.new.items) }
    ensures routes { IfOk result (AllByRecursion (IsRoute into.new.items)) }
    ensures paths { IfOk result
        (λ ds. map (path_along into.new.items) ds
        ≡ flat_map (continued (paths_of (command_view part.now))) (map (path_along into.old.items) drafts)) }
{
    if !drafts.goes_on() {
        return Ok(drafts);
    }
    let next = list(alloc, part, into)?;
    let longer = drafts.go_on(alloc, next)?;
    Ok(longer)
}

#[cycle(list)]
fn list_each(alloc: Global, branches: &[Command], into: &mut Vec<Primitive>) -> Mem<Vec<Route>>
    ensures grown { OnOk result (Grows into.old.items into.new.items) }
    ensures routes { IfOk result (λ rs. AllByRecursion (IsRoute into.new.items) rs.items) }
    ensures paths { IfOk result
        (λ rs. map (path_along into.new.items) rs.items ≡ paths_of_each (commands branches.now)) }
{
    let mut all = Vec::new(alloc);
    for branch in branches {
        let mut next = list(alloc, branch, into)?;
        all.append(&mut next)?;
    }
    Ok(all)
}
