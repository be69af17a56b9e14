// The path of a number in a block. How many paths go through what is left of a block tells which way the path takes, so
// none of the paths before it is built.
ghost use Rattle.std.specs.Prelude.{◌≡◌, IfOk};
ghost use Rattle.rml_syntax.specs.Tree.{command_tree, command_trees, block_of};
ghost use Rattle.branches.specs.Search.{count_through, count_through_block, counts_behind, along, along_block, behind};
ghost use Rattle.branches.specs.Search.{Adds, mark as mark_of, assert_along};

use crate::mark::{Branch, Mark, Turn};
use base::Mem;
use rml_syntax::Command;
use std::alloc::Global;

// How many paths go through a command, or the greatest number where there are more.
#[cycle(counts)]
fn count_through(command: &Command, paths: u64) -> u64
    ensures { result ≡ count_through (command_tree command.now) paths }
{
    match command {
        Command::Abort(_) => 1,
        Command::Assert(_, _) => paths.saturating_add(1),
        Command::If(_, _, a, b) => {
            let first = count_through_block(a, paths);
            let second = count_through_block(b, paths);
            first.saturating_add(second)
        }
        Command::Choose(_, branches) => {
            let mut count = 0u64;
            for branch in branches {
                let through = count_through_block(branch, paths);
                count = count.saturating_add(through);
            }
            count
        }
        Command::Skip(_) => paths,
        Command::Assume(_, _) => paths,
        Command::Insert(_, _, _) => paths,
        Command::Remove(_, _, _) => paths,
        Command::Put(_, _, _, _) => paths,
        Command::Assign(_, _, _) => paths,
    }
}

// How many paths go through a block.
#[cycle(counts)]
pub fn count_through_block(commands: &[Command], paths: u64) -> u64
    ensures { result ≡ count_through_block (block_of (command_trees commands.now)) paths }
{
    let mut count = paths;
    let mut left = commands.len();
    while left > 0 {
        left -= 1;
        count = count_through(&commands[left], count);
    }
    count
}

// How many paths begin behind each command of a block, the last command first.
fn counts_behind(alloc: Global, commands: &[Command], paths: u64) -> Mem<Vec<u64>>
    ensures { IfOk result (λ v. v.items ≡ counts_behind (block_of (command_trees commands.now)) paths) }
{
    let mut counts = Vec::new(alloc);
    let mut count = paths;
    let mut left = commands.len();
    while left > 0 {
        left -= 1;
        counts.push(count)?;
        count = count_through(&commands[left], count);
    }
    Ok(counts)
}

// An `assert` fails on the first of the paths, and is passed on all others.
fn push_assert(at: u64, number: u64, marks: &mut Vec<Mark>) -> Mem<Option<u64>>
    ensures { IfOk result (Adds (assert_along at number) marks.old.items marks.new.items) }
{
    if number == 0 {
        let turn = Turn::AssertFails;
        marks.push(Mark { at, turn })?;
        return Ok(None);
    }
    let turn = Turn::AssertPasses;
    marks.push(Mark { at, turn })?;
    Ok(Some(number - 1))
}

// The marks on the way through a command, and the number of the path behind it; none where the way ends in abort.
#[cycle(along)]
fn push_along(
    alloc: Global,
    command: &Command,
    paths: u64,
    number: u64,
    marks: &mut Vec<Mark>,
) -> Mem<Option<u64>>
    ensures { IfOk result
        (Adds (along (command_tree command.now) paths number) marks.old.items marks.new.items) }
{
    match command {
        Command::Abort(_) => Ok(None),
        Command::Assert(at, _) => push_assert(*at, number, marks),
        Command::If(at, _, a, b) => {
            let first = count_through_block(a, paths);
            if number < first {
                push_branch(alloc, *at, Turn::IfHolds, a, paths, number, marks)
            } else {
                push_branch(alloc, *at, Turn::IfFails, b, paths, number - first, marks)
            }
        }
        Command::Choose(at, branches) => {
            let count = branches.len() as u64;
            let mut left = number;
            let mut index = 0;
            for branch in branches {
                index += 1;
                let through = count_through_block(branch, paths);
                if left < through {
                    let turn = Turn::Takes(Branch {
                        number: index,
                        count,
                    });
                    return push_branch(alloc, *at, turn, branch, paths, left, marks);
                }
                left -= through;
            }
            Ok(None)
        }
        Command::Skip(_)
        | Command::Assume(_, _)
        | Command::Insert(_, _, _)
        | Command::Remove(_, _, _)
        | Command::Put(_, _, _, _)
        | Command::Assign(_, _, _) => Ok(Some(number)),
    }
}

// A mark, and what stands behind it.
#[cycle(along)]
fn push_branch(
    alloc: Global,
    at: u64,
    turn: Turn,
    commands: &[Command],
    paths: u64,
    number: u64,
    marks: &mut Vec<Mark>,
) -> Mem<Option<u64>>
    ensures { IfOk result
        (Adds (behind (mark_of at turn) (along_block (block_of (command_trees commands.now)) paths number))
        marks.old.items marks.new.items) }
{
    marks.push(Mark { at, turn })?;
    push_along_block(alloc, commands, paths, number, marks)
}

// The marks on the way through a block, and the number of the path behind it.
#[cycle(along)]
pub fn push_along_block(
    alloc: Global,
    commands: &[Command],
    paths: u64,
    number: u64,
    marks: &mut Vec<Mark>,
) -> Mem<Option<u64>>
    ensures { IfOk result (Adds (along_block (block_of (command_trees commands.now)) paths number)
        marks.old.items marks.new.items) }
{
    let mut counts = counts_behind(alloc, commands, paths)?;
    let mut left = number;
    for command in commands {
        let count = counts.pop().unwrap_or(paths);
        match push_along(alloc, command, count, left, marks)? {
            Some(next) => left = next,
            None => return Ok(None),
        }
    }
    Ok(Some(left))
}
