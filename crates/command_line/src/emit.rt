// The words of `emit`.
ghost use Rattle.std.specs.Prelude.{◌≡◌, ◌≤◌, map, string_bytes, IfOk, IfSome, option_map};
ghost use Rattle.clap.specs.Words.{app_of};
ghost use Rattle.command_line.specs.Lines.{emit_app, what_of, emission_by, emit_by, emit_line, request_line};
ghost use Rattle.command_line.specs.Asking.{IsInRange, HasRanges};
ghost use Rattle.command_line.specs.Rows.{rows_in};

use crate::number::{number_in, required_number};
use crate::request::{Emission, Request, What, limits, with_limits};
use crate::words::{is_word, matches, required, value};
use base::Mem;
use clap::{ArgMatches, Command};
use std::alloc::Global;

fn emit_command<'a>(alloc: Global) -> Mem<Command<'a>>
    ensures { IfOk result (λ command. app_of command ≡ emit_app) }
{
    let file = Command::new(alloc, "emit").arg(required(alloc, "FILE"))?;
    let goal = file.arg(required_number(alloc, "GOAL", 1, 1000000000))?;
    let what = goal.arg(required(alloc, "WHAT"))?;
    let command = with_limits(alloc, what)?;
    Ok(command)
}

// What is to be written, by its word.
fn what_of(word: &str) -> Option<What>
    ensures { result ≡ what_of word.now }
{
    if is_word(word.as_bytes(), "cnf") {
        Some(What::Cnf)
    } else if is_word(word.as_bytes(), "lrat") {
        Some(What::Lrat)
    } else {
        None
    }
}

fn wanted(matches: &ArgMatches) -> Option<Emission>
    ensures value { result ≡ emission_by (rows_in matches.now) }
    ensures goal { IfSome result (λ e. (1 ≤ e.goal) × (e.goal ≤ 1000000000)) }
    ensures limits { IfSome result (λ e. IsInRange e.limits) }
{
    let goal = number_in(1, 1000000000, value(matches, "GOAL")?)?;
    let what = what_of(value(matches, "WHAT")?)?;
    let limits = limits(matches)?;
    Some(Emission { goal, what, limits })
}

fn emit_of<'a>(matches: &Option<ArgMatches<'a>>) -> Option<Request<'a>>
    ensures line { option_map request_line result ≡ emit_by (option_map rows_in matches.now) }
    ensures ranges { IfSome result HasRanges }
{
    match matches {
        None => None,
        Some(matches) => {
            let file = value(matches, "FILE")?;
            let emission = wanted(matches)?;
            Some(Request::Emit(file, emission))
        }
    }
}

/// What the words ask for where they are an `emit`, or nothing where `clap` refuses them.
#[tactic(auto, unfolding(crate::specs::Lines::emit_line))]
pub fn emit<'a>(alloc: Global, words: &'a [String]) -> Mem<Option<Request<'a>>>
    ensures line { IfOk result
        (λ r. option_map request_line r ≡ emit_line (map (λ w. string_bytes w) words.entry.now)) }
    ensures ranges { IfOk result (λ r. IfSome r HasRanges) }
{
    let command = emit_command(alloc)?;
    let matches = matches(command, words)?;
    Ok(emit_of(&matches))
}
