// The words of the commands that take two files and nothing else: `lrat` and `replay`.
ghost use Rattle.std.specs.Prelude.{◌≡◌, map, string_bytes, IfOk, IfSome, option_map};
ghost use Rattle.clap.specs.Words.{app_of};
ghost use Rattle.command_line.specs.Lines.{files_app, lrat_by, lrat_line, replay_by, replay_line, request_line};
ghost use Rattle.command_line.specs.Asking.{HasRanges};
ghost use Rattle.command_line.specs.Rows.{rows_in};

use crate::request::Request;
use crate::words::{matches, required, value};
use base::Mem;
use clap::{ArgMatches, Command};
use std::alloc::Global;

fn files_command<'a>(
    alloc: Global,
    word: &'a str,
    first: &'a str,
    second: &'a str,
) -> Mem<Command<'a>>
    ensures { IfOk result (λ command. app_of command ≡ files_app word.entry.now first.entry.now second.entry.now) }
{
    let one = Command::new(alloc, word).arg(required(alloc, first))?;
    one.arg(required(alloc, second))
}

fn lrat_of<'a>(matches: &Option<ArgMatches<'a>>) -> Option<Request<'a>>
    ensures line { option_map request_line result ≡ lrat_by (option_map rows_in matches.now) }
    ensures ranges { IfSome result HasRanges }
{
    match matches {
        None => None,
        Some(matches) => {
            let formula = value(matches, "CNF")?;
            let log = value(matches, "LOG")?;
            Some(Request::Lrat(formula, log))
        }
    }
}

fn replay_of<'a>(matches: &Option<ArgMatches<'a>>) -> Option<Request<'a>>
    ensures line { option_map request_line result ≡ replay_by (option_map rows_in matches.now) }
    ensures ranges { IfSome result HasRanges }
{
    match matches {
        None => None,
        Some(matches) => {
            let model = value(matches, "MODEL")?;
            let report = value(matches, "REPORT")?;
            Some(Request::Replay(model, report))
        }
    }
}

/// What the words ask for where they are an `lrat`, or nothing where `clap` refuses them.
#[tactic(auto, unfolding(crate::specs::Lines::lrat_line))]
pub fn lrat<'a>(alloc: Global, words: &'a [String]) -> Mem<Option<Request<'a>>>
    ensures line { IfOk result
        (λ r. option_map request_line r ≡ lrat_line (map (λ w. string_bytes w) words.entry.now)) }
    ensures ranges { IfOk result (λ r. IfSome r HasRanges) }
{
    let command = files_command(alloc, "lrat", "CNF", "LOG")?;
    let matches = matches(command, words)?;
    Ok(lrat_of(&matches))
}

/// What the words ask for where they are a `replay`, or nothing where `clap` refuses them.
#[tactic(auto, unfolding(crate::specs::Lines::replay_line))]
pub fn replay<'a>(alloc: Global, words: &'a [String]) -> Mem<Option<Request<'a>>>
    ensures line { IfOk result
        (λ r. option_map request_line r ≡ replay_line (map (λ w. string_bytes w) words.entry.now)) }
    ensures ranges { IfOk result (λ r. IfSome r HasRanges) }
{
    let command = files_command(alloc, "replay", "MODEL", "REPORT")?;
    let matches = matches(command, words)?;
    Ok(replay_of(&matches))
}
