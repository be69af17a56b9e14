// The words of `sample`.
ghost use Rattle.std.specs.Prelude.{◌≡◌, map, string_bytes, IfOk, IfSome, option_map};
ghost use Rattle.clap.specs.Words.{app_of};
ghost use Rattle.command_line.specs.Lines.{sample_app, sample_by, sample_line, request_line};
ghost use Rattle.command_line.specs.Asking.{HasRanges};
ghost use Rattle.command_line.specs.Rows.{rows_in};

use crate::number::{number_in, required_number};
use crate::request::Request;
use crate::words::{matches, value};
use base::Mem;
use clap::{ArgMatches, Command};
use std::alloc::Global;

fn sample_command<'a>(alloc: Global) -> Mem<Command<'a>>
    ensures { IfOk result (λ command. app_of command ≡ sample_app) }
{
    Command::new(alloc, "sample").arg(required_number(alloc, "N", 0, 40))
}

fn sample_of<'a>(matches: &Option<ArgMatches<'a>>) -> Option<Request<'a>>
    ensures line { option_map request_line result ≡ sample_by (option_map rows_in matches.now) }
    ensures ranges { IfSome result HasRanges }
{
    match matches {
        None => None,
        Some(matches) => {
            let n = number_in(0, 40, value(matches, "N")?)?;
            Some(Request::Sample(n))
        }
    }
}

/// What the words ask for where they are a `sample`, or nothing where `clap` refuses them.
#[tactic(auto, unfolding(crate::specs::Lines::sample_line))]
pub fn sample<'a>(alloc: Global, words: &'a [String]) -> Mem<Option<Request<'a>>>
    ensures line { IfOk result
        (λ r. option_map request_line r ≡ sample_line (map (λ w. string_bytes w) words.entry.now)) }
    ensures ranges { IfOk result (λ r. IfSome r HasRanges) }
{
    let command = sample_command(alloc)?;
    let matches = matches(command, words)?;
    Ok(sample_of(&matches))
}
