// The words of `houdini`.
ghost use Rattle.std.specs.Prelude.{◌≡◌, map, string_bytes, IfOk, IfSome, option_map};
ghost use Rattle.command_line.specs.Lines.{houdini_by, houdini_line, request_line};
ghost use Rattle.command_line.specs.Asking.{HasRanges};
ghost use Rattle.command_line.specs.Rows.{rows_in};

use crate::request::{Request, limits, model_command};
use crate::words::{matches, value};
use base::Mem;
use clap::ArgMatches;
use std::alloc::Global;

fn houdini_of<'a>(matches: &Option<ArgMatches<'a>>) -> Option<Request<'a>>
    ensures line { option_map request_line result ≡ houdini_by (option_map rows_in matches.now) }
    ensures ranges { IfSome result HasRanges }
{
    match matches {
        None => None,
        Some(matches) => {
            let file = value(matches, "FILE")?;
            let asked = limits(matches)?;
            Some(Request::Houdini(file, asked))
        }
    }
}

/// What the words ask for where they are a `houdini`, or nothing where `clap` refuses them.
#[tactic(auto, unfolding(crate::specs::Lines::houdini_line))]
pub fn houdini<'a>(alloc: Global, words: &'a [String]) -> Mem<Option<Request<'a>>>
    ensures line { IfOk result
        (λ r. option_map request_line r ≡ houdini_line (map (λ w. string_bytes w) words.entry.now)) }
    ensures ranges { IfOk result (λ r. IfSome r HasRanges) }
{
    let command = model_command(alloc, "houdini")?;
    let matches = matches(command, words)?;
    Ok(houdini_of(&matches))
}
