// The words of `bmc`.
ghost use Rattle.std.specs.Prelude.{◌≡◌, ◌≤◌, map, string_bytes, IfOk, IfSome, option_map};
ghost use Rattle.clap.specs.Words.{app_of};
ghost use Rattle.command_line.specs.Lines.{bmc_app, bound_by, bmc_by, bmc_line, request_line};
ghost use Rattle.command_line.specs.Asking.{IsInRange, HasRanges};
ghost use Rattle.command_line.specs.Rows.{rows_in};

use crate::number::{number_in, required_option};
use crate::request::{Bound, Request, limits, with_limits};
use crate::words::{matches, required, value};
use base::Mem;
use clap::{ArgMatches, Command};
use std::alloc::Global;

fn bmc_command<'a>(alloc: Global) -> Mem<Command<'a>>
    ensures { IfOk result (λ command. app_of command ≡ bmc_app) }
{
    let file = Command::new(alloc, "bmc").arg(required(alloc, "FILE"))?;
    let steps = file.arg(required_option(alloc, "steps", 0, 12))?;
    let command = with_limits(alloc, steps)?;
    Ok(command)
}

fn wanted(matches: &ArgMatches) -> Option<Bound>
    ensures value { result ≡ bound_by (rows_in matches.now) }
    ensures steps { IfSome result (λ b. b.steps ≤ 12) }
    ensures limits { IfSome result (λ b. IsInRange b.limits) }
{
    let steps = number_in(0, 12, value(matches, "steps")?)?;
    let limits = limits(matches)?;
    Some(Bound { steps, limits })
}

fn bmc_of<'a>(matches: &Option<ArgMatches<'a>>) -> Option<Request<'a>>
    ensures line { option_map request_line result ≡ bmc_by (option_map rows_in matches.now) }
    ensures ranges { IfSome result HasRanges }
{
    match matches {
        None => None,
        Some(matches) => {
            let file = value(matches, "FILE")?;
            let bound = wanted(matches)?;
            Some(Request::Bmc(file, bound))
        }
    }
}

/// What the words ask for where they are a `bmc`, or nothing where `clap` refuses them.
#[tactic(auto, unfolding(crate::specs::Lines::bmc_line))]
pub fn bmc<'a>(alloc: Global, words: &'a [String]) -> Mem<Option<Request<'a>>>
    ensures line { IfOk result
        (λ r. option_map request_line r ≡ bmc_line (map (λ w. string_bytes w) words.entry.now)) }
    ensures ranges { IfOk result (λ r. IfSome r HasRanges) }
{
    let command = bmc_command(alloc)?;
    let matches = matches(command, words)?;
    Ok(bmc_of(&matches))
}
