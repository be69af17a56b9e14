// What a list of words asks for.
ghost use Rattle.std.specs.Prelude.{◌≡◌, map, string_bytes, IfOk, IfSome, option_map};
ghost use Rattle.clap.specs.Words.{app_of};
ghost use Rattle.command_line.specs.Lines.{model_app, with_limits, asked_by, check_by};
ghost use Rattle.command_line.specs.Lines.{check_line, line_of, request_line};
ghost use Rattle.command_line.specs.Asking.{default_asked, IsInRange, HasRanges};
ghost use Rattle.command_line.specs.Rows.{rows_in};

use crate::bmc::bmc;
use crate::emit::emit;
use crate::files::{lrat, replay};
use crate::houdini::houdini;
use crate::number::{number_of, number_option};
use crate::sample::sample;
use crate::words::{is_word, matches, required, value};
use base::Mem;
use clap::{ArgMatches, Command};
use std::alloc::Global;

/// What a decision may spend: ground terms (1 to 100,000), the size of ground formulas (1 to 50,000,000), and learnt
/// clauses (1 to 100,000,000).
#[derive(Clone, Copy, Debug)]
pub struct Asked {
    pub terms: u64,
    pub ground_size: u64,
    pub conflicts: u64,
}

/// What stands where no option is given: 400 ground terms, ground formulas of size 2,000,000, and 100,000 learnt
/// clauses.
pub fn default_asked() -> Asked
    ensures value { result ≡ default_asked }
    ensures ranges { IsInRange result }
{
    Asked {
        terms: 400,
        ground_size: 2_000_000,
        conflicts: 100_000,
    }
}

/// What is written of a goal.
#[derive(Clone, Copy, Debug)]
pub enum What {
    /// `cnf`: its clauses.
    Cnf,
    /// `lrat`: the log that refutes them.
    Lrat,
}

/// What is to be written: of which goal (1 to 1,000,000,000), what, and what a decision may spend.
#[derive(Clone, Copy, Debug)]
pub struct Emission {
    pub goal: u64,
    pub what: What,
    pub limits: Asked,
}

/// How far runs are followed: with at most so many actions (0 to 12), and what a decision may spend.
#[derive(Clone, Copy, Debug)]
pub struct Bound {
    pub steps: u64,
    pub limits: Asked,
}

/// A command line of the program.
#[derive(Clone, Copy, Debug)]
pub enum Request<'a> {
    /// `check FILE`: the file of a model.
    Check(&'a str, Asked),
    /// `houdini FILE`: the file of a model.
    Houdini(&'a str, Asked),
    /// `bmc FILE --steps K`: the file of a model, and how far its runs are followed.
    Bmc(&'a str, Bound),
    /// `lrat CNF LOG`: the files of a formula and of a log.
    Lrat(&'a str, &'a str),
    /// `replay MODEL REPORT`: the files of a model and of a printed report.
    Replay(&'a str, &'a str),
    /// `emit FILE GOAL WHAT`: the file of a model, and what is to be written of it.
    Emit(&'a str, Emission),
    /// `sample N`: the size of a sample model, 0 to 40.
    Sample(u64),
}

/// What the words behind the program's name ask for, or nothing where they are no command line. A call
/// for help or version is none.
pub fn read_words<'a>(alloc: Global, words: &'a [String]) -> Mem<Option<Request<'a>>>
    ensures line { IfOk result (λ r. option_map request_line r ≡ line_of (map (λ w. string_bytes w) words.entry.now)) }
    ensures ranges { IfOk result (λ r. IfSome r HasRanges) }
{
    let [command, ..] = words else {
        return Ok(None);
    };
    if is_word(command.as_bytes(), "check") {
        check(alloc, words)
    } else if is_word(command.as_bytes(), "houdini") {
        houdini(alloc, words)
    } else if is_word(command.as_bytes(), "bmc") {
        bmc(alloc, words)
    } else if is_word(command.as_bytes(), "lrat") {
        lrat(alloc, words)
    } else if is_word(command.as_bytes(), "replay") {
        replay(alloc, words)
    } else if is_word(command.as_bytes(), "emit") {
        emit(alloc, words)
    } else if is_word(command.as_bytes(), "sample") {
        sample(alloc, words)
    } else {
        Ok(None)
    }
}

/// A command with the options of a decision.
pub fn with_limits<'a>(alloc: Global, command: Command<'a>) -> Mem<Command<'a>>
    ensures { IfOk result (λ c. app_of c ≡ with_limits (app_of command.entry)) }
{
    let terms = command.arg(number_option(alloc, "terms", 1, 100000))?;
    let ground = terms.arg(number_option(alloc, "ground", 1, 50000000))?;
    let command = ground.arg(number_option(alloc, "conflicts", 1, 100000000))?;
    Ok(command)
}

/// A command that takes the file of a model and the options of a decision.
pub fn model_command<'a>(alloc: Global, word: &'a str) -> Mem<Command<'a>>
    ensures { IfOk result (λ command. app_of command ≡ model_app word.entry.now) }
{
    let file = Command::new(alloc, word).arg(required(alloc, "FILE"))?;
    let command = with_limits(alloc, file)?;
    Ok(command)
}

/// What a decision may spend, by the options.
pub fn limits(matches: &ArgMatches) -> Option<Asked>
    ensures value { result ≡ asked_by (rows_in matches.now) }
    ensures ranges { IfSome result IsInRange }
{
    let terms = number_of(1, 100000, 400, value(matches, "terms"))?;
    let ground_size = number_of(1, 50000000, 2000000, value(matches, "ground"))?;
    let conflicts = number_of(1, 100000000, 100000, value(matches, "conflicts"))?;
    Some(Asked {
        terms,
        ground_size,
        conflicts,
    })
}

fn check_of<'a>(matches: &Option<ArgMatches<'a>>) -> Option<Request<'a>>
    ensures line { option_map request_line result ≡ check_by (option_map rows_in matches.now) }
    ensures ranges { IfSome result HasRanges }
{
    match matches {
        None => None,
        Some(matches) => {
            let file = value(matches, "FILE")?;
            let asked = limits(matches)?;
            Some(Request::Check(file, asked))
        }
    }
}

/// What the words ask for where they are a `check`, whatever their first word is, or nothing where `clap` refuses them.
#[tactic(auto, unfolding(crate::specs::Lines::check_line))]
pub fn check<'a>(alloc: Global, words: &'a [String]) -> Mem<Option<Request<'a>>>
    ensures line { IfOk result
        (λ r. option_map request_line r ≡ check_line (map (λ w. string_bytes w) words.entry.now)) }
    ensures ranges { IfOk result (λ r. IfSome r HasRanges) }
{
    let command = model_command(alloc, "check")?;
    let matches = matches(command, words)?;
    Ok(check_of(&matches))
}
