// Words as `clap` reads them for a command.
ghost use Rattle.std.specs.Prelude.{◌≡◌, true, false, map, string_bytes, IfOk, option_map};
ghost use Rattle.std.specs.Str.{bytes_eq};
ghost use Rattle.clap.specs.Words.{app_of, rule_of, first_of, is_simple_and_free};
ghost use Rattle.command_line.specs.Lines.{required_rule, matched};
ghost use Rattle.command_line.specs.Rows.{rows_in};

use base::Mem;
use clap::error::ErrorKind;
use clap::{Arg, ArgAction, ArgMatches, Command};
use std::alloc::{AllocError, Global};

/// Whether the bytes are those of the word.
pub fn is_word(bytes: &[u8], word: &str) -> bool
    ensures { result ≡ bytes_eq bytes.now word.now }
{
    bytes == word.as_bytes()
}

/// An argument that has to be there.
pub fn required<'a>(alloc: Global, id: &'a str) -> Arg<'a>
    ensures rule { rule_of result ≡ required_rule id.entry.now }
    ensures local { result.global ≡ false }
{
    Arg::new(alloc, id).required(true).action(ArgAction::Set)
}

/// What `clap` makes of the words for a command, or nothing where it refuses them.
pub fn matches<'a>(command: Command<'a>, words: &'a [String]) -> Mem<Option<ArgMatches<'a>>>
    requires { is_simple_and_free (app_of command) ≡ true }
    ensures { IfOk result
        (λ r. option_map rows_in r ≡ matched (app_of command.entry) (map (λ w. string_bytes w) words.entry.now)) }
{
    match command.try_get_matches_from(words) {
        Ok(matches) => Ok(Some(matches)),
        Err(error) => match error.kind() {
            ErrorKind::OutOfMemory => Err(AllocError),
            _ => Ok(None),
        },
    }
}

/// The word that was given for an argument.
pub fn value<'a>(matches: &ArgMatches<'a>, id: &str) -> Option<&'a str>
    ensures { option_map (λ s. s.now) result ≡ first_of id.now (rows_in matches.now) }
{
    matches.get_str(id)
}
