// Words that are numbers in a range.
ghost use Rattle.std.specs.Prelude.{◌≡◌, ◌≤◌, false, IfSome, option_map};
ghost use Rattle.clap.specs.Words.{rule_of};
ghost use Rattle.command_line.specs.Numbers.{number_option, required_option, required_number, number_in, number_of};

use clap::builder::ValueParser;
use clap::{Arg, ArgAction};
use std::alloc::Global;

/// An option that takes a number.
pub fn number_option<'a>(alloc: Global, id: &'a str, low: u64, high: u64) -> Arg<'a>
    ensures rule { rule_of result ≡ number_option id.entry.now low high }
    ensures local { result.global ≡ false }
{
    Arg::new(alloc, id)
        .long(id)
        .action(ArgAction::Set)
        .value_parser(ValueParser::unsigned(low, high))
}

/// An option that has to be there, and takes a number.
pub fn required_option<'a>(alloc: Global, id: &'a str, low: u64, high: u64) -> Arg<'a>
    ensures rule { rule_of result ≡ required_option id.entry.now low high }
    ensures local { result.global ≡ false }
{
    number_option(alloc, id, low, high).required(true)
}

/// An argument that has to be there, and is a number.
pub fn required_number<'a>(alloc: Global, id: &'a str, low: u64, high: u64) -> Arg<'a>
    ensures rule { rule_of result ≡ required_number id.entry.now low high }
    ensures local { result.global ≡ false }
{
    Arg::new(alloc, id)
        .required(true)
        .action(ArgAction::Set)
        .value_parser(ValueParser::unsigned(low, high))
}

/// The number that a word is, where it is one in this range.
pub fn number_in(low: u64, high: u64, text: &str) -> Option<u64>
    ensures value { result ≡ number_in low high text.now }
    ensures range { IfSome result (λ n. (low ≤ n) × (n ≤ high)) }
{
    match text.parse::<u64>() {
        Ok(number) => {
            if low <= number && number <= high {
                Some(number)
            } else {
                None
            }
        }
        Err(_) => None,
    }
}

/// The number of an option, or what stands for it where it is left out.
pub fn number_of(low: u64, high: u64, default: u64, word: Option<&str>) -> Option<u64>
    requires { (low ≤ default) × (default ≤ high) }
    ensures value { result ≡ number_of low high default (option_map (λ s. s.now) word.entry) }
    ensures range { IfSome result (λ n. (low ≤ n) × (n ≤ high)) }
{
    match word {
        None => Some(default),
        Some(text) => number_in(low, high, text),
    }
}
