// A text as far as it can be read: its tokens, and their tree.
ghost use Rattle.std.specs.Prelude.{◌≡◌, ◌≤◌, length, IfOk};
ghost use Rattle.std.specs.List.{AllByRecursion};
ghost use Rattle.rml_lex.specs.Tokens.{AreTokens, EndsBy, IsFault, StandsBy};
ghost use Rattle.rml_syntax.specs.Faults as grammar;
ghost use Rattle.told_fault.specs.Readings.{IsReading, byte_advice};

use crate::hint::Hint;
use crate::looking::{byte_hint, token_hint};
use base::{Mem, Refused, Row};
use expectations::expected;
use rml_lex::{Fault, FaultCode, Kind, Token, lex};
use rml_syntax::{Tree, parse};
use std::alloc::{AllocError, Global};

/// What can be said of a text without its names and sorts.
#[derive(Drop)]
pub enum Reading {
    /// Its bytes are no tokens. What is written in the place of what stands at the fault, if a hint is known.
    NoTokens(Option<Hint>),
    /// No file goes on with one of its tokens. What may stand there, and a hint.
    Unexpected(Row<Kind>, Option<Hint>),
    /// One of its tokens opens a level too many.
    TooDeep,
    /// It has this tree.
    Parsed(Tree),
}

// The hint for a fault of the bytes: only of a bad byte is one known.
fn byte_advice(text: &[u8], fault: &Fault) -> Option<Hint>
    requires { fault.now.at ≤ length text.now }
    ensures { result ≡ byte_advice text.now fault.now }
{
    match fault.code {
        FaultCode::BadByte => byte_hint(text, fault.at),
        _ => None,
    }
}

// What is said of an unexpected token.
fn unexpected(alloc: Global, text: &[u8], tokens: &[Token], fault: &Fault) -> Mem<Reading>
    requires are_tokens { AreTokens text.now tokens.now }
    requires within { AllByRecursion (EndsBy (length text.now)) tokens.now }
    requires fault { grammar.IsFault text.now tokens.now fault.now }
    requires code { fault.now.code ≡ FaultCode.UnexpectedToken }
    ensures { IfOk result (IsReading text.now) }
{
    let kinds = expected(alloc, text, tokens, fault)?;
    let hint = token_hint(text, tokens, fault.at, &kinds);
    Ok(Reading::Unexpected(Row::from_vec(kinds), hint))
}

// The tree of the tokens, or what is said of their fault.
fn read_tokens(alloc: Global, text: &[u8], tokens: &[Token]) -> Mem<Reading>
    requires are_tokens { AreTokens text.now tokens.now }
    requires within { AllByRecursion (EndsBy (length text.now)) tokens.now }
    ensures { IfOk result (IsReading text.now) }
{
    match parse(alloc, text, tokens) {
        Ok(tree) => Ok(Reading::Parsed(tree)),
        Err(Refused::For(fault)) => {
            if fault.code == FaultCode::UnexpectedToken {
                unexpected(alloc, text, tokens, &fault)
            } else {
                Ok(Reading::TooDeep)
            }
        }
        Err(Refused::NoMemory) => Err(AllocError),
    }
}

/// Reads a text as far as it can be read.
pub fn read(alloc: Global, text: &[u8]) -> Mem<Reading>
    ensures { IfOk result (IsReading text.now) }
{
    match lex(alloc, text) {
        Ok(tokens) => {
            let reading = read_tokens(alloc, text, &tokens)?;
            Ok(reading)
        }
        Err(Refused::For(fault)) => Ok(Reading::NoTokens(byte_advice(text, &fault))),
        Err(Refused::NoMemory) => Err(AllocError),
    }
}
