// The tables are looked up with what stands at a fault.
ghost use Rattle.std.specs.Prelude.{◌≡◌, ◌≤◌, [], length, map};
ghost use Rattle.std.specs.List.{AllByRecursion};
ghost use Rattle.rml_lex.specs.Tokens.{EndsBy};
ghost use Rattle.told_fault.specs.Hints.{first_begun, fits, first_fitting, begins_with, begins_command, round_at};
ghost use Rattle.told_fault.specs.Hints.{is_semicolon, may_separate, or_semicolon, byte_hint, hint_of, token_hint};
ghost use Rattle.told_fault.specs.Hints.{code_hint, fault_hint};

use crate::hint::{BYTE_ROWS, Hint, NAME_ROWS, PAIR_ROWS, TOKEN_ROWS};
use rml_lex::{FaultCode, Kind, Sign, Token, Word, word};

// The words at a fault, and in front of it.
#[derive(Clone, Copy)]
struct Round<'a> {
    earlier: &'a [u8],
    before: &'a [u8],
    here: &'a [u8],
    // a command may begin with the token
    begins: bool,
}

// The hint of the first row with which the bytes begin.
fn first_begun(rows: &[(&str, Hint)], bytes: &[u8]) -> Option<Hint>
    ensures { result ≡ first_begun (map (λ row. (row.0.now, row.1)) rows.now) bytes.now }
{
    let mut rest = rows;
    while let [(begin, hint), after @ ..] = rest {
        if bytes.starts_with(begin.as_bytes()) {
            return Some(*hint);
        }
        rest = after;
    }
    None
}

// Whether the word is that of a row, or the row has none.
fn fits(pattern: &str, spelled: &[u8]) -> bool
    ensures { result ≡ fits pattern.now spelled.now }
{
    match pattern.as_bytes() {
        [] => true,
        bytes => bytes == spelled,
    }
}

// The hint of the first row that fits.
fn first_fitting(rows: &[(&str, &str, &str, Hint)], it: &Round) -> Option<Hint>
    ensures { result ≡ first_fitting (map (λ row. (row.0.now, row.1.now, row.2.now, row.3)) rows.now)
        (record {
          earlier = it.now.earlier.now;
          before = it.now.before.now;
          here = it.now.here.now;
          begins = it.now.begins;
        }) }
{
    let mut rest = rows;
    while let [(earlier, before, here, hint), after @ ..] = rest {
        if fits(earlier, it.earlier) && fits(before, it.before) && fits(here, it.here) {
            return Some(*hint);
        }
        rest = after;
    }
    None
}

// Whether a command begins with the word.
fn begins_with(word: Word) -> bool
    ensures { result ≡ begins_with word }
{
    match word {
        Word::Skip | Word::Abort | Word::Assume | Word::Assert | Word::If => true,
        Word::Choose | Word::Insert | Word::Remove | Word::Put => true,
        _ => false,
    }
}

// Whether a command may begin with a token of the kind.
fn begins_command(kind: Kind) -> bool
    ensures { result ≡ begins_command kind }
{
    match kind {
        Kind::Name => true,
        Kind::Word(word) => begins_with(word),
        _ => false,
    }
}

fn is_semicolon(kind: Kind) -> bool
    ensures { result ≡ is_semicolon kind }
{
    match kind {
        Kind::Sign(Sign::Semicolon) => true,
        _ => false,
    }
}

// Whether a semicolon is among the kinds.
fn may_separate(kinds: &[Kind]) -> bool
    ensures { result ≡ may_separate kinds.now }
{
    let mut rest = kinds;
    while let [kind, after @ ..] = rest {
        if is_semicolon(*kind) {
            return true;
        }
        rest = after;
    }
    false
}

fn or_semicolon(found: Option<Hint>, missing: bool) -> Option<Hint>
    ensures { result ≡ or_semicolon found missing }
{
    match found {
        Some(hint) => Some(hint),
        None => { if missing { Some(Hint::Semicolon) } else { None } }
    }
}

// The words at a place, and in front of it.
fn words_round<'a>(text: &'a [u8], tokens: &[Token], at: u64) -> Round<'a>
    requires { AllByRecursion (EndsBy (length text.now)) tokens.now }
    ensures { record {
      earlier = result.earlier.now;
      before = result.before.now;
      here = result.here.now;
      begins = result.begins;
    }
        ≡ round_at text.now at [] [] tokens.now }
{
    let mut earlier: &[u8] = &[];
    let mut before: &[u8] = &[];
    let mut rest = tokens;
    while let [token, after @ ..] = rest {
        let here = word(text, token);
        if token.start >= at {
            let begins = begins_command(token.kind);
            return Round {
                earlier,
                before,
                here,
                begins,
            };
        }
        earlier = before;
        before = here;
        rest = after;
    }
    Round {
        earlier,
        before,
        here: &[],
        begins: false,
    }
}

// The hint of what stands round a token, where these kinds may stand.
fn hint_of(round: &Round, kinds: &[Kind]) -> Option<Hint>
    ensures { result ≡ hint_of (record {
      earlier = round.now.earlier.now;
      before = round.now.before.now;
      here = round.now.here.now;
      begins = round.now.begins;
    }) kinds.now }
{
    let found = first_fitting(&TOKEN_ROWS, round);
    let missing = round.begins && may_separate(kinds);
    or_semicolon(found, missing)
}

/// What is written in the place of what stands at a bad byte, if a hint is known.
pub fn byte_hint(text: &[u8], at: u64) -> Option<Hint>
    requires { at ≤ length text.now }
    ensures { result ≡ byte_hint text.now at }
{
    match first_begun(&PAIR_ROWS, &text[at.saturating_sub(1) as usize..]) {
        Some(hint) => Some(hint),
        None => first_begun(&BYTE_ROWS, &text[at as usize..]),
    }
}

/// What is written in the place of what stands round an unexpected token, where these kinds may stand, if a hint is
/// known.
pub fn token_hint(text: &[u8], tokens: &[Token], at: u64, kinds: &[Kind]) -> Option<Hint>
    requires { AllByRecursion (EndsBy (length text.now)) tokens.now }
    ensures { result ≡ token_hint text.now tokens.now at kinds.now }
{
    let round = words_round(text, tokens, at);
    hint_of(&round, kinds)
}

// What is written in the place of what is wrong with names, sorts and formulas.
fn code_hint(code: FaultCode) -> Option<Hint>
    ensures { result ≡ code_hint code }
{
    match code {
        FaultCode::NotATerm => Some(Hint::Formulas),
        FaultCode::BadTarget => Some(Hint::Becomes),
        FaultCode::TakenName => Some(Hint::NewName),
        FaultCode::FunctionCycle => Some(Hint::Cycle),
        FaultCode::NotExistsForall | FaultCode::NotUniversal => Some(Hint::Witness),
        FaultCode::TooManyPaths => Some(Hint::Paths),
        _ => None,
    }
}

/// What is written in the place of what is wrong at this place with the names, sorts and formulas of a text, if a hint
/// is known.
pub fn fault_hint(text: &[u8], at: u64, code: FaultCode) -> Option<Hint>
    requires { at ≤ length text.now }
    ensures { result ≡ fault_hint text.now at code }
{
    match code {
        FaultCode::UnknownName => first_begun(&NAME_ROWS, &text[at as usize..]),
        other => code_hint(other),
    }
}
