// From bytes to tokens: one pass over the text, in which what stands at the front is told by its first bytes.
ghost use Rattle.std.specs.Prelude.{◌≡◌, ◌≤◌, ℕ, List, false, length, map, IfOk, IfErr, Option};
ghost use Rattle.std.specs.List.{prefix_len, AllByRecursion};
ghost use Rattle.base.specs.Because.{Because};
ghost use Rattle.base.specs.Bytes.{is_digit, is_blank};
ghost use Rattle.rml_lex.specs.Bytes.{is_letter, goes_on, gap_len};
ghost use Rattle.rml_lex.specs.Spelling.{spelled, reserved, sign_at};
ghost use Rattle.rml_lex.specs.Tokens.{front_of, sign_front, IsWithin, AreTokens, IsFault, EndsBy, StandsBy, word_of};

use crate::token::Front;
use crate::{Fault, FaultCode, Kind, Sign, Token, Word};
use base::{Refused, is_blank, is_digit};
use std::alloc::Global;

// How many bytes a name may have.
const LONGEST_NAME: usize = 64;

// How many digits a number may have.
const LONGEST_NUMBER: usize = 9;

// How the reserved words are written.
const WORDS: [(&str, Word); 27] = [
    ("rml", Word::Rml),
    ("sort", Word::Sort),
    ("relation", Word::Relation),
    ("function", Word::Function),
    ("variable", Word::Variable),
    ("axiom", Word::Axiom),
    ("conjecture", Word::Conjecture),
    ("init", Word::Init),
    ("action", Word::Action),
    ("final", Word::Final),
    ("skip", Word::Skip),
    ("abort", Word::Abort),
    ("assume", Word::Assume),
    ("assert", Word::Assert),
    ("if", Word::If),
    ("else", Word::Else),
    ("choose", Word::Choose),
    ("or", Word::Or),
    ("insert", Word::Insert),
    ("remove", Word::Remove),
    ("put", Word::Put),
    ("forall", Word::Forall),
    ("exists", Word::Exists),
    ("true", Word::True),
    ("false", Word::False),
    ("ite", Word::Ite),
    ("define", Word::Define),
];

fn is_letter(b: u8) -> bool
    ensures { result ≡ is_letter b }
{
    matches!(b, b'a'..=b'z' | b'A'..=b'Z' | b'_')
}

// How many bytes stand before the first that is neither blank nor in a comment.
fn gap_len(bytes: &[u8]) -> usize
    ensures bound { result ≤ length bytes.now }
    ensures value { result ≡ gap_len false bytes.now }
{
    let mut count = 0;
    let mut inside = false;
    let mut rest = bytes;
    while let [b, after @ ..] = rest {
        if inside {
            inside = *b != b'\n';
        } else if *b == b'#' {
            inside = true;
        } else if !is_blank(*b) {
            return count;
        }
        count += 1;
        rest = after;
    }
    count
}

// How many letters and digits the bytes begin with.
fn word_len(bytes: &[u8]) -> usize
    ensures bound { result ≤ length bytes.now }
    ensures value { result ≡ prefix_len goes_on bytes.now }
{
    let mut count = 0;
    let mut rest = bytes;
    while let [b, after @ ..] = rest {
        if !is_letter(*b) && !is_digit(*b) {
            return count;
        }
        count += 1;
        rest = after;
    }
    count
}

// How many digits the bytes begin with.
fn digits_len(bytes: &[u8]) -> usize
    ensures bound { result ≤ length bytes.now }
    ensures value { result ≡ prefix_len is_digit bytes.now }
{
    let mut count = 0;
    let mut rest = bytes;
    while let [b, after @ ..] = rest {
        if !is_digit(*b) {
            return count;
        }
        count += 1;
        rest = after;
    }
    count
}

// The word of the first row with this spelling.
fn look_up(rows: &[(&str, Word)], spelling: &[u8]) -> Option<Word>
    ensures { result ≡ spelled (map (λ row. (row.0.now, row.1)) rows.now) spelling.now }
{
    let mut rest = rows;
    while let [(name, word), after @ ..] = rest {
        if name.as_bytes() == spelling {
            return Some(*word);
        }
        rest = after;
    }
    None
}

// The reserved word with this spelling.
#[tactic(auto, unfolding(crate::specs::Spelling::reserved))]
fn reserved(spelling: &[u8]) -> Option<Word>
    ensures { result ≡ reserved spelling.now }
{
    look_up(&WORDS, spelling)
}

// The sign at the front.
fn sign(bytes: &[u8]) -> Front
    ensures value { result ≡ sign_front (sign_at bytes.now) }
    ensures bound { IsWithin bytes.now result }
{
    match bytes {
        [b'<', b'-', b'>', ..] => Front::Token(Kind::Sign(Sign::DoubleArrow), 3),
        [b'-', b'>', ..] => Front::Token(Kind::Sign(Sign::Arrow), 2),
        [b':', b'=', ..] => Front::Token(Kind::Sign(Sign::Becomes), 2),
        [b'~', b'=', ..] => Front::Token(Kind::Sign(Sign::NotEqual), 2),
        [b'{', ..] => Front::Token(Kind::Sign(Sign::OpenBrace), 1),
        [b'}', ..] => Front::Token(Kind::Sign(Sign::CloseBrace), 1),
        [b'(', ..] => Front::Token(Kind::Sign(Sign::OpenParen), 1),
        [b')', ..] => Front::Token(Kind::Sign(Sign::CloseParen), 1),
        [b',', ..] => Front::Token(Kind::Sign(Sign::Comma), 1),
        [b';', ..] => Front::Token(Kind::Sign(Sign::Semicolon), 1),
        [b':', ..] => Front::Token(Kind::Sign(Sign::Colon), 1),
        [b'.', ..] => Front::Token(Kind::Sign(Sign::Dot), 1),
        [b'=', ..] => Front::Token(Kind::Sign(Sign::Equal), 1),
        [b'~', ..] => Front::Token(Kind::Sign(Sign::Not), 1),
        [b'&', ..] => Front::Token(Kind::Sign(Sign::And), 1),
        [b'|', ..] => Front::Token(Kind::Sign(Sign::Or), 1),
        [b'*', ..] => Front::Token(Kind::Sign(Sign::Star), 1),
        _ => Front::Fault(FaultCode::BadByte),
    }
}

// What stands at the front of bytes that begin with no blank and no comment.
fn front(bytes: &[u8]) -> Front
    ensures value { result ≡ front_of bytes.now }
    ensures bound { IsWithin bytes.now result }
{
    let [b, ..] = bytes else {
        return Front::End;
    };
    if is_letter(*b) {
        let count = word_len(bytes);
        if count > LONGEST_NAME {
            return Front::Fault(FaultCode::LongName);
        }
        match reserved(&bytes[..count]) {
            Some(word) => Front::Token(Kind::Word(word), count),
            None => Front::Token(Kind::Name, count),
        }
    } else if is_digit(*b) {
        let count = digits_len(bytes);
        if count > LONGEST_NUMBER || count < word_len(bytes) {
            return Front::Fault(FaultCode::BadNumber);
        }
        Front::Token(Kind::Number, count)
    } else {
        sign(bytes)
    }
}

/// The tokens of a text, or its first fault: a bad byte, a name over 64 bytes, or a number over 9 digits or with a
/// letter behind it.
pub fn lex(alloc: Global, text: &[u8]) -> Result<Vec<Token>, Refused<Fault>>
    ensures tokens { IfOk result (λ tokens. AreTokens text.now tokens.items) }
    ensures within { IfOk result (λ tokens. AllByRecursion (EndsBy (length text.now)) tokens.items) }
    ensures fault { IfErr result (Because (IsFault text.now)) }
    ensures place { IfErr result (Because (StandsBy (length text.now))) }
{
    let mut tokens = Vec::new(alloc);
    let mut rest = text;
    let mut at: u64 = 0;
    loop {
        let skipped = gap_len(rest);
        let behind = &rest[skipped..];
        let start = at + skipped as u64;
        match front(behind) {
            Front::End => return Ok(tokens),
            Front::Fault(code) => return Err(Refused::For(Fault { code, at: start })),
            Front::Token(kind, count) => {
                at = start + count as u64;
                let token = Token {
                    kind,
                    start,
                    end: at,
                };
                tokens.push(token)?;
                rest = &behind[count..];
            }
        }
    }
}

/// The bytes of a token.
pub fn word<'a>(text: &'a [u8], token: &Token) -> &'a [u8]
    requires { EndsBy (length text.now) token.now }
    ensures { result.now ≡ word_of text.now token.now }
{
    &text[token.start as usize..token.end as usize]
}
