//! The first tokens. Every production takes its tokens through these functions, so that one place decides where a text
//! stops to be a file.
ghost use Rattle.std.specs.Prelude.{◌≡◌, false, [], ◌∷◌, MatchOption, ◌==◌};
ghost use Rattle.rml_phrases.specs.Language.{place_of};
ghost use Rattle.rml_phrases.specs.Reading.{number, Reads, Follows, begins, expect_at};

use base::Refused;
use rml_lex::{Kind, Token};

/// Why the reading stopped, with the tokens from there on.
#[derive(Clone, Copy)]
pub enum Stop<'a> {
    /// No file goes on with this token.
    Unexpected(&'a [Token]),
    /// This token opens one level too many.
    TooDeep(&'a [Token]),
}

/// A value, and the tokens behind what spells it.
pub type Read<'a, T> = Result<(T, &'a [Token]), Refused<Stop<'a>>>;

// Whether the kinds are one: `==`, by cases.
fn is_one_kind(a: Kind, b: Kind) -> bool
    ensures { result ≡ (number a == number b) }
{
    match (a, b) {
        (Kind::Name, Kind::Name) | (Kind::Number, Kind::Number) => true,
        (Kind::Word(v), Kind::Word(w)) => v == w,
        (Kind::Sign(s), Kind::Sign(t)) => s == t,
        _ => false,
    }
}

/// The tokens behind one of this kind, where it comes first.
pub fn after(kind: Kind, tokens: &[Token]) -> Option<&[Token]>
    ensures { MatchOption result
        (begins (kind ∷ []) tokens.now ≡ false)
        (λ rest. Follows kind tokens.now rest.now) }
{
    match tokens {
        [] => None,
        [token, rest @ ..] => {
            if is_one_kind(kind, token.kind) {
                Some(rest)
            } else {
                None
            }
        }
    }
}

/// The token of this kind that is due.
pub fn expect(kind: Kind, tokens: &[Token]) -> Read<'_, Token>
    ensures { Reads (λ x. x) result (expect_at kind) tokens.now }
{
    match tokens {
        [] => Err(Refused::For(Stop::Unexpected(tokens))),
        [token, rest @ ..] => {
            if is_one_kind(kind, token.kind) {
                Ok((*token, rest))
            } else {
                Err(Refused::For(Stop::Unexpected(tokens)))
            }
        }
    }
}

/// The place of the first token.
pub fn start(tokens: &[Token]) -> u64
    ensures { result ≡ place_of tokens.now }
{
    match tokens {
        [] => 0,
        [token, ..] => token.start,
    }
}
