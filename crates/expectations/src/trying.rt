// Each kind is tried behind the tokens in front of a place.
ghost use Rattle.std.specs.Prelude.{◌≡◌, ◌++◌, [], ◌∷◌, ◌↔◌, length, IfOk, IsTrue};
ghost use Rattle.std.specs.List.{AllByRecursion};
ghost use Rattle.rml_lex.specs.Tokens.{EndsBy};
ghost use Rattle.rml_syntax.specs.Faults.{IsFault};
ghost use Rattle.expectations.specs.Expectations.{in_front, every_kind, behind, MayStand, AreThose, AreExpected};
ghost use Rattle.expectations.specs.Trying.{longer, IsUnexpectedAt, Says, IsFront};

use crate::kinds::EVERY_KIND;
use base::{Mem, Refused};
use rml_lex::{Fault, FaultCode, Kind, Token};
use rml_syntax::{one_tree_or_fault, parse};
use std::alloc::{AllocError, Global};

// The tokens that begin in front of a place.
#[tactic(auto, using(std::proofs::Common::append_assoc))]
fn in_front(alloc: Global, tokens: &[Token], at: u64) -> Mem<Vec<Token>>
    ensures { IfOk result (λ front. front.items ≡ in_front at tokens.now) }
{
    let mut front = Vec::new(alloc);
    let mut rest = tokens;
    while let [token, after @ ..] = rest {
        if token.start >= at {
            return Ok(front);
        }
        front.push(*token)?;
        rest = after;
    }
    Ok(front)
}

// The text with a 1 behind it.
fn longer(alloc: Global, text: &[u8]) -> Mem<Vec<u8>>
    ensures { IfOk result (λ it. it.items ≡ longer text.now) }
{
    let mut it = Vec::new(alloc);
    it.extend_from_slice(text)?;
    it.push(b'1')?;
    Ok(it)
}

// The tokens with one more of this kind, which is the 1 behind the text.
fn with_one_more(alloc: Global, text: &[u8], front: &[Token], kind: Kind) -> Mem<Vec<Token>>
    ensures { IfOk result (λ it. it.items ≡ front.now ++ behind text.now kind ∷ []) }
{
    let mut it = Vec::new(alloc);
    it.extend_from_slice(front)?;
    let start = text.len() as u64;
    it.push(Token {
        kind,
        start,
        end: start + 1,
    })?;
    Ok(it)
}

fn is_unexpected_at(fault: &Fault, last: u64) -> bool
    ensures { IsTrue result ↔ IsUnexpectedAt last fault.now }
{
    fault.code == FaultCode::UnexpectedToken && fault.at == last
}

// Whether the parser finds another fault than the last token, or none.
fn goes_on(alloc: Global, text: &[u8], tried: &[Token], last: u64) -> Mem<bool>
    requires { AllByRecursion (EndsBy (length text.now)) tried.now }
    ensures { IfOk result (λ goes. Says text.now tried.now last goes) }
{
    match parse(alloc, text, tried) {
        Ok(tree) => {
            drop(tree);
            Ok(true)
        }
        Err(Refused::For(fault)) => {
            if is_unexpected_at(&fault, last) {
                return Ok(false);
            }
            Ok(true)
        }
        Err(Refused::NoMemory) => Err(AllocError),
    }
}

// Whether a kind may stand behind the tokens in front of a fault.
fn may_stand(alloc: Global, text: &[u8], beyond: &[u8], front: &[Token], kind: Kind) -> Mem<bool>
    requires beyond { beyond.now ≡ longer text.now }
    requires front { IsFront text.now front.now }
    ensures { IfOk result (λ may. IsTrue may ↔ MayStand text.now front.now kind) }
{
    one_tree_or_fault();
    let tried = with_one_more(alloc, text, front, kind)?;
    let may = goes_on(alloc, beyond, &tried, text.len() as u64)?;
    Ok(may)
}

// The kinds, of these, that may stand behind the tokens in front of a fault.
fn those_of(
    alloc: Global,
    text: &[u8],
    beyond: &[u8],
    front: &[Token],
    all: &[Kind],
) -> Mem<Vec<Kind>>
    requires beyond { beyond.now ≡ longer text.now }
    requires front { IsFront text.now front.now }
    ensures { IfOk result (λ those. AreThose (MayStand text.now front.now) all.now those.items) }
{
    let mut those = Vec::new(alloc);
    for kind in all {
        if may_stand(alloc, text, beyond, front, *kind)? {
            those.push(*kind)?;
        }
    }
    Ok(those)
}

/// The kinds of token that may stand at the fault of a text's tokens, in order.
pub fn expected(alloc: Global, text: &[u8], tokens: &[Token], fault: &Fault) -> Mem<Vec<Kind>>
    requires tokens { AllByRecursion (EndsBy (length text.now)) tokens.now }
    requires fault { IsFault text.now tokens.now fault.now }
    ensures { IfOk result (λ kinds. AreExpected text.now tokens.now fault.now.at kinds.items) }
{
    let beyond = longer(alloc, text)?;
    let front = in_front(alloc, tokens, fault.at)?;
    let kinds = those_of(alloc, text, &beyond, &front, &EVERY_KIND)?;
    Ok(kinds)
}
