//! Names, and lists of names.
ghost use Rattle.std.specs.Prelude.{◌≡◌, [], ◌∷◌, ◌++◌};
ghost use Rattle.rml_phrases.specs.Reading.{Reads, begins, made_at, more_at};
ghost use Rattle.rml_terms.specs.Reading.{inners, name_at, names_at, parameters_at};

use crate::tree::Name;
use base::Refused;
use rml_lex::{Kind, Sign, Token};
use rml_phrases::{Read, Stop, after, expect};
use std::alloc::Global;

/// NAME
pub fn name(tokens: &[Token]) -> Read<'_, Name>
    ensures { Reads (λ x. x) result name_at tokens.now }
{
    let (token, rest) = expect(Kind::Name, tokens)?;
    Ok((Name::of(&token), rest))
}

fn more_names<'a>(mut all: Vec<Name>, tokens: &'a [Token]) -> Read<'a, Vec<Name>>
    ensures { Reads (λ v. v.items) result
        (made_at (λ xs. all.items ++ xs)
        (more_at (Kind.Sign Sign.Comma) name_at))
        tokens.now }
{
    let mut rest = tokens;
    while let Some(next) = after(Kind::Sign(Sign::Comma), rest) {
        let (next, left) = name(next)?;
        all.push(next)?;
        rest = left;
    }
    Ok((all, rest))
}

/// NAME {"," NAME}
#[tactic(auto, unfolding(crate::specs::Reading::names_at))]
pub fn names<'a>(alloc: Global, tokens: &'a [Token]) -> Read<'a, Vec<Name>>
    ensures { Reads (λ v. v.items) result names_at tokens.now }
{
    let (first, rest) = name(tokens)?;
    let mut all = Vec::new(alloc);
    all.push(first)?;
    more_names(all, rest)
}

/// ["(" names ")"]
#[tactic(auto, unfolding(crate::specs::Reading::parameters_at))]
pub fn parameters<'a>(alloc: Global, levels: u8, tokens: &'a [Token]) -> Read<'a, Vec<Name>>
    ensures { Reads (λ v. v.items) result (parameters_at (inners levels)) tokens.now }
{
    let Some(inside) = after(Kind::Sign(Sign::OpenParen), tokens) else {
        return Ok((Vec::new(alloc), tokens));
    };
    if levels == 0 {
        return Err(Refused::For(Stop::TooDeep(tokens)));
    }
    let (all, rest) = names(alloc, inside)?;
    let (_, rest) = expect(Kind::Sign(Sign::CloseParen), rest)?;
    Ok((all, rest))
}
