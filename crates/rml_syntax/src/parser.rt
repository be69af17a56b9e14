//! Whole texts. The grammar is read in one pass, which stops at the first token that no file goes on with: that
//! token is the text's fault, so nothing is read twice and no fault is sought apart.
ghost use Rattle.std.specs.Prelude.{◌≡◌, Some, None, length, drop, MatchResult, IfOk, IfErr};
ghost use Rattle.std.specs.List.{AllByRecursion};
ghost use Rattle.base.specs.Because.{Because};
ghost use Rattle.rml_lex.specs.Tokens.{EndsBy, StandsBy};
ghost use Rattle.rml_syntax.specs.Tree.{FileTree, item_trees, file_tree};
ghost use Rattle.rml_syntax.specs.Faults.{format_of_digits, format_of, IsTree, IsFault, place_at};
ghost use Rattle.rml_syntax.specs.Faults.{AnswersTree, AnswersFault};
ghost use Rattle.rml_syntax.specs.Within.{TreeWithin};
ghost use Rattle.rml_syntax.specs.Shape.{IsShaped};
ghost use Rattle.rml_phrases.specs.Reading.{Gives};
ghost use Rattle.rml_syntax.specs.Reading.{all_at, read_at, fault_of};

use crate::items::items;
use crate::tree::{Format, Item, Tree};
use base::Refused;
use rml_lex::{Fault, FaultCode, Kind, Token, Word, word};
use rml_phrases::Stop;
use std::alloc::Global;

// How many levels may open inside one another.
const MAX_LEVELS: u8 = 100;

// The format that these digits number.
fn format_of_digits(digits: &[u8]) -> Option<Format>
    ensures { result ≡ format_of_digits digits.now }
{
    let mut rest = digits;
    while let [digit, after @ ..] = rest {
        if *digit != b'0' {
            return match *digit {
                b'1' if after.is_empty() => Some(Format::One),
                b'2' if after.is_empty() => Some(Format::Two),
                _ => None,
            };
        }
        rest = after;
    }
    None
}

// The format of the tokens; or the tokens from the number on, where the number behind `rml` is of no format.
fn format_of<'a>(text: &[u8], tokens: &'a [Token]) -> Result<Format, &'a [Token]>
    requires { AllByRecursion (EndsBy (length text.now)) tokens.now }
    ensures { MatchResult result
        (λ format. format_of text.now tokens.now ≡ Some format)
        (λ rest. (format_of text.now tokens.now ≡ None) × (rest.now ≡ drop 1 tokens.now)) }
{
    let [rml, rest @ ..] = tokens else {
        return Ok(Format::One);
    };
    let [number, ..] = rest else {
        return Ok(Format::One);
    };
    if rml.kind != Kind::Word(Word::Rml) || number.kind != Kind::Number {
        return Ok(Format::One);
    }
    match format_of_digits(word(text, number)) {
        Some(format) => Ok(format),
        None => Err(rest),
    }
}

// All of the tokens, in this format.
#[tactic(auto, unfolding(crate::specs::Reading::all_at))]
fn all<'a>(
    alloc: Global,
    format: Format,
    levels: u8,
    tokens: &'a [Token],
) -> Result<Vec<Item>, Refused<Stop<'a>>>
    ensures { Gives (λ x. item_trees x.items) result (all_at format levels tokens.now) }
{
    let (tree, rest) = items(alloc, format, levels, tokens)?;
    match rest {
        [] => Ok(tree),
        _ => Err(Refused::For(Stop::Unexpected(rest))),
    }
}

fn read<'a>(alloc: Global, text: &[u8], tokens: &'a [Token]) -> Result<Tree, Refused<Stop<'a>>>
    requires { AllByRecursion (EndsBy (length text.now)) tokens.now }
    ensures { Gives file_tree result (read_at text.now tokens.now) }
{
    match format_of(text, tokens) {
        Ok(format) => {
            let items = all(alloc, format, MAX_LEVELS, tokens)?;
            Ok(Tree { format, items })
        }
        Err(number) => Err(Refused::For(Stop::Unexpected(number))),
    }
}

// Where the first of these tokens stands; behind the last one the text ends.
fn place_at(text: &[u8], rest: &[Token]) -> u64
    ensures { result ≡ place_at text.now rest.now }
{
    match rest {
        [] => text.len() as u64,
        [token, ..] => token.start,
    }
}

fn fault_of(text: &[u8], stop: Stop) -> Fault
    ensures { result ≡ fault_of text.now stop.entry }
{
    match stop {
        Stop::Unexpected(rest) => Fault {
            code: FaultCode::UnexpectedToken,
            at: place_at(text, rest),
        },
        Stop::TooDeep(rest) => Fault {
            code: FaultCode::DeepNesting,
            at: place_at(text, rest),
        },
    }
}

/// The tree of a text's tokens, or their first fault: an unexpected token, or one that opens a level inside 100
/// others.
pub fn parse(alloc: Global, text: &[u8], tokens: &[Token]) -> Result<Tree, Refused<Fault>>
    requires { AllByRecursion (EndsBy (length text.now)) tokens.now }
    ensures tree { IfOk result (λ tree. IsTree text.now tokens.now (file_tree tree)) }
    ensures fault { IfErr result (Because (IsFault text.now tokens.now)) }
    // the names and the nodes stand in the text
    ensures within { IfOk result (λ tree. TreeWithin (length text.now) (file_tree tree)) }
    // at most 100 binders lie inside one another, and each choice has a branch
    ensures shape { IfOk result (λ tree. IsShaped (file_tree tree)) }
    // the tree, and the fault, is answered where there is one, unless memory runs out
    ensures found { (tree : FileTree) → IsTree text.now tokens.now tree → AnswersTree result tree }
    ensures refused { (fault : Fault) → IsFault text.now tokens.now fault → AnswersFault result fault }
    ensures place { IfErr result (Because (StandsBy (length text.now))) }
{
    rml_terms::terms_are_read();
    rml_terms::terms_stand();
    rml_terms::terms_nest();
    match read(alloc, text, tokens) {
        Ok(tree) => Ok(tree),
        Err(Refused::For(stop)) => Err(Refused::For(fault_of(text, stop))),
        Err(Refused::NoMemory) => Err(Refused::NoMemory),
    }
}
