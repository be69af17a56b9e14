//! Items, and all the items of a file. An item begins with a word of its own, by which its production is chosen.
ghost use Rattle.std.specs.Prelude.{◌≡◌, [], ◌∷◌, ◌++◌};
ghost use Rattle.rml_syntax.specs.Tree as node;
ghost use Rattle.rml_syntax.specs.Tree.{item_tree, item_trees};
ghost use Rattle.rml_phrases.specs.Reading.{Reads, begins, has, both_at, made_at, many_at, after_at, between_at};
ghost use Rattle.rml_phrases.specs.Reading.{more_at};
ghost use Rattle.rml_terms.specs.Reading.{piece, name_at, names_at, parameters_at, expr_at, binder_at};
ghost use Rattle.rml_syntax.specs.Reading.{inners, named_at, block_at, elements_at, binders_at, bound_parameters_at};
ghost use Rattle.rml_syntax.specs.Reading.{plain_item_at, plain_starts, item_at, item_starts, items_at};

use crate::commands::block;
use crate::tree::{Format, Item};
use base::Refused;
use rml_lex::{Kind, Sign, Token, Word};
use rml_phrases::{Read, Stop, after, expect};
use rml_terms::{Binder, Name, binder, expr, name, names, parameters};
use std::alloc::Global;

// ---- what is behind an item's word

fn relation<'a>(alloc: Global, levels: u8, tokens: &'a [Token]) -> Read<'a, Item>
    ensures { Reads item_tree result
        (made_at (λ v. node.Relation v.0 v.1)
        (both_at name_at (parameters_at (inners levels).terms)))
        tokens.now }
{
    let (name, rest) = name(tokens)?;
    let (sorts, rest) = parameters(alloc, levels, rest)?;
    Ok((Item::Relation(name, sorts), rest))
}

fn function<'a>(alloc: Global, tokens: &'a [Token]) -> Read<'a, Item>
    ensures { Reads item_tree result
        (made_at (λ v. node.Function v.0.0 v.0.1 v.1)
        (both_at (named_at names_at) (after_at (Kind.Sign Sign.Arrow) name_at)))
        tokens.now }
{
    let (function, rest) = name(tokens)?;
    let (_, rest) = expect(Kind::Sign(Sign::Colon), rest)?;
    let (sorts, rest) = names(alloc, rest)?;
    let (_, rest) = expect(Kind::Sign(Sign::Arrow), rest)?;
    let (sort, rest) = name(rest)?;
    Ok((Item::Function(function, sorts, sort), rest))
}

fn variable<'a>(tokens: &'a [Token]) -> Read<'a, Item>
    ensures { Reads item_tree result (made_at (λ v. node.Variable v.0 v.1) (named_at name_at)) tokens.now }
{
    let (variable, rest) = name(tokens)?;
    let (_, rest) = expect(Kind::Sign(Sign::Colon), rest)?;
    let (sort, rest) = name(rest)?;
    Ok((Item::Variable(variable, sort), rest))
}

fn axiom<'a>(alloc: Global, levels: u8, tokens: &'a [Token]) -> Read<'a, Item>
    ensures { Reads item_tree result
        (made_at (λ v. node.Axiom v.0 v.1)
        (named_at (expr_at (inners levels).terms)))
        tokens.now }
{
    let (name, rest) = name(tokens)?;
    let (_, rest) = expect(Kind::Sign(Sign::Colon), rest)?;
    let (formula, rest) = expr(alloc, levels, rest)?;
    Ok((Item::Axiom(name, formula), rest))
}

fn conjecture<'a>(alloc: Global, levels: u8, tokens: &'a [Token]) -> Read<'a, Item>
    ensures { Reads item_tree result
        (made_at (λ v. node.Conjecture v.0 v.1)
        (named_at (expr_at (inners levels).terms)))
        tokens.now }
{
    let (name, rest) = name(tokens)?;
    let (_, rest) = expect(Kind::Sign(Sign::Colon), rest)?;
    let (formula, rest) = expr(alloc, levels, rest)?;
    Ok((Item::Conjecture(name, formula), rest))
}

fn action<'a>(alloc: Global, levels: u8, tokens: &'a [Token]) -> Read<'a, Item>
    ensures { Reads item_tree result
        (made_at (λ v. node.Action v.0 v.1)
        (both_at name_at (block_at (inners levels))))
        tokens.now }
{
    let (name, rest) = name(tokens)?;
    let (body, rest) = block(alloc, levels, rest)?;
    Ok((Item::Action(name, body), rest))
}

// "{" names "}"
fn names_in_braces<'a>(alloc: Global, levels: u8, tokens: &'a [Token]) -> Read<'a, Vec<Name>>
    ensures { Reads (λ v. v.items) result
        (between_at (Kind.Sign Sign.OpenBrace) (piece (λ r. r.names) (inners levels).terms) (Kind.Sign Sign.CloseBrace))
        tokens.now }
{
    let Some(inside) = after(Kind::Sign(Sign::OpenBrace), tokens) else {
        return Err(Refused::For(Stop::Unexpected(tokens)));
    };
    if levels == 0 {
        return Err(Refused::For(Stop::TooDeep(tokens)));
    }
    let (all, rest) = names(alloc, inside)?;
    let (_, rest) = expect(Kind::Sign(Sign::CloseBrace), rest)?;
    Ok((all, rest))
}

// ["=" "{" names "}"]
#[tactic(auto, unfolding(crate::specs::Reading::elements_at))]
fn elements<'a>(alloc: Global, levels: u8, tokens: &'a [Token]) -> Read<'a, Vec<Name>>
    ensures { Reads (λ v. v.items) result (elements_at (inners levels)) tokens.now }
{
    let Some(braces) = after(Kind::Sign(Sign::Equal), tokens) else {
        return Ok((Vec::new(alloc), tokens));
    };
    let (all, rest) = names_in_braces(alloc, levels, braces)?;
    Ok((all, rest))
}

fn sort<'a>(alloc: Global, levels: u8, tokens: &'a [Token]) -> Read<'a, Item>
    ensures { Reads item_tree result
        (made_at (λ v. node.Sort v.0 v.1)
        (both_at name_at (elements_at (inners levels))))
        tokens.now }
{
    let (name, rest) = name(tokens)?;
    let (elements, rest) = elements(alloc, levels, rest)?;
    Ok((Item::Sort(name, elements), rest))
}

fn more_binders<'a>(mut all: Vec<Binder>, tokens: &'a [Token]) -> Read<'a, Vec<Binder>>
    ensures { Reads (λ v. v.items) result
        (made_at (λ xs. all.items ++ xs)
        (more_at (Kind.Sign Sign.Comma) binder_at))
        tokens.now }
{
    let mut rest = tokens;
    while let Some(next) = after(Kind::Sign(Sign::Comma), rest) {
        let (next, left) = binder(next)?;
        all.push(next)?;
        rest = left;
    }
    Ok((all, rest))
}

// binder {"," binder}
#[tactic(auto, unfolding(crate::specs::Reading::binders_at))]
fn binders<'a>(alloc: Global, tokens: &'a [Token]) -> Read<'a, Vec<Binder>>
    ensures { Reads (λ v. v.items) result binders_at tokens.now }
{
    let (first, rest) = binder(tokens)?;
    let mut all = Vec::new(alloc);
    all.push(first)?;
    more_binders(all, rest)
}

// ["(" binders ")"]
#[tactic(auto, unfolding(crate::specs::Reading::bound_parameters_at))]
fn bound_parameters<'a>(alloc: Global, levels: u8, tokens: &'a [Token]) -> Read<'a, Vec<Binder>>
    ensures { Reads (λ v. v.items) result (bound_parameters_at (inners levels)) tokens.now }
{
    let Some(inside) = after(Kind::Sign(Sign::OpenParen), tokens) else {
        return Ok((Vec::new(alloc), tokens));
    };
    if levels == 0 {
        return Err(Refused::For(Stop::TooDeep(tokens)));
    }
    let (all, rest) = binders(alloc, inside)?;
    let (_, rest) = expect(Kind::Sign(Sign::CloseParen), rest)?;
    Ok((all, rest))
}

fn definition<'a>(alloc: Global, levels: u8, tokens: &'a [Token]) -> Read<'a, Item>
    ensures { Reads item_tree result
        (made_at (λ v. node.Define v.0.0 v.0.1 v.1)
        (both_at (both_at name_at (bound_parameters_at (inners levels)))
        (after_at (Kind.Sign Sign.Becomes) (expr_at (inners levels).terms))))
        tokens.now }
{
    let (name, rest) = name(tokens)?;
    let (parameters, rest) = bound_parameters(alloc, levels, rest)?;
    let (_, rest) = expect(Kind::Sign(Sign::Becomes), rest)?;
    let (value, rest) = expr(alloc, levels, rest)?;
    Ok((Item::Define(name, parameters, value), rest))
}

// ---- the productions

// An item that both formats have.
#[tactic(auto, unfolding(crate::specs::Reading::plain_item_at))]
fn plain_item<'a>(alloc: Global, levels: u8, tokens: &'a [Token]) -> Read<'a, Item>
    ensures { Reads item_tree result (plain_item_at (inners levels)) tokens.now }
{
    let [token, rest @ ..] = tokens else {
        return Err(Refused::For(Stop::Unexpected(tokens)));
    };
    match token.kind {
        Kind::Word(Word::Relation) => relation(alloc, levels, rest),
        Kind::Word(Word::Function) => function(alloc, rest),
        Kind::Word(Word::Variable) => variable(rest),
        Kind::Word(Word::Axiom) => axiom(alloc, levels, rest),
        Kind::Word(Word::Conjecture) => conjecture(alloc, levels, rest),
        Kind::Word(Word::Init) => {
            let (body, rest) = block(alloc, levels, rest)?;
            Ok((Item::Init(token.start, body), rest))
        }
        Kind::Word(Word::Action) => action(alloc, levels, rest),
        Kind::Word(Word::Final) => {
            let (body, rest) = block(alloc, levels, rest)?;
            Ok((Item::Final(token.start, body), rest))
        }
        _ => Err(Refused::For(Stop::Unexpected(tokens))),
    }
}

// An item of format 1.
#[tactic(auto, unfolding(crate::specs::Reading::item_at))]
fn item_of_one<'a>(alloc: Global, levels: u8, tokens: &'a [Token]) -> Read<'a, Item>
    ensures { Reads item_tree result (item_at Format.One (inners levels)) tokens.now }
{
    match after(Kind::Word(Word::Sort), tokens) {
        Some(rest) => {
            let (name, rest) = name(rest)?;
            Ok((Item::Sort(name, Vec::new(alloc)), rest))
        }
        None => plain_item(alloc, levels, tokens),
    }
}

// An item of format 2.
#[tactic(auto, unfolding(crate::specs::Reading::item_at))]
fn item_of_two<'a>(alloc: Global, levels: u8, tokens: &'a [Token]) -> Read<'a, Item>
    ensures { Reads item_tree result (item_at Format.Two (inners levels)) tokens.now }
{
    if let Some(rest) = after(Kind::Word(Word::Sort), tokens) {
        return sort(alloc, levels, rest);
    }
    match after(Kind::Word(Word::Define), tokens) {
        Some(rest) => definition(alloc, levels, rest),
        None => plain_item(alloc, levels, tokens),
    }
}

fn item<'a>(alloc: Global, format: Format, levels: u8, tokens: &'a [Token]) -> Read<'a, Item>
    ensures { Reads item_tree result (item_at format (inners levels)) tokens.now }
{
    match format {
        Format::One => item_of_one(alloc, levels, tokens),
        Format::Two => item_of_two(alloc, levels, tokens),
    }
}

// Whether an item that both formats have begins so.
fn begins_plain(kind: Kind) -> bool
    ensures { result ≡ has plain_starts kind }
{
    matches!(
        kind,
        Kind::Word(
            Word::Relation
                | Word::Function
                | Word::Variable
                | Word::Axiom
                | Word::Conjecture
                | Word::Init
                | Word::Action
                | Word::Final
        )
    )
}

// Whether an item begins here.
fn begins_item(format: Format, tokens: &[Token]) -> bool
    ensures { result ≡ begins (item_starts format) tokens.now }
{
    let [token, ..] = tokens else {
        return false;
    };
    match token.kind {
        Kind::Word(Word::Sort) => true,
        Kind::Word(Word::Define) => format == Format::Two,
        kind => begins_plain(kind),
    }
}

fn all_items<'a>(
    alloc: Global,
    format: Format,
    levels: u8,
    tokens: &'a [Token],
) -> Read<'a, Vec<Item>>
    ensures { Reads (λ v. item_trees v.items) result
        (many_at (item_starts format) (item_at format (inners levels)))
        tokens.now }
{
    rml_terms::terms_are_read();
    let mut all = Vec::new(alloc);
    let mut rest = tokens;
    while begins_item(format, rest) {
        let (next, left) = item(alloc, format, levels, rest)?;
        all.push(next)?;
        rest = left;
    }
    Ok((all, rest))
}

/// ["rml" NUMBER] {item}
#[tactic(auto, unfolding(crate::specs::Reading::items_at))]
pub fn items<'a>(
    alloc: Global,
    format: Format,
    levels: u8,
    tokens: &'a [Token],
) -> Read<'a, Vec<Item>>
    ensures { Reads (λ v. item_trees v.items) result (items_at format (inners levels)) tokens.now }
{
    match after(Kind::Word(Word::Rml), tokens) {
        Some(rest) => {
            let (_, rest) = expect(Kind::Number, rest)?;
            all_items(alloc, format, levels, rest)
        }
        None => all_items(alloc, format, levels, tokens),
    }
}
