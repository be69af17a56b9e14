//! Expressions, one function for each production and each level of binding, so that no precedence is looked up.
ghost use Rattle.std.specs.Prelude.{◌≡◌, true, false, Some, [], ◌∷◌, ◌++◌, IfNone, IfSome, IfOk, Ok};
ghost use Rattle.rml_terms.specs.Tree as node;
ghost use Rattle.rml_terms.specs.Tree.{expr_tree, expr_trees, applied, joined, compared, conditional, nested, implied};
ghost use Rattle.rml_terms.specs.Tree.{equivalent};
ghost use Rattle.rml_phrases.specs.Reading.{Reads, begins, made_at, both_at, after_at, between_at, more_at, expect_at};
ghost use Rattle.rml_terms.specs.Reading.{piece, inners, arguments_at, enclosed_at, prim_at, comparison_at, cmp_at};
ghost use Rattle.rml_terms.specs.Reading.{unary_at, and_at, or_at, imp_at, iff_at, expr_at, binder_at, body_at};
ghost use Rattle.rml_terms.specs.Reading.{bound_at, exprs_at, three_at};

use crate::naming::name;
use crate::tree::{Binder, Expr, Name, Quantifier};
use base::{Mem, Refused};
use rml_lex::{Kind, Sign, Token, Word};
use rml_phrases::{Read, Stop, after, expect, start};
use std::alloc::Global;

// ---- the nodes

fn truth(start: u64) -> Expr
    ensures { expr_tree result ≡ node.True start }
{
    Expr::True(start)
}

fn falsity(start: u64) -> Expr
    ensures { expr_tree result ≡ node.False start }
{
    Expr::False(start)
}

fn application(name: Name, args: Vec<Expr>) -> Expr
    ensures { expr_tree result ≡ applied (name, expr_trees args.items) }
{
    Expr::Apply(name, args)
}

fn choice(alloc: Global, start: u64, condition: Expr, first: Expr, second: Expr) -> Mem<Expr>
    ensures { IfOk result (λ e. expr_tree e ≡
        node.Ite start (expr_tree condition) (expr_tree first) (expr_tree second)) }
{
    let condition = Box::new(alloc, condition)?;
    let first = Box::new(alloc, first)?;
    Ok(Expr::Ite(start, condition, first, Box::new(alloc, second)?))
}

fn comparison(alloc: Global, start: u64, left: Expr, is_equal: bool, right: Expr) -> Mem<Expr>
    ensures { IfOk result (λ e. expr_tree e ≡
        compared (start, (expr_tree left, Some (is_equal, expr_tree right)))) }
{
    let left = Box::new(alloc, left)?;
    let right = Box::new(alloc, right)?;
    let equation = Expr::Equal(start, left, right);
    if is_equal {
        return Ok(equation);
    }
    Ok(Expr::Not(start, Box::new(alloc, equation)?))
}

fn negation(alloc: Global, start: u64, operand: Expr) -> Mem<Expr>
    ensures { IfOk result (λ e. expr_tree e ≡ node.Not start (expr_tree operand)) }
{
    Ok(Expr::Not(start, Box::new(alloc, operand)?))
}

fn conjunction(start: u64, mut all: Vec<Expr>) -> Expr
    ensures { expr_tree result ≡ joined node.And (start, expr_trees all.items) }
{
    if all.len() == 1
        && let Some(one) = all.pop()
    {
        return one;
    }
    Expr::And(start, all)
}

fn disjunction(start: u64, mut all: Vec<Expr>) -> Expr
    ensures { expr_tree result ≡ joined node.Or (start, expr_trees all.items) }
{
    if all.len() == 1
        && let Some(one) = all.pop()
    {
        return one;
    }
    Expr::Or(start, all)
}

fn implication(alloc: Global, start: u64, left: Expr, right: Expr) -> Mem<Expr>
    ensures { IfOk result (λ e. expr_tree e ≡
        node.Implies start (expr_tree left) (expr_tree right)) }
{
    let left = Box::new(alloc, left)?;
    Ok(Expr::Implies(start, left, Box::new(alloc, right)?))
}

fn equivalence(alloc: Global, start: u64, left: Expr, right: Expr) -> Mem<Expr>
    ensures { IfOk result (λ e. expr_tree e ≡ node.Iff start (expr_tree left) (expr_tree right)) }
{
    let left = Box::new(alloc, left)?;
    Ok(Expr::Iff(start, left, Box::new(alloc, right)?))
}

fn quantification(
    alloc: Global,
    quantifier: Quantifier,
    start: u64,
    binder: Binder,
    body: Expr,
) -> Mem<Expr>
    ensures { IfOk result (λ e. expr_tree e ≡
        node.Quantified quantifier start binder (expr_tree body)) }
{
    let body = Box::new(alloc, body)?;
    Ok(Expr::Quantified(quantifier, start, binder, body))
}

// ---- what is no expression

// "=" or "~=", where one of them comes first.
#[tactic(auto, unfolding(crate::specs::Reading::comparison_at))]
fn equality(tokens: &[Token]) -> Option<(bool, &[Token])>
    ensures none { IfNone result (begins (Kind.Sign Sign.Equal ∷ Kind.Sign Sign.NotEqual ∷ []) tokens.now ≡ false) }
    ensures some { IfSome result (λ x. begins (Kind.Sign Sign.Equal ∷ Kind.Sign Sign.NotEqual ∷ []) tokens.now ≡ true) }
    ensures value { IfSome result (λ x. comparison_at tokens.now ≡ Ok (x.0, x.1.now)) }
{
    match tokens {
        [token, rest @ ..] => match token.kind {
            Kind::Sign(Sign::Equal) => Some((true, rest)),
            Kind::Sign(Sign::NotEqual) => Some((false, rest)),
            _ => None,
        },
        [] => None,
    }
}

/// NAME ":" NAME
#[tactic(auto, unfolding(crate::specs::Reading::binder_at))]
pub fn binder(tokens: &[Token]) -> Read<'_, Binder>
    ensures { Reads (λ x. x) result binder_at tokens.now }
{
    let (bound, rest) = name(tokens)?;
    let (_, rest) = expect(Kind::Sign(Sign::Colon), rest)?;
    let (sort, rest) = name(rest)?;
    Ok((Binder { name: bound, sort }, rest))
}

// An expression whose parenthesis is to be closed.
fn closed(inner: Expr, tokens: &[Token]) -> Read<'_, Expr>
    ensures { Reads expr_tree result
        (made_at (λ t. expr_tree inner)
        (expect_at (Kind.Sign Sign.CloseParen)))
        tokens.now }
{
    let (_, rest) = expect(Kind::Sign(Sign::CloseParen), tokens)?;
    Ok((inner, rest))
}

// The parts of an "ite" whose parenthesis is to be closed.
fn ite_closed(
    alloc: Global,
    word: Token,
    parts: (Expr, Expr, Expr),
    tokens: &[Token],
) -> Read<'_, Expr>
    ensures { Reads expr_tree result
        (made_at (λ t. conditional (word, ((expr_tree parts.0, expr_tree parts.1), expr_tree parts.2)))
        (expect_at (Kind.Sign Sign.CloseParen)))
        tokens.now }
{
    let (_, rest) = expect(Kind::Sign(Sign::CloseParen), tokens)?;
    let (condition, first, second) = parts;
    Ok((choice(alloc, word.start, condition, first, second)?, rest))
}

// ---- the productions

// NAME ["(" exprs ")"], behind the name.
#[cycle(terms)]
#[tactic(auto, unfolding(crate::specs::Reading::arguments_at))]
fn after_name<'a>(alloc: Global, levels: u8, name: Name, tokens: &'a [Token]) -> Read<'a, Expr>
    ensures { Reads expr_tree result
        (made_at (λ args. applied (name, args))
        (arguments_at (inners levels)))
        tokens.now }
{
    let Some(inside) = after(Kind::Sign(Sign::OpenParen), tokens) else {
        return Ok((application(name, Vec::new(alloc)), tokens));
    };
    if levels == 0 {
        return Err(Refused::For(Stop::TooDeep(tokens)));
    }
    let (args, rest) = exprs(alloc, levels - 1, inside)?;
    let (_, rest) = expect(Kind::Sign(Sign::CloseParen), rest)?;
    Ok((application(name, args), rest))
}

// "ite" "(" expr "," expr "," expr ")", behind the word.
#[cycle(terms)]
fn ite<'a>(alloc: Global, levels: u8, word: Token, tokens: &'a [Token]) -> Read<'a, Expr>
    ensures { Reads expr_tree result
        (made_at (λ x. conditional (word, x))
        (between_at (Kind.Sign Sign.OpenParen) (piece (λ r. r.three) (inners levels)) (Kind.Sign Sign.CloseParen)))
        tokens.now }
{
    let Some(inside) = after(Kind::Sign(Sign::OpenParen), tokens) else {
        return Err(Refused::For(Stop::Unexpected(tokens)));
    };
    if levels == 0 {
        return Err(Refused::For(Stop::TooDeep(tokens)));
    }
    let (parts, rest) = three(alloc, levels - 1, inside)?;
    ite_closed(alloc, word, parts, rest)
}

// expr "," expr "," expr
#[cycle(terms)]
#[tactic(auto, unfolding(crate::specs::Reading::three_at))]
fn three<'a>(alloc: Global, levels: u8, tokens: &'a [Token]) -> Read<'a, (Expr, Expr, Expr)>
    ensures { Reads (λ x. ((expr_tree x.0, expr_tree x.1), expr_tree x.2)) result
        (three_at (inners levels))
        tokens.now }
{
    let (first, rest) = expr(alloc, levels, tokens)?;
    let (_, rest) = expect(Kind::Sign(Sign::Comma), rest)?;
    let (second, rest) = expr(alloc, levels, rest)?;
    let (_, rest) = expect(Kind::Sign(Sign::Comma), rest)?;
    let (third, rest) = expr(alloc, levels, rest)?;
    Ok(((first, second, third), rest))
}

#[cycle(terms)]
#[tactic(auto, unfolding(crate::specs::Reading::prim_at))]
fn prim<'a>(alloc: Global, levels: u8, tokens: &'a [Token]) -> Read<'a, Expr>
    ensures { Reads expr_tree result (prim_at (inners levels)) tokens.now }
{
    match tokens {
        [] => Err(Refused::For(Stop::Unexpected(tokens))),
        [token, rest @ ..] => match token.kind {
            Kind::Word(Word::True) => Ok((truth(token.start), rest)),
            Kind::Word(Word::False) => Ok((falsity(token.start), rest)),
            Kind::Name => after_name(alloc, levels, Name::of(token), rest),
            Kind::Word(Word::Ite) => ite(alloc, levels, *token, rest),
            Kind::Sign(Sign::OpenParen) => {
                if levels == 0 {
                    return Err(Refused::For(Stop::TooDeep(tokens)));
                }
                let (inner, rest) = expr(alloc, levels - 1, rest)?;
                closed(inner, rest)
            }
            _ => Err(Refused::For(Stop::Unexpected(tokens))),
        },
    }
}

// prim [("=" | "~=") prim]
#[cycle(terms)]
#[tactic(auto, unfolding(crate::specs::Reading::cmp_at, crate::specs::Reading::right_at))]
fn cmp<'a>(alloc: Global, levels: u8, tokens: &'a [Token]) -> Read<'a, Expr>
    ensures { Reads expr_tree result (cmp_at (inners levels)) tokens.now }
{
    let (left, rest) = prim(alloc, levels, tokens)?;
    let Some((is_equal, next)) = equality(rest) else {
        return Ok((left, rest));
    };
    let (right, rest) = prim(alloc, levels, next)?;
    let comparison = comparison(alloc, start(tokens), left, is_equal, right)?;
    Ok((comparison, rest))
}

// "~" unary | cmp
#[cycle(terms)]
#[tactic(auto, unfolding(crate::specs::Reading::unary_at))]
fn unary<'a>(alloc: Global, levels: u8, tokens: &'a [Token]) -> Read<'a, Expr>
    ensures { Reads expr_tree result (unary_at (inners levels)) tokens.now }
{
    match tokens {
        [token, inside @ ..] if token.kind == Kind::Sign(Sign::Not) => {
            if levels == 0 {
                return Err(Refused::For(Stop::TooDeep(tokens)));
            }
            let (operand, rest) = unary(alloc, levels - 1, inside)?;
            Ok((negation(alloc, token.start, operand)?, rest))
        }
        _ => cmp(alloc, levels, tokens),
    }
}

// unary {"&" unary}
#[cycle(terms)]
#[tactic(auto, unfolding(crate::specs::Reading::and_at))]
fn and<'a>(alloc: Global, levels: u8, tokens: &'a [Token]) -> Read<'a, Expr>
    ensures { Reads expr_tree result (and_at (inners levels)) tokens.now }
{
    let (first, rest) = unary(alloc, levels, tokens)?;
    if after(Kind::Sign(Sign::And), rest).is_none() {
        return Ok((first, rest));
    }
    let mut all = Vec::new(alloc);
    all.push(first)?;
    let (all, rest) = more_ands(alloc, levels, all, rest)?;
    Ok((conjunction(start(tokens), all), rest))
}

#[cycle(terms)]
fn more_ands<'a>(
    alloc: Global,
    levels: u8,
    mut all: Vec<Expr>,
    tokens: &'a [Token],
) -> Read<'a, Vec<Expr>>
    ensures { Reads (λ v. expr_trees v.items) result
        (made_at (λ xs. expr_trees all.items ++ xs)
        (more_at (Kind.Sign Sign.And) (unary_at (inners levels))))
        tokens.now }
{
    let mut rest = tokens;
    while let Some(next) = after(Kind::Sign(Sign::And), rest) {
        let (next, left) = unary(alloc, levels, next)?;
        all.push(next)?;
        rest = left;
    }
    Ok((all, rest))
}

// and {"|" and}
#[cycle(terms)]
#[tactic(auto, unfolding(crate::specs::Reading::or_at))]
fn or<'a>(alloc: Global, levels: u8, tokens: &'a [Token]) -> Read<'a, Expr>
    ensures { Reads expr_tree result (or_at (inners levels)) tokens.now }
{
    let (first, rest) = and(alloc, levels, tokens)?;
    if after(Kind::Sign(Sign::Or), rest).is_none() {
        return Ok((first, rest));
    }
    let mut all = Vec::new(alloc);
    all.push(first)?;
    let (all, rest) = more_ors(alloc, levels, all, rest)?;
    Ok((disjunction(start(tokens), all), rest))
}

#[cycle(terms)]
fn more_ors<'a>(
    alloc: Global,
    levels: u8,
    mut all: Vec<Expr>,
    tokens: &'a [Token],
) -> Read<'a, Vec<Expr>>
    ensures { Reads (λ v. expr_trees v.items) result
        (made_at (λ xs. expr_trees all.items ++ xs)
        (more_at (Kind.Sign Sign.Or) (and_at (inners levels))))
        tokens.now }
{
    let mut rest = tokens;
    while let Some(next) = after(Kind::Sign(Sign::Or), rest) {
        let (next, left) = and(alloc, levels, next)?;
        all.push(next)?;
        rest = left;
    }
    Ok((all, rest))
}

// or ["->" imp]
#[cycle(terms)]
#[tactic(auto, unfolding(crate::specs::Reading::imp_at))]
fn imp<'a>(alloc: Global, levels: u8, tokens: &'a [Token]) -> Read<'a, Expr>
    ensures { Reads expr_tree result (imp_at (inners levels)) tokens.now }
{
    let (left, rest) = or(alloc, levels, tokens)?;
    let Some(inside) = after(Kind::Sign(Sign::Arrow), rest) else {
        return Ok((left, rest));
    };
    if levels == 0 {
        return Err(Refused::For(Stop::TooDeep(rest)));
    }
    let (right, rest) = imp(alloc, levels - 1, inside)?;
    Ok((implication(alloc, start(tokens), left, right)?, rest))
}

// imp ["<->" imp]
#[cycle(terms)]
#[tactic(auto, unfolding(crate::specs::Reading::iff_at))]
fn iff<'a>(alloc: Global, levels: u8, tokens: &'a [Token]) -> Read<'a, Expr>
    ensures { Reads expr_tree result (iff_at (inners levels)) tokens.now }
{
    let (left, rest) = imp(alloc, levels, tokens)?;
    let Some(next) = after(Kind::Sign(Sign::DoubleArrow), rest) else {
        return Ok((left, rest));
    };
    let (right, rest) = imp(alloc, levels, next)?;
    Ok((equivalence(alloc, start(tokens), left, right)?, rest))
}

// ("forall" | "exists") bound | iff
#[cycle(terms)]
#[tactic(auto, unfolding(crate::specs::Reading::expr_at))]
pub fn expr<'a>(alloc: Global, levels: u8, tokens: &'a [Token]) -> Read<'a, Expr>
    ensures { Reads expr_tree result (expr_at (inners levels)) tokens.now }
{
    let [token, inside @ ..] = tokens else {
        return iff(alloc, levels, tokens);
    };
    let quantifier = match token.kind {
        Kind::Word(Word::Forall) => Quantifier::Forall,
        Kind::Word(Word::Exists) => Quantifier::Exists,
        _ => return iff(alloc, levels, tokens),
    };
    if levels == 0 {
        return Err(Refused::For(Stop::TooDeep(tokens)));
    }
    bound(alloc, levels - 1, quantifier, token.start, inside)
}

// binder ("." expr | "," bound), behind a quantifier at `start` or a comma of its list.
#[cycle(terms)]
#[tactic(auto, unfolding(crate::specs::Reading::bound_at))]
fn bound<'a>(
    alloc: Global,
    levels: u8,
    quantifier: Quantifier,
    start: u64,
    tokens: &'a [Token],
) -> Read<'a, Expr>
    ensures { Reads expr_tree result
        (made_at (λ b. nested quantifier start b)
        (bound_at (inners levels)))
        tokens.now }
{
    let (binder, rest) = binder(tokens)?;
    let (body, rest) = body(alloc, levels, quantifier, start, rest)?;
    Ok((
        quantification(alloc, quantifier, start, binder, body)?,
        rest,
    ))
}

// "." expr | "," bound
#[cycle(terms)]
#[tactic(auto, unfolding(crate::specs::Reading::body_at))]
fn body<'a>(
    alloc: Global,
    levels: u8,
    quantifier: Quantifier,
    start: u64,
    tokens: &'a [Token],
) -> Read<'a, Expr>
    ensures { Reads expr_tree result
        (made_at (λ b. nested quantifier start b)
        (body_at (inners levels)))
        tokens.now }
{
    match tokens {
        [] => Err(Refused::For(Stop::Unexpected(tokens))),
        [token, rest @ ..] => match token.kind {
            Kind::Sign(Sign::Dot) => expr(alloc, levels, rest),
            Kind::Sign(Sign::Comma) => {
                if levels == 0 {
                    return Err(Refused::For(Stop::TooDeep(tokens)));
                }
                bound(alloc, levels - 1, quantifier, start, rest)
            }
            _ => Err(Refused::For(Stop::Unexpected(tokens))),
        },
    }
}

// expr {"," expr}
#[cycle(terms)]
#[tactic(auto, unfolding(crate::specs::Reading::exprs_at))]
fn exprs<'a>(alloc: Global, levels: u8, tokens: &'a [Token]) -> Read<'a, Vec<Expr>>
    ensures { Reads (λ v. expr_trees v.items) result (exprs_at (inners levels)) tokens.now }
{
    let (first, rest) = expr(alloc, levels, tokens)?;
    let mut all = Vec::new(alloc);
    all.push(first)?;
    more_exprs(alloc, levels, all, rest)
}

#[cycle(terms)]
fn more_exprs<'a>(
    alloc: Global,
    levels: u8,
    mut all: Vec<Expr>,
    tokens: &'a [Token],
) -> Read<'a, Vec<Expr>>
    ensures { Reads (λ v. expr_trees v.items) result
        (made_at (λ xs. expr_trees all.items ++ xs)
        (more_at (Kind.Sign Sign.Comma) (expr_at (inners levels))))
        tokens.now }
{
    let mut rest = tokens;
    while let Some(next) = after(Kind::Sign(Sign::Comma), rest) {
        let (next, left) = expr(alloc, levels, next)?;
        all.push(next)?;
        rest = left;
    }
    Ok((all, rest))
}

/// "(" exprs ")"
pub fn enclosed<'a>(alloc: Global, levels: u8, tokens: &'a [Token]) -> Read<'a, Vec<Expr>>
    ensures { Reads (λ v. expr_trees v.items) result (enclosed_at (inners levels)) tokens.now }
{
    let Some(inside) = after(Kind::Sign(Sign::OpenParen), tokens) else {
        return Err(Refused::For(Stop::Unexpected(tokens)));
    };
    if levels == 0 {
        return Err(Refused::For(Stop::TooDeep(tokens)));
    }
    let (args, rest) = exprs(alloc, levels - 1, inside)?;
    let (_, rest) = expect(Kind::Sign(Sign::CloseParen), rest)?;
    Ok((args, rest))
}

/// ["(" exprs ")"]
#[tactic(auto, unfolding(crate::specs::Reading::arguments_at))]
pub fn arguments<'a>(alloc: Global, levels: u8, tokens: &'a [Token]) -> Read<'a, Vec<Expr>>
    ensures { Reads (λ v. expr_trees v.items) result (arguments_at (inners levels)) tokens.now }
{
    match after(Kind::Sign(Sign::OpenParen), tokens) {
        Some(_) => enclosed(alloc, levels, tokens),
        None => Ok((Vec::new(alloc), tokens)),
    }
}
