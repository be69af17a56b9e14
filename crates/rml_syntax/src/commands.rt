//! Commands, one function for each production, so that each can be held against the line of the grammar that it reads.
ghost use Rattle.std.specs.Prelude.{◌≡◌, [], ◌∷◌, ◌++◌, option_map, Some, None};
ghost use Rattle.rml_syntax.specs.Tree as node;
ghost use Rattle.rml_phrases.specs.Language.{or_none};
ghost use Rattle.rml_terms.specs.Tree.{expr_tree, expr_trees};
ghost use Rattle.rml_syntax.specs.Tree.{command_tree, command_trees, block_trees, branched, choice, inserted, removed};
ghost use Rattle.rml_syntax.specs.Tree.{putting, assigned};
ghost use Rattle.rml_phrases.specs.Reading.{Reads, begins, made_at, both_at, after_at, more_at, separated_at};
ghost use Rattle.rml_terms.specs.Reading.{name_at, names_at, parameters_at};
ghost use Rattle.rml_syntax.specs.Reading.{inners, value_at, called_at, block_at, else_block_at, if_at, put_at};
ghost use Rattle.rml_syntax.specs.Reading.{cmd_starts, cmd_at, cmds_at};

use crate::tree::Command;
use base::Refused;
use rml_lex::{Kind, Sign, Token, Word};
use rml_phrases::{Read, Stop, after, expect};
use rml_terms::{Expr, Name, arguments, enclosed, expr, name, parameters};
use std::alloc::Global;

// ---- the nodes

fn skip(start: u64) -> Command
    ensures { command_tree result ≡ node.Skip start }
{
    Command::Skip(start)
}

fn abort(start: u64) -> Command
    ensures { command_tree result ≡ node.Abort start }
{
    Command::Abort(start)
}

fn assumption(start: u64, condition: Expr) -> Command
    ensures { command_tree result ≡ node.Assume start (expr_tree condition) }
{
    Command::Assume(start, condition)
}

fn assertion(start: u64, condition: Expr) -> Command
    ensures { command_tree result ≡ node.Assert start (expr_tree condition) }
{
    Command::Assert(start, condition)
}

fn conditional(word: Token, condition: Expr, first: Vec<Command>, second: Vec<Command>) -> Command
    ensures { command_tree result ≡
        branched (word, ((expr_tree condition, command_trees first.items), command_trees second.items)) }
{
    Command::If(word.start, condition, first, second)
}

fn choice_of(word: Token, blocks: Vec<Vec<Command>>) -> Command
    ensures { command_tree result ≡ choice (word, block_trees blocks.items) }
{
    Command::Choose(word.start, blocks)
}

fn insertion(word: Token, name: Name, args: Vec<Expr>) -> Command
    ensures { command_tree result ≡ inserted (word, (name, expr_trees args.items)) }
{
    Command::Insert(word.start, name, args)
}

fn removal(word: Token, name: Name, args: Vec<Expr>) -> Command
    ensures { command_tree result ≡ removed (word, (name, expr_trees args.items)) }
{
    Command::Remove(word.start, name, args)
}

fn update(word: Token, name: Name, args: Vec<Expr>, value: Expr) -> Command
    ensures { command_tree result ≡
        putting (word, ((name, expr_trees args.items), expr_tree value)) }
{
    Command::Put(word.start, name, args, value)
}

fn assignment(name: Name, parameters: Vec<Name>, value: Option<Expr>) -> Command
    ensures { command_tree result ≡
        assigned ((name, parameters.items), option_map expr_tree value) }
{
    Command::Assign(name, parameters, value)
}

// ---- what is behind a command's first token

// "*" | expr
#[tactic(auto, unfolding(crate::specs::Reading::value_at))]
fn value<'a>(alloc: Global, levels: u8, tokens: &'a [Token]) -> Read<'a, Option<Expr>>
    ensures { Reads (option_map expr_tree) result (value_at (inners levels)) tokens.now }
{
    if let Some(rest) = after(Kind::Sign(Sign::Star), tokens) {
        return Ok((None, rest));
    }
    let (value, rest) = expr(alloc, levels, tokens)?;
    Ok((Some(value), rest))
}

fn assigns<'a>(alloc: Global, levels: u8, name: Name, tokens: &'a [Token]) -> Read<'a, Command>
    ensures { Reads command_tree result
        (made_at (λ v. assigned ((name, v.0), v.1))
        (both_at (parameters_at (inners levels).terms) (after_at (Kind.Sign Sign.Becomes) (value_at (inners levels)))))
        tokens.now }
{
    let (parameters, rest) = parameters(alloc, levels, tokens)?;
    let (_, rest) = expect(Kind::Sign(Sign::Becomes), rest)?;
    let (value, rest) = value(alloc, levels, rest)?;
    Ok((assignment(name, parameters, value), rest))
}

fn inserts<'a>(alloc: Global, levels: u8, word: Token, tokens: &'a [Token]) -> Read<'a, Command>
    ensures { Reads command_tree result
        (made_at (λ v. inserted (word, v))
        (called_at (inners levels)))
        tokens.now }
{
    let (name, rest) = name(tokens)?;
    let (args, rest) = arguments(alloc, levels, rest)?;
    Ok((insertion(word, name, args), rest))
}

fn removes<'a>(alloc: Global, levels: u8, word: Token, tokens: &'a [Token]) -> Read<'a, Command>
    ensures { Reads command_tree result
        (made_at (λ v. removed (word, v))
        (called_at (inners levels)))
        tokens.now }
{
    let (name, rest) = name(tokens)?;
    let (args, rest) = arguments(alloc, levels, rest)?;
    Ok((removal(word, name, args), rest))
}

fn puts<'a>(alloc: Global, levels: u8, word: Token, tokens: &'a [Token]) -> Read<'a, Command>
    ensures { Reads command_tree result
        (made_at (λ v. putting (word, v))
        (put_at (inners levels)))
        tokens.now }
{
    let (name, rest) = name(tokens)?;
    let (args, rest) = enclosed(alloc, levels, rest)?;
    let (_, rest) = expect(Kind::Sign(Sign::Equal), rest)?;
    let (value, rest) = expr(alloc, levels, rest)?;
    Ok((update(word, name, args, value), rest))
}

// Whether a command begins here.
fn begins_cmd(tokens: &[Token]) -> bool
    ensures { result ≡ begins cmd_starts tokens.now }
{
    match tokens {
        [] => false,
        [token, ..] => matches!(
            token.kind,
            Kind::Name
                | Kind::Word(
                    Word::Skip
                        | Word::Abort
                        | Word::Assume
                        | Word::Assert
                        | Word::If
                        | Word::Choose
                        | Word::Insert
                        | Word::Remove
                        | Word::Put
                )
        ),
    }
}

// ---- the productions

/// "{" cmds "}"
#[cycle(commands)]
#[tactic(auto, unfolding(crate::specs::Reading::block_at))]
pub fn block<'a>(alloc: Global, levels: u8, tokens: &'a [Token]) -> Read<'a, Vec<Command>>
    ensures { Reads (λ v. command_trees v.items) result (block_at (inners levels)) tokens.now }
{
    let Some(inside) = after(Kind::Sign(Sign::OpenBrace), tokens) else {
        return Err(Refused::For(Stop::Unexpected(tokens)));
    };
    if levels == 0 {
        return Err(Refused::For(Stop::TooDeep(tokens)));
    }
    let (all, rest) = cmds(alloc, levels - 1, inside)?;
    let (_, rest) = expect(Kind::Sign(Sign::CloseBrace), rest)?;
    Ok((all, rest))
}

// ["else" block]
#[cycle(commands)]
#[tactic(auto, unfolding(crate::specs::Reading::else_block_at))]
fn else_block<'a>(alloc: Global, levels: u8, tokens: &'a [Token]) -> Read<'a, Vec<Command>>
    ensures { Reads (λ v. command_trees v.items) result (else_block_at (inners levels)) tokens.now }
{
    match after(Kind::Word(Word::Else), tokens) {
        Some(rest) => block(alloc, levels, rest),
        None => Ok((Vec::new(alloc), tokens)),
    }
}

#[cycle(commands)]
fn if_command<'a>(alloc: Global, levels: u8, word: Token, tokens: &'a [Token]) -> Read<'a, Command>
    ensures { Reads command_tree result
        (made_at (λ v. branched (word, v))
        (if_at (inners levels)))
        tokens.now }
{
    let (condition, rest) = expr(alloc, levels, tokens)?;
    let (first, rest) = block(alloc, levels, rest)?;
    let (second, rest) = else_block(alloc, levels, rest)?;
    Ok((conditional(word, condition, first, second), rest))
}

#[cycle(commands)]
fn more_blocks<'a>(
    alloc: Global,
    levels: u8,
    mut all: Vec<Vec<Command>>,
    tokens: &'a [Token],
) -> Read<'a, Vec<Vec<Command>>>
    ensures { Reads (λ v. block_trees v.items) result
        (made_at (λ xs. block_trees all.items ++ xs)
        (more_at (Kind.Word Word.Or) (block_at (inners levels))))
        tokens.now }
{
    rml_terms::terms_are_read();
    let mut rest = tokens;
    while let Some(next) = after(Kind::Word(Word::Or), rest) {
        let (next, left) = block(alloc, levels, next)?;
        all.push(next)?;
        rest = left;
    }
    Ok((all, rest))
}

// block {"or" block}
#[cycle(commands)]
fn blocks<'a>(alloc: Global, levels: u8, tokens: &'a [Token]) -> Read<'a, Vec<Vec<Command>>>
    ensures { Reads (λ v. block_trees v.items) result
        (separated_at (Kind.Word Word.Or) (block_at (inners levels)))
        tokens.now }
{
    let (first, rest) = block(alloc, levels, tokens)?;
    let mut all = Vec::new(alloc);
    all.push(first)?;
    more_blocks(alloc, levels, all, rest)
}

#[cycle(commands)]
#[tactic(auto, unfolding(crate::specs::Reading::cmd_at))]
fn cmd<'a>(alloc: Global, levels: u8, tokens: &'a [Token]) -> Read<'a, Command>
    ensures { Reads command_tree result (cmd_at (inners levels)) tokens.now }
{
    let [token, rest @ ..] = tokens else {
        return Err(Refused::For(Stop::Unexpected(tokens)));
    };
    match token.kind {
        Kind::Word(Word::Skip) => Ok((skip(token.start), rest)),
        Kind::Word(Word::Abort) => Ok((abort(token.start), rest)),
        Kind::Word(Word::Assume) => {
            let (condition, rest) = expr(alloc, levels, rest)?;
            Ok((assumption(token.start, condition), rest))
        }
        Kind::Word(Word::Assert) => {
            let (condition, rest) = expr(alloc, levels, rest)?;
            Ok((assertion(token.start, condition), rest))
        }
        Kind::Word(Word::If) => if_command(alloc, levels, *token, rest),
        Kind::Word(Word::Choose) => {
            let (all, rest) = blocks(alloc, levels, rest)?;
            Ok((choice_of(*token, all), rest))
        }
        Kind::Word(Word::Insert) => inserts(alloc, levels, *token, rest),
        Kind::Word(Word::Remove) => removes(alloc, levels, *token, rest),
        Kind::Word(Word::Put) => puts(alloc, levels, *token, rest),
        Kind::Name => assigns(alloc, levels, Name::of(token), rest),
        _ => Err(Refused::For(Stop::Unexpected(tokens))),
    }
}

// [cmd {";" cmd} [";"]]
#[cycle(commands)]
fn cmds<'a>(alloc: Global, levels: u8, tokens: &'a [Token]) -> Read<'a, Vec<Command>>
    ensures { Reads (λ v. command_trees v.items) result (cmds_at (inners levels)) tokens.now }
{
    rml_terms::terms_are_read();
    let mut all = Vec::new(alloc);
    let mut rest = tokens;
    while begins_cmd(rest) {
        let (next, left) = cmd(alloc, levels, rest)?;
        all.push(next)?;
        let Some(next) = after(Kind::Sign(Sign::Semicolon), left) else {
            return Ok((all, left));
        };
        rest = next;
    }
    Ok((all, rest))
}
