// Blocks: each command is made into one of primitives, unless a part of it is too large.
ghost use Rattle.std.specs.Prelude.{◌≡◌, ◌++◌, [], None, length, OnOk};
ghost use Rattle.rml_terms.specs.Tree.{expr_tree, exprs_of, expr_trees};
ghost use Rattle.rml_syntax.specs.Tree.{command_tree, command_trees, block_of};
ghost use Rattle.rml_syntax.specs.Tree.{block_trees, blocks_of, CommandTree};
ghost use Rattle.rml_syntax.specs.Tree as syntax;
ghost use Rattle.rml_terms.specs.Within.{ExprWithin, ExprsWithin, NameWithin, NamesWithin};
ghost use Rattle.rml_syntax.specs.Within.{ValueWithin, CommandWithin};
ghost use Rattle.rml_syntax.specs.Within.{BlockWithin, BlocksWithin};
ghost use Rattle.rml_terms.specs.Shape.{ExprNests, ExprsNest, max_nesting};
ghost use Rattle.rml_syntax.specs.Shape.{SideNests, CommandNests, BlockNests, BlocksNest};
ghost use Rattle.rml_command.specs.View.{command as command_view, commands as commands_view};
ghost use Rattle.rml_command.specs.Trees.{seq, choose};
ghost use Rattle.rml_sort_check.specs.declared.wanted.Wanted.TheVariants as wanted;
ghost use Rattle.rml_sort_check.specs.Demands.{first_fault, demands, command_demands, block_demands};
ghost use Rattle.rml_sorts.specs.Commands.{command_of, commands_of, branches_of, conditions_of, conditions_of_block};
ghost use Rattle.rml_sorts.specs.Commands.{conditions_of_blocks};
ghost use Rattle.rml_names.specs.Drafts.{draft_in};
ghost use Rattle.rml_items.specs.Answering.{Answers};
ghost use Rattle.rml_sorts.specs.Sizes.{command_sizes, block_sizes};
ghost use Rattle.rml_sorts.specs.Sound.{IsSound};

use crate::sentences::{assertion, branching, noted_sentence};
use crate::update_commands::{assign_command, insert_command, put_command, remove_command};
use base::Refused;
use rml_command::{Command, Condition, Primitive, Word};
use rml_lex::Fault;
use rml_names::ModelDraft;
use rml_syntax as syntax;
use rml_syntax::Format;
use rml_terms::Expr;
use std::alloc::Global;

pub fn sequence(commands: Vec<Command>) -> Command
    ensures { command_view result ≡ seq (commands_view commands.items) }
{
    Command::Seq(commands)
}

fn choice_between(branches: Vec<Command>) -> Command
    ensures { command_view result ≡ choose (commands_view branches.items) }
{
    Command::Choose(branches)
}

// The command, or its fault; its conditions come behind the others.
#[cycle(blocks)]
fn command(
    alloc: Global,
    text: &[u8],
    draft: &ModelDraft,
    format: Format,
    c: &syntax::Command,
    conditions: &mut Vec<Condition>,
) -> Result<Command, Refused<Fault>>
    requires nests { CommandNests max_nesting (command_tree c.now) }
    requires within { CommandWithin (length text.now) (command_tree c.now) }
    requires sound { IsSound (draft_in draft.now) }
    requires met { first_fault
        (command_demands text.now (draft_in draft.now).vocabulary format (command_tree c.now)) ≡ None }
    ensures command { Answers command_view result
        (command_sizes text.now (draft_in draft.now).vocabulary (draft_in draft.now).bodies (command_tree c.now))
        (command_of text.now (draft_in draft.now).vocabulary (draft_in draft.now).bodies (command_tree c.now)) }
    ensures conditions { OnOk result
        (conditions.new.items ≡ conditions.old.items
        ++ conditions_of text.now (draft_in draft.now).vocabulary (draft_in draft.now).bodies (command_tree c.now)) }
{
    match c {
        syntax::Command::Skip(_) => Ok(Command::Seq(Vec::new(alloc))),
        syntax::Command::Abort(_) => Ok(Command::Prim(Primitive::Abort)),
        syntax::Command::Assume(at, e) => assumed(alloc, text, draft, *at, e, conditions),
        syntax::Command::Assert(at, e) => asserted(alloc, text, draft, *at, e, conditions),
        syntax::Command::If(at, e, a, b) => {
            let sentence = noted_sentence(alloc, text, draft, Word::If, *at, e, conditions)?;
            let first = block(alloc, text, draft, format, a, conditions)?;
            let second = block(alloc, text, draft, format, b, conditions)?;
            let command = branching(alloc, sentence, first, second)?;
            Ok(command)
        }
        syntax::Command::Choose(_, all) => {
            let mut branches = Vec::new(alloc);
            for b in all {
                let commands = block(alloc, text, draft, format, b, conditions)?;
                branches.push(sequence(commands))?;
            }
            Ok(choice_between(branches))
        }
        syntax::Command::Insert(_, name, args) => insert_command(alloc, text, draft, *name, args),
        syntax::Command::Remove(_, name, args) => remove_command(alloc, text, draft, *name, args),
        syntax::Command::Put(_, name, args, e) => put_command(alloc, text, draft, *name, args, e),
        syntax::Command::Assign(name, parameters, value) => {
            assign_command(alloc, text, draft, format, *name, parameters, value)
        }
    }
}

fn assumed(
    alloc: Global,
    text: &[u8],
    draft: &ModelDraft,
    at: u64,
    e: &Expr,
    conditions: &mut Vec<Condition>,
) -> Result<Command, Refused<Fault>>
    requires nests { ExprNests max_nesting (expr_tree e.now) }
    requires within { ExprWithin (length text.now) (expr_tree e.now) }
    requires sound { IsSound (draft_in draft.now) }
    requires met { first_fault (demands text.now (draft_in draft.now).vocabulary [] wanted.Formula (expr_tree e.now))
        ≡ None }
    ensures command { Answers command_view result
        (command_sizes text.now (draft_in draft.now).vocabulary (draft_in draft.now).bodies
        (syntax.Assume at (expr_tree e.now)))
        (command_of text.now (draft_in draft.now).vocabulary (draft_in draft.now).bodies
        (syntax.Assume at (expr_tree e.now))) }
    ensures conditions { OnOk result
        (conditions.new.items ≡ conditions.old.items
        ++ conditions_of text.now (draft_in draft.now).vocabulary (draft_in draft.now).bodies
        (syntax.Assume at (expr_tree e.now))) }
{
    let sentence = noted_sentence(alloc, text, draft, Word::Assume, at, e, conditions)?;
    Ok(Command::Prim(Primitive::Assume(sentence)))
}

fn asserted(
    alloc: Global,
    text: &[u8],
    draft: &ModelDraft,
    at: u64,
    e: &Expr,
    conditions: &mut Vec<Condition>,
) -> Result<Command, Refused<Fault>>
    requires nests { ExprNests max_nesting (expr_tree e.now) }
    requires within { ExprWithin (length text.now) (expr_tree e.now) }
    requires sound { IsSound (draft_in draft.now) }
    requires met { first_fault (demands text.now (draft_in draft.now).vocabulary [] wanted.Formula (expr_tree e.now))
        ≡ None }
    ensures command { Answers command_view result
        (command_sizes text.now (draft_in draft.now).vocabulary (draft_in draft.now).bodies
        (syntax.Assert at (expr_tree e.now)))
        (command_of text.now (draft_in draft.now).vocabulary (draft_in draft.now).bodies
        (syntax.Assert at (expr_tree e.now))) }
    ensures conditions { OnOk result
        (conditions.new.items ≡ conditions.old.items
        ++ conditions_of text.now (draft_in draft.now).vocabulary (draft_in draft.now).bodies
        (syntax.Assert at (expr_tree e.now))) }
{
    let sentence = noted_sentence(alloc, text, draft, Word::Assert, at, e, conditions)?;
    let command = assertion(alloc, sentence)?;
    Ok(command)
}

#[cycle(blocks)]
pub fn block(
    alloc: Global,
    text: &[u8],
    draft: &ModelDraft,
    format: Format,
    commands: &[syntax::Command],
    conditions: &mut Vec<Condition>,
) -> Result<Vec<Command>, Refused<Fault>>
    requires nests { BlockNests max_nesting (block_of (command_trees commands.now)) }
    requires within { BlockWithin (length text.now) (block_of (command_trees commands.now)) }
    requires sound { IsSound (draft_in draft.now) }
    requires met { first_fault
        (block_demands text.now (draft_in draft.now).vocabulary format (block_of (command_trees commands.now)))
        ≡ None }
    ensures command { Answers (λ r. commands_view r.items) result
        (block_sizes text.now (draft_in draft.now).vocabulary (draft_in draft.now).bodies
        (block_of (command_trees commands.now)))
        (commands_of text.now (draft_in draft.now).vocabulary (draft_in draft.now).bodies
        (block_of (command_trees commands.now))) }
    ensures conditions { OnOk result
        (conditions.new.items ≡ conditions.old.items
        ++ conditions_of_block text.now (draft_in draft.now).vocabulary (draft_in draft.now).bodies
        (block_of (command_trees commands.now))) }
{
    let mut all = Vec::new(alloc);
    for c in commands {
        all.push(command(alloc, text, draft, format, c, conditions)?)?;
    }
    Ok(all)
}
