// Items: each is judged by what those before it declare, and then declared itself.
ghost use Rattle.std.specs.Prelude.{◌≡◌, ◌++◌, [], None, length};
ghost use Rattle.rml_terms.specs.Tree.{expr_tree};
ghost use Rattle.rml_terms.specs.Shape.{ExprNests, max_nesting};
ghost use Rattle.rml_terms.specs.Within.{NameWithin, ExprWithin};
ghost use Rattle.rml_syntax.specs.Tree.{command_trees, item_tree, block_of};
ghost use Rattle.rml_syntax.specs.Shape.{CommandsNest, ItemNests};
ghost use Rattle.rml_syntax.specs.Within.{BindersWithin, CommandsWithin, ItemWithin};
ghost use Rattle.rml_names.specs.Growth.{with_axiom, with_conjecture, with_action, with_definition};
ghost use Rattle.rml_names.specs.Drafts.{words_in};
ghost use Rattle.rml_names.specs.Sound.{IsSorted};
ghost use Rattle.rml_sort_check.specs.declared.wanted.Wanted.TheVariants as wanted;
ghost use Rattle.rml_sort_check.specs.Demands.{first_fault, demands, block_demands, definition_demands};
ghost use Rattle.rml_items.specs.Items.{declares_symbol, declares_sentence, declares_action, stands_once};
ghost use Rattle.rml_items.specs.Items.{parameter_sorts, item_demands, with_item};
ghost use Rattle.rml_items.specs.Answering.{Answers};
ghost use Rattle.rml_items.specs.Progress.{standing_of, Unless};

use crate::blocks::block_fault;
use crate::heads::{
    add_action, add_axiom, add_conjecture, add_definition, add_function, add_relation, add_sort,
    add_variable, symbol_fault,
};
use base::Refused;
use rml_lex::{Fault, FaultCode};
use rml_names::Declarations;
use rml_sort_check::{definition_fault, sentence_fault};
use rml_syntax::{Command, Format, Item};
use rml_terms::{Binder, Expr, Name};
use std::alloc::Global;

// What is declared so far, and which of the blocks that may stand once have stood.
#[derive(Drop)]
pub struct Progress {
    pub known: Declarations,
    pub has_init: bool,
    pub has_last: bool,
}

// The answer where this is the fault.
fn unless(fault: Option<Fault>) -> Result<(), Refused<Fault>>
    ensures { Unless fault result }
{
    match fault {
        Some(fault) => Err(Refused::For(fault)),
        None => Ok(()),
    }
}

// `axiom`
fn judge_axiom(
    alloc: Global,
    text: &[u8],
    known: &mut Declarations,
    name: Name,
    e: &Expr,
) -> Result<(), Refused<Fault>>
    requires name { NameWithin (length text.now) name }
    requires nests { ExprNests max_nesting (expr_tree e.now) }
    requires within { ExprWithin (length text.now) (expr_tree e.now) }
    requires sound { IsSorted (words_in known.old) }
    ensures { Answers (λ _. words_in known.new) result
        (declares_sentence text.now (words_in known.old) name
        ++ demands text.now (words_in known.old) [] wanted.Formula (expr_tree e.now))
        (with_axiom text.now (words_in known.old) name) }
{
    let fault = sentence_fault(text, known, e);
    add_axiom(alloc, text, known, name)?;
    unless(fault)
}

// `conjecture`
fn judge_conjecture(
    alloc: Global,
    text: &[u8],
    known: &mut Declarations,
    name: Name,
    e: &Expr,
) -> Result<(), Refused<Fault>>
    requires name { NameWithin (length text.now) name }
    requires nests { ExprNests max_nesting (expr_tree e.now) }
    requires within { ExprWithin (length text.now) (expr_tree e.now) }
    requires sound { IsSorted (words_in known.old) }
    ensures { Answers (λ _. words_in known.new) result
        (declares_sentence text.now (words_in known.old) name
        ++ demands text.now (words_in known.old) [] wanted.Formula (expr_tree e.now))
        (with_conjecture text.now (words_in known.old) name) }
{
    let fault = sentence_fault(text, known, e);
    add_conjecture(alloc, text, known, name)?;
    unless(fault)
}

// A block of commands.
#[tactic(auto, using(crate::specs::Walking::block_nests, crate::specs::Walking::block_within))]
fn body_fault(
    text: &[u8],
    known: &Declarations,
    format: Format,
    commands: &[Command],
) -> Option<Fault>
    requires nests { CommandsNest max_nesting (command_trees commands.now) }
    requires within { CommandsWithin (length text.now) (command_trees commands.now) }
    requires sound { IsSorted (words_in known.now) }
    ensures { result ≡ first_fault
        (block_demands text.now (words_in known.now) format (block_of (command_trees commands.now))) }
{
    block_fault(text, known, format, commands)
}

// `action`
fn judge_action(
    alloc: Global,
    text: &[u8],
    known: &mut Declarations,
    format: Format,
    name: Name,
    commands: &[Command],
) -> Result<(), Refused<Fault>>
    requires name { NameWithin (length text.now) name }
    requires nests { CommandsNest max_nesting (command_trees commands.now) }
    requires within { CommandsWithin (length text.now) (command_trees commands.now) }
    requires sound { IsSorted (words_in known.old) }
    ensures { Answers (λ _. words_in known.new) result
        (declares_action text.now (words_in known.old) name
        ++ block_demands text.now (words_in known.old) format (block_of (command_trees commands.now)))
        (with_action text.now (words_in known.old) name) }
{
    let fault = body_fault(text, known, format, commands);
    add_action(alloc, text, known, name)?;
    unless(fault)
}

// `init` or `final`: it may stand once.
fn judge_once(
    text: &[u8],
    known: &Declarations,
    format: Format,
    taken: bool,
    at: u64,
    commands: &[Command],
) -> Result<(), Refused<Fault>>
    requires nests { CommandsNest max_nesting (command_trees commands.now) }
    requires within { CommandsWithin (length text.now) (command_trees commands.now) }
    requires sound { IsSorted (words_in known.now) }
    ensures { Answers (λ _. words_in known.now) result
        (stands_once at taken
        ++ block_demands text.now (words_in known.now) format (block_of (command_trees commands.now)))
        (words_in known.now) }
{
    if taken {
        return Err(Refused::For(Fault {
            code: FaultCode::DeclaredTwice,
            at,
        }));
    }
    unless(body_fault(text, known, format, commands))
}

// `define`
fn judge_definition(
    alloc: Global,
    text: &[u8],
    known: &mut Declarations,
    name: Name,
    parameters: &[Binder],
    value: &Expr,
) -> Result<(), Refused<Fault>>
    requires name { NameWithin (length text.now) name }
    requires parameters { BindersWithin (length text.now) parameters.now }
    requires nests { ExprNests max_nesting (expr_tree value.now) }
    requires within { ExprWithin (length text.now) (expr_tree value.now) }
    requires sound { IsSorted (words_in known.old) }
    ensures { Answers (λ _. words_in known.new) result
        (declares_symbol text.now (words_in known.old) name
        ++ definition_demands text.now (words_in known.old) parameters.now (expr_tree value.now))
        (with_definition text.now (words_in known.old) name
        (parameter_sorts text.now (words_in known.old) parameters.now)) }
{
    if let Some(fault) = symbol_fault(text, known, name) {
        return Err(Refused::For(fault));
    }
    if let Some(fault) = definition_fault(text, known, parameters, value) {
        return Err(Refused::For(fault));
    }
    add_definition(alloc, text, known, name, parameters)
}

/// An item, behind those that were judged.
pub fn judge_item(
    alloc: Global,
    text: &[u8],
    format: Format,
    progress: &mut Progress,
    item: &Item,
) -> Result<(), Refused<Fault>>
    requires nests { ItemNests max_nesting (item_tree item.now) }
    requires within { ItemWithin (length text.now) (item_tree item.now) }
    requires sound { IsSorted (standing_of progress.old).words }
    ensures { Answers (λ _. standing_of progress.new) result
        (item_demands text.now format (standing_of progress.old) (item_tree item.now))
        (with_item text.now (standing_of progress.old) (item_tree item.now)) }
{
    let Progress {
        known,
        has_init,
        has_last,
    } = progress;
    match item {
        Item::Sort(name, names) => add_sort(alloc, text, known, *name, names),
        Item::Relation(name, sorts) => add_relation(alloc, text, known, *name, sorts),
        Item::Function(name, sorts, sort) => {
            add_function(alloc, text, known, *name, sorts, *sort)
        }
        Item::Variable(name, sort) => add_variable(alloc, text, known, *name, *sort),
        Item::Axiom(name, e) => judge_axiom(alloc, text, known, *name, e),
        Item::Conjecture(name, e) => judge_conjecture(alloc, text, known, *name, e),
        Item::Action(name, block) => judge_action(alloc, text, known, format, *name, block),
        Item::Init(at, block) => {
            let had = *has_init;
            *has_init = true;
            judge_once(text, &*known, format, had, *at, block)
        }
        Item::Final(at, block) => {
            let had = *has_last;
            *has_last = true;
            judge_once(text, &*known, format, had, *at, block)
        }
        Item::Define(name, parameters, value) => {
            judge_definition(alloc, text, known, *name, parameters, value)
        }
    }
}
