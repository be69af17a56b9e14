// Items: what each adds to the draft, unless a sentence or right side of it is too large. Their names and sorts were
// judged before.
ghost use Rattle.std.specs.Prelude.{◌≡◌, ◌<◌, ◌≤◌, ◌-◌, ◌++◌, [], None, length, OnOk};
ghost use Rattle.rml_terms.specs.Tree.{expr_tree};
ghost use Rattle.rml_terms.specs.Shape.{ExprNests, max_nesting};
ghost use Rattle.rml_terms.specs.Within.{NameWithin, NamesWithin, ExprWithin};
ghost use Rattle.rml_terms.specs.Places.{name_places};
ghost use Rattle.rml_syntax.specs.Tree.{command_trees, item_tree, block_of};
ghost use Rattle.rml_syntax.specs.Tree as syntax;
ghost use Rattle.rml_syntax.specs.Within.{BindersWithin, CommandsWithin, ItemWithin};
ghost use Rattle.rml_syntax.specs.Shape.{CommandsNest, ItemNests};
ghost use Rattle.rml_command.specs.View.{command as command_view};
ghost use Rattle.rml_names.specs.Drafts.{draft_in};
ghost use Rattle.rml_sort_check.specs.declared.wanted.Wanted.TheVariants as wanted;
ghost use Rattle.rml_sort_check.specs.Demands.{first_fault, demands, block_demands, definition_demands};
ghost use Rattle.rml_elaborate.specs.Sizes.{large_use_in_formula, large_use_in_definition as use_in_definition};
ghost use Rattle.rml_items.specs.Answering.{Answers};
ghost use Rattle.rml_items.specs.Items.{head_demands, body_demands};
ghost use Rattle.base.specs.Lists.{count_from};
ghost use Rattle.rml_sorts.specs.Items.{block_command, draft_with, with_block, with_listed_axiom};
ghost use Rattle.rml_sorts.specs.Listed.{listed_axiom as axiom_of};
ghost use Rattle.rml_sorts.specs.Sizes.{no_large_use, block_sizes, item_sizes};
ghost use Rattle.rml_sorts.specs.Sound.{IsSound, AreElements};

use crate::blocks::{block, sequence};
use crate::listed::listed_axiom;
use crate::sentences::{sentence, too_large};
use base::{Mem, Refused, Row};
use fol_formula::Sentence;
use fol_sig::Sort;
use fol_subst::Template;
use rml_command::Command;
use rml_elaborate::{definition, large_use_in_definition};
use rml_items::{
    add_action, add_axiom, add_conjecture, add_definition, add_function, add_relation, add_sort,
    add_variable, sorted_law,
};
use rml_lex::Fault;
use rml_names::{ModelDraft, bytes};
use rml_quantifiers::{add_block_quantifiers, add_quantifiers};
use rml_syntax as syntax;
use rml_syntax::{Format, Item};
use rml_terms::{Binder, Expr, Name};
use std::alloc::Global;

// `axiom`
fn build_axiom(
    alloc: Global,
    text: &[u8],
    draft: &mut ModelDraft,
    name: Name,
    e: &Expr,
) -> Result<(), Refused<Fault>>
    requires name { NameWithin (length text.now) name }
    requires nests { ExprNests max_nesting (expr_tree e.now) }
    requires within { ExprWithin (length text.now) (expr_tree e.now) }
    requires sound { IsSound (draft_in draft.old) }
    requires head { first_fault
        (head_demands text.now (draft_in draft.old).vocabulary (syntax.Axiom name (expr_tree e.now))) ≡ None }
    requires met { first_fault (demands text.now (draft_in draft.old).vocabulary [] wanted.Formula (expr_tree e.now))
        ≡ None }
    ensures { Answers (λ _. draft_in draft.new) result
        (no_large_use (large_use_in_formula text.now (draft_in draft.old).vocabulary (draft_in draft.old).bodies []
        (expr_tree e.now)))
        (draft_with text.now (draft_in draft.old) (syntax.Axiom name (expr_tree e.now))) }
{
    let mut quantifiers = Vec::new(alloc);
    add_quantifiers(false, e, &mut quantifiers)?;
    let sentence = sentence(alloc, text, draft, e)?;
    draft.push_axiom(sentence, name.start, quantifiers)?;
    add_axiom(alloc, text, &mut draft.declared, name)?;
    Ok(())
}

// `conjecture`
fn build_conjecture(
    alloc: Global,
    text: &[u8],
    draft: &mut ModelDraft,
    name: Name,
    e: &Expr,
) -> Result<(), Refused<Fault>>
    requires name { NameWithin (length text.now) name }
    requires nests { ExprNests max_nesting (expr_tree e.now) }
    requires within { ExprWithin (length text.now) (expr_tree e.now) }
    requires sound { IsSound (draft_in draft.old) }
    requires head { first_fault
        (head_demands text.now (draft_in draft.old).vocabulary (syntax.Conjecture name (expr_tree e.now))) ≡ None }
    requires met { first_fault (demands text.now (draft_in draft.old).vocabulary [] wanted.Formula (expr_tree e.now))
        ≡ None }
    ensures { Answers (λ _. draft_in draft.new) result
        (no_large_use (large_use_in_formula text.now (draft_in draft.old).vocabulary (draft_in draft.old).bodies []
        (expr_tree e.now)))
        (draft_with text.now (draft_in draft.old) (syntax.Conjecture name (expr_tree e.now))) }
{
    let mut quantifiers = Vec::new(alloc);
    add_quantifiers(false, e, &mut quantifiers)?;
    let sentence = sentence(alloc, text, draft, e)?;
    draft.push_conjecture(sentence, name.start, quantifiers)?;
    add_conjecture(alloc, text, &mut draft.declared, name)?;
    Ok(())
}

// A block's command. Its conditions, and its quantifiers where none may stand, become places of the draft.
#[tactic(auto, using(rml_items::specs::Walking::block_nests, rml_items::specs::Walking::block_within))]
fn built_block(
    alloc: Global,
    text: &[u8],
    draft: &mut ModelDraft,
    format: Format,
    commands: &[syntax::Command],
) -> Result<Command, Refused<Fault>>
    requires nests { CommandsNest max_nesting (command_trees commands.now) }
    requires within { CommandsWithin (length text.now) (command_trees commands.now) }
    requires sound { IsSound (draft_in draft.old) }
    requires met { first_fault
        (block_demands text.now (draft_in draft.old).vocabulary format (block_of (command_trees commands.now)))
        ≡ None }
    ensures command { Answers command_view result
        (block_sizes text.now (draft_in draft.old).vocabulary (draft_in draft.old).bodies
        (block_of (command_trees commands.now)))
        (block_command text.now (draft_in draft.old) (command_trees commands.now)) }
    ensures places { OnOk result (draft_in draft.new ≡ record (draft_in draft.old) {
      places = with_block text.now (draft_in draft.old) (draft_in draft.old).places (command_trees commands.now);
    }) }
{
    let mut quantifiers = Vec::new(alloc);
    add_block_quantifiers(commands, &mut quantifiers)?;
    let mut conditions = Vec::new(alloc);
    let built = block(alloc, text, draft, format, commands, &mut conditions)?;
    draft.push_places(conditions, quantifiers)?;
    Ok(sequence(built))
}

// `action`
fn build_action(
    alloc: Global,
    text: &[u8],
    draft: &mut ModelDraft,
    format: Format,
    name: Name,
    commands: &[syntax::Command],
) -> Result<(), Refused<Fault>>
    requires name { NameWithin (length text.now) name }
    requires nests { CommandsNest max_nesting (command_trees commands.now) }
    requires within { CommandsWithin (length text.now) (command_trees commands.now) }
    requires sound { IsSound (draft_in draft.old) }
    requires head { first_fault
        (head_demands text.now (draft_in draft.old).vocabulary (syntax.Action name (command_trees commands.now)))
        ≡ None }
    requires met { first_fault
        (block_demands text.now (draft_in draft.old).vocabulary format (block_of (command_trees commands.now)))
        ≡ None }
    ensures { Answers (λ _. draft_in draft.new) result
        (block_sizes text.now (draft_in draft.old).vocabulary (draft_in draft.old).bodies
        (block_of (command_trees commands.now)))
        (draft_with text.now (draft_in draft.old) (syntax.Action name (command_trees commands.now))) }
{
    let block = built_block(alloc, text, draft, format, commands)?;
    draft.push_action(block, name.start)?;
    add_action(alloc, text, &mut draft.declared, name)?;
    Ok(())
}

// `init`
fn build_init(
    alloc: Global,
    text: &[u8],
    draft: &mut ModelDraft,
    format: Format,
    at: u64,
    commands: &[syntax::Command],
) -> Result<(), Refused<Fault>>
    requires nests { CommandsNest max_nesting (command_trees commands.now) }
    requires within { CommandsWithin (length text.now) (command_trees commands.now) }
    requires sound { IsSound (draft_in draft.old) }
    requires met { first_fault
        (block_demands text.now (draft_in draft.old).vocabulary format (block_of (command_trees commands.now)))
        ≡ None }
    ensures { Answers (λ _. draft_in draft.new) result
        (block_sizes text.now (draft_in draft.old).vocabulary (draft_in draft.old).bodies
        (block_of (command_trees commands.now)))
        (draft_with text.now (draft_in draft.old) (syntax.Init at (command_trees commands.now))) }
{
    let block = built_block(alloc, text, draft, format, commands)?;
    draft.init = block;
    draft.places.init = at;
    Ok(())
}

// `final`
fn build_last(
    alloc: Global,
    text: &[u8],
    draft: &mut ModelDraft,
    format: Format,
    at: u64,
    commands: &[syntax::Command],
) -> Result<(), Refused<Fault>>
    requires nests { CommandsNest max_nesting (command_trees commands.now) }
    requires within { CommandsWithin (length text.now) (command_trees commands.now) }
    requires sound { IsSound (draft_in draft.old) }
    requires met { first_fault
        (block_demands text.now (draft_in draft.old).vocabulary format (block_of (command_trees commands.now)))
        ≡ None }
    ensures { Answers (λ _. draft_in draft.new) result
        (block_sizes text.now (draft_in draft.old).vocabulary (draft_in draft.old).bodies
        (block_of (command_trees commands.now)))
        (draft_with text.now (draft_in draft.old) (syntax.Final at (command_trees commands.now))) }
{
    let block = built_block(alloc, text, draft, format, commands)?;
    draft.last = block;
    draft.places.last = at;
    Ok(())
}

// `define`
fn build_definition(
    alloc: Global,
    text: &[u8],
    draft: &mut ModelDraft,
    name: Name,
    parameters: &[Binder],
    value: &Expr,
) -> Result<(), Refused<Fault>>
    requires name { NameWithin (length text.now) name }
    requires parameters { BindersWithin (length text.now) parameters.now }
    requires nests { ExprNests max_nesting (expr_tree value.now) }
    requires within { ExprWithin (length text.now) (expr_tree value.now) }
    requires sound { IsSound (draft_in draft.old) }
    requires head { first_fault (head_demands text.now (draft_in draft.old).vocabulary
        (syntax.Define name parameters.now (expr_tree value.now))) ≡ None }
    requires met { first_fault
        (definition_demands text.now (draft_in draft.old).vocabulary parameters.now (expr_tree value.now)) ≡ None }
    ensures { Answers (λ _. draft_in draft.new) result
        (no_large_use (use_in_definition text.now (draft_in draft.old).vocabulary (draft_in draft.old).bodies
        parameters.now (expr_tree value.now)))
        (draft_with text.now (draft_in draft.old) (syntax.Define name parameters.now (expr_tree value.now))) }
{
    sorted_law();
    if let Some(at) = large_use_in_definition(text, draft, parameters, value) {
        return Err(too_large(at));
    }
    let mut quantifiers = Vec::new(alloc);
    add_quantifiers(true, value, &mut quantifiers)?;
    let body = definition(alloc, text, draft, parameters, value)?;
    draft.push_body(Template::of(body), quantifiers)?;
    add_definition(alloc, text, &mut draft.declared, name, parameters)?;
    Ok(())
}

// The places of the names of a sort's elements.
fn push_elements(draft: &mut ModelDraft, names: &[Name]) -> Mem<()>
    ensures { OnOk result (draft_in draft.new ≡ record (draft_in draft.old) {
      places = record (draft_in draft.old).places
          { functions = (draft_in draft.old).places.functions ++ name_places names.now };
    }) }
{
    for name in names {
        draft.push_function(name.start)?;
    }
    Ok(())
}

// The axiom of a sort whose elements are the functions from `first` on, behind the names of elements.
fn push_listed_axiom(
    alloc: Global,
    text: &[u8],
    draft: &mut ModelDraft,
    sort: Sort,
    first: u32,
    name: Name,
) -> Mem<()>
    requires name { NameWithin (length text.now) name }
    requires first { first ≤ length (draft_in draft.old).vocabulary.signature.functions }
    requires sort { sort.0 < (draft_in draft.old).vocabulary.signature.sorts }
    requires are { AreElements (draft_in draft.old).vocabulary.signature sort.0 first }
    ensures { OnOk result (draft_in draft.new ≡ record (draft_in draft.old) {
      listed = with_listed_axiom text.now (draft_in draft.old).listed name
          (axiom_of sort.0 (count_from first (length (draft_in draft.old).vocabulary.signature.functions - first)));
    }) }
{
    fol_formula::indices();
    let end = draft.declared.signature.function_count();
    let axiom = listed_axiom(alloc, sort, first, end)?;
    let mut spelled = Vec::new(alloc);
    spelled.extend_from_slice(bytes(text, name))?;
    draft.push_listed(Row::from_vec(spelled), Sentence::of(axiom), name.start)?;
    Ok(())
}

// `sort`
fn build_sort(
    alloc: Global,
    text: &[u8],
    draft: &mut ModelDraft,
    name: Name,
    names: &[Name],
) -> Result<(), Refused<Fault>>
    requires name { NameWithin (length text.now) name }
    requires names { NamesWithin (length text.now) names.now }
    requires sound { IsSound (draft_in draft.old) }
    requires head { first_fault
        (head_demands text.now (draft_in draft.old).vocabulary (syntax.Sort name names.now)) ≡ None }
    ensures { Answers (λ _. draft_in draft.new) result []
        (draft_with text.now (draft_in draft.old) (syntax.Sort name names.now)) }
{
    let sort = Sort(draft.declared.signature.sorts());
    let first = draft.declared.signature.function_count();
    add_sort(alloc, text, &mut draft.declared, name, names)?;
    push_elements(draft, names)?;
    if !names.is_empty() {
        push_listed_axiom(alloc, text, draft, sort, first, name)?;
    }
    Ok(())
}

/// An item, behind those that were built.
pub fn build_item(
    alloc: Global,
    text: &[u8],
    format: Format,
    draft: &mut ModelDraft,
    item: &Item,
) -> Result<(), Refused<Fault>>
    requires nests { ItemNests max_nesting (item_tree item.now) }
    requires within { ItemWithin (length text.now) (item_tree item.now) }
    requires sound { IsSound (draft_in draft.old) }
    requires head { first_fault (head_demands text.now (draft_in draft.old).vocabulary (item_tree item.now)) ≡ None }
    requires met { first_fault (body_demands text.now format (draft_in draft.old).vocabulary (item_tree item.now))
        ≡ None }
    ensures { Answers (λ _. draft_in draft.new) result
        (item_sizes text.now (draft_in draft.old).vocabulary (draft_in draft.old).bodies (item_tree item.now))
        (draft_with text.now (draft_in draft.old) (item_tree item.now)) }
{
    match item {
        Item::Sort(name, names) => build_sort(alloc, text, draft, *name, names),
        Item::Relation(name, sorts) => {
            add_relation(alloc, text, &mut draft.declared, *name, sorts)?;
            Ok(())
        }
        Item::Function(name, sorts, sort) => {
            add_function(alloc, text, &mut draft.declared, *name, sorts, *sort)?;
            draft.push_function(name.start)?;
            Ok(())
        }
        Item::Variable(name, sort) => {
            add_variable(alloc, text, &mut draft.declared, *name, *sort)?;
            draft.push_function(name.start)?;
            Ok(())
        }
        Item::Axiom(name, e) => build_axiom(alloc, text, draft, *name, e),
        Item::Conjecture(name, e) => build_conjecture(alloc, text, draft, *name, e),
        Item::Action(name, block) => build_action(alloc, text, draft, format, *name, block),
        Item::Init(at, block) => build_init(alloc, text, draft, format, *at, block),
        Item::Final(at, block) => build_last(alloc, text, draft, format, *at, block),
        Item::Define(name, parameters, value) => {
            build_definition(alloc, text, draft, *name, parameters, value)
        }
    }
}
