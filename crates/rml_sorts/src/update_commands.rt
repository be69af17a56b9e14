// Updates: each is made into a primitive, unless its right side is too large.
ghost use Rattle.std.specs.Prelude.{◌≡◌, [], None, length, option_map};
ghost use Rattle.rml_terms.specs.Tree.{expr_tree, exprs_of, expr_trees};
ghost use Rattle.rml_terms.specs.Within.{ExprWithin, ExprsWithin, NameWithin, NamesWithin};
ghost use Rattle.rml_syntax.specs.Within.{ValueWithin};
ghost use Rattle.rml_terms.specs.Shape.{ExprNests, ExprsNest, max_nesting};
ghost use Rattle.rml_syntax.specs.Shape.{SideNests};
ghost use Rattle.rml_command.specs.View.{command as command_view};
ghost use Rattle.rml_command.specs.Trees.{prim};
ghost use Rattle.rml_names.specs.Meanings.{bytes_of, symbol_of};
ghost use Rattle.rml_names.specs.Drafts.{draft_in};
ghost use Rattle.rml_sort_check.specs.Demands.{first_fault, tuple_demands, put_demands, assign_demands};
ghost use Rattle.rml_elaborate.specs.Formulas.{term_of, terms_of};
ghost use Rattle.rml_elaborate.specs.Updates.{insertion as insertion_of, removal as removal_of};
ghost use Rattle.rml_elaborate.specs.Updates.{placement as placement_of, assignment as assignment_of};
ghost use Rattle.rml_elaborate.specs.Sizes.{large_use_in_insertion as use_in_insertion};
ghost use Rattle.rml_elaborate.specs.Sizes.{large_use_in_removal as use_in_removal};
ghost use Rattle.rml_elaborate.specs.Sizes.{large_use_in_placement as use_in_placement};
ghost use Rattle.rml_elaborate.specs.Sizes.{large_use_in_assignment as use_in_assignment};
ghost use Rattle.rml_items.specs.Answering.{Answers};
ghost use Rattle.rml_sorts.specs.Sizes.{no_large_use};
ghost use Rattle.rml_sorts.specs.Sound.{IsSound};

use crate::sentences::too_large;
use base::Refused;
use rml_command::Command;
use rml_elaborate::{
    assignment, insertion, large_use_in_assignment, large_use_in_insertion, large_use_in_placement,
    large_use_in_removal, placement, removal,
};
use rml_lex::Fault;
use rml_names::ModelDraft;
use rml_syntax::Format;
use rml_terms::{Expr, Name};
use std::alloc::Global;

// `insert`
pub fn insert_command(
    alloc: Global,
    text: &[u8],
    draft: &ModelDraft,
    name: Name,
    args: &[Expr],
) -> Result<Command, Refused<Fault>>
    requires nests { ExprsNest max_nesting (exprs_of (expr_trees args.now)) }
    requires name { NameWithin (length text.now) name }
    requires within { ExprsWithin (length text.now) (exprs_of (expr_trees args.now)) }
    requires sound { IsSound (draft_in draft.now) }
    requires met { first_fault
        (tuple_demands text.now (draft_in draft.now).vocabulary
        (symbol_of (draft_in draft.now).vocabulary (bytes_of text.now name))
        name.start (exprs_of (expr_trees args.now))) ≡ None }
    ensures { Answers command_view result
        (no_large_use (use_in_insertion text.now (draft_in draft.now).vocabulary (draft_in draft.now).bodies name
        (exprs_of (expr_trees args.now))))
        (prim (insertion_of (symbol_of (draft_in draft.now).vocabulary (bytes_of text.now name))
        (terms_of text.now (draft_in draft.now).vocabulary (draft_in draft.now).bodies []
        (exprs_of (expr_trees args.now))))) }
{
    if let Some(at) = large_use_in_insertion(text, draft, name, args) {
        return Err(too_large(at));
    }
    let primitive = insertion(alloc, text, draft, name, args)?;
    Ok(Command::Prim(primitive))
}

// `remove`
pub fn remove_command(
    alloc: Global,
    text: &[u8],
    draft: &ModelDraft,
    name: Name,
    args: &[Expr],
) -> Result<Command, Refused<Fault>>
    requires nests { ExprsNest max_nesting (exprs_of (expr_trees args.now)) }
    requires name { NameWithin (length text.now) name }
    requires within { ExprsWithin (length text.now) (exprs_of (expr_trees args.now)) }
    requires sound { IsSound (draft_in draft.now) }
    requires met { first_fault
        (tuple_demands text.now (draft_in draft.now).vocabulary
        (symbol_of (draft_in draft.now).vocabulary (bytes_of text.now name))
        name.start (exprs_of (expr_trees args.now))) ≡ None }
    ensures { Answers command_view result
        (no_large_use (use_in_removal text.now (draft_in draft.now).vocabulary (draft_in draft.now).bodies name
        (exprs_of (expr_trees args.now))))
        (prim (removal_of (symbol_of (draft_in draft.now).vocabulary (bytes_of text.now name))
        (terms_of text.now (draft_in draft.now).vocabulary (draft_in draft.now).bodies []
        (exprs_of (expr_trees args.now))))) }
{
    if let Some(at) = large_use_in_removal(text, draft, name, args) {
        return Err(too_large(at));
    }
    let primitive = removal(alloc, text, draft, name, args)?;
    Ok(Command::Prim(primitive))
}

// `put`
pub fn put_command(
    alloc: Global,
    text: &[u8],
    draft: &ModelDraft,
    name: Name,
    args: &[Expr],
    value: &Expr,
) -> Result<Command, Refused<Fault>>
    requires nests { ExprsNest max_nesting (exprs_of (expr_trees args.now)) }
    requires value_nests { ExprNests max_nesting (expr_tree value.now) }
    requires name { NameWithin (length text.now) name }
    requires within { ExprsWithin (length text.now) (exprs_of (expr_trees args.now)) }
    requires value_within { ExprWithin (length text.now) (expr_tree value.now) }
    requires sound { IsSound (draft_in draft.now) }
    requires met { first_fault
        (put_demands text.now (draft_in draft.now).vocabulary
        (symbol_of (draft_in draft.now).vocabulary (bytes_of text.now name))
        name.start (exprs_of (expr_trees args.now)) (expr_tree value.now)) ≡ None }
    ensures { Answers command_view result
        (no_large_use (use_in_placement text.now (draft_in draft.now).vocabulary (draft_in draft.now).bodies name
        (exprs_of (expr_trees args.now))
        (expr_tree value.now)))
        (prim (placement_of (symbol_of (draft_in draft.now).vocabulary (bytes_of text.now name))
        (terms_of text.now (draft_in draft.now).vocabulary (draft_in draft.now).bodies []
        (exprs_of (expr_trees args.now)))
        (term_of text.now (draft_in draft.now).vocabulary (draft_in draft.now).bodies [] (expr_tree value.now)))) }
{
    if let Some(at) = large_use_in_placement(text, draft, name, args, value) {
        return Err(too_large(at));
    }
    let primitive = placement(alloc, text, draft, name, args, value)?;
    Ok(Command::Prim(primitive))
}

// `:=`
pub fn assign_command(
    alloc: Global,
    text: &[u8],
    draft: &ModelDraft,
    format: Format,
    name: Name,
    parameters: &[Name],
    value: &Option<Expr>,
) -> Result<Command, Refused<Fault>>
    requires nests { SideNests max_nesting (option_map expr_tree value.now) }
    requires name { NameWithin (length text.now) name }
    requires parameters { NamesWithin (length text.now) parameters.now }
    requires within { ValueWithin (length text.now) (option_map expr_tree value.now) }
    requires sound { IsSound (draft_in draft.now) }
    requires met { first_fault
        (assign_demands text.now (draft_in draft.now).vocabulary format
        (symbol_of (draft_in draft.now).vocabulary (bytes_of text.now name))
        name.start parameters.now (option_map expr_tree value.now)) ≡ None }
    ensures { Answers command_view result
        (no_large_use (use_in_assignment text.now (draft_in draft.now).vocabulary
        (draft_in draft.now).bodies name parameters.now
        (option_map expr_tree value.now)))
        (prim (assignment_of text.now (draft_in draft.now).vocabulary (draft_in draft.now).bodies
        (symbol_of (draft_in draft.now).vocabulary (bytes_of text.now name))
        parameters.now (option_map expr_tree value.now))) }
{
    if let Some(at) = large_use_in_assignment(text, draft, name, parameters, value) {
        return Err(too_large(at));
    }
    let primitive = assignment(alloc, text, draft, name, parameters, value)?;
    Ok(Command::Prim(primitive))
}
