// Whether a sentence, a definition or an update is too large with all uses of derived relations written out, and where
// the first use stands then. Nothing is built.
ghost use Rattle.std.specs.Prelude.{◌≡◌, ◌≤◌, ◌-◌, ◌+◌, [], length, option_map, Some};
ghost use Rattle.std.specs.Option.{option_or};
ghost use Rattle.fol_sig.specs.Tables.{numbers};
ghost use Rattle.rml_terms.specs.Tree.{expr_tree, expr_trees, exprs_of};
ghost use Rattle.rml_terms.specs.Shape.{ExprNests, ExprsNest, max_nesting};
ghost use Rattle.rml_terms.specs.Within.{NameWithin, NamesWithin, ExprWithin, ExprsWithin};
ghost use Rattle.rml_syntax.specs.Shape.{SideNests};
ghost use Rattle.rml_syntax.specs.Within.{ValueWithin, BindersWithin};
ghost use Rattle.rml_names.specs.Meanings.{with_parameters as names_with, with_binders};
ghost use Rattle.rml_names.specs.Meanings.{argument_sorts as sorts_of_arguments};
ghost use Rattle.rml_names.specs.Scopes.{bound_names, max_bound};
ghost use Rattle.rml_names.specs.Drafts.{words_in};
ghost use Rattle.rml_names.specs.Sound.{IsSorted};
ghost use Rattle.rml_elaborate.specs.Formulas.{term_of, terms_of};
ghost use Rattle.rml_elaborate.specs.Updates.{assignment, right_of_insertion, right_of_removal, right_of_placement};
ghost use Rattle.rml_elaborate.specs.Sizes.{is_large, is_large_term, is_large_update, where_large};
ghost use Rattle.rml_elaborate.specs.Sizes.{first_use_of};
ghost use Rattle.rml_elaborate.specs.Sizes.{first_use_in_each, first_use_in_side};
ghost use Rattle.rml_elaborate.specs.Sizes.{large_use_in_formula as large_use_of_formula};
ghost use Rattle.rml_elaborate.specs.Sizes.{large_use_in_term as large_use_of_term};
ghost use Rattle.rml_elaborate.specs.Sizes.{large_use_in_insertion as large_use_of_insertion};
ghost use Rattle.rml_elaborate.specs.Sizes.{large_use_in_removal as large_use_of_removal};
ghost use Rattle.rml_elaborate.specs.Sizes.{large_use_in_placement as large_use_of_placement};
ghost use Rattle.rml_elaborate.specs.Sizes.{large_use_in_assignment as large_use_of_assignment};
ghost use Rattle.rml_elaborate.specs.Sizes.{large_use_in_definition as large_use_of_definition};
ghost use Rattle.fol_sig.specs.Arguments.{max_arguments};

use crate::formulas::sort_number;
use crate::sizes::{formula_extent, term_extent, where_large};
use crate::update_sizes::{insertion_extent, placement_extent, removal_extent};
use crate::uses::{first_use, first_use_in_each_outside, first_use_outside};
use fol_sig::Sort;
use rml_names::{Meaning, ModelDraft, Scope, bytes};
use rml_terms::{Binder, Expr, Name};

/// The first use in an expression without binders around it, if its formula is too large.
pub fn large_use_in_formula(text: &[u8], draft: &ModelDraft, e: &Expr) -> Option<u64>
    requires nests { ExprNests max_nesting (expr_tree e.now) }
    requires within { ExprWithin (length text.now) (expr_tree e.now) }
    requires sound { IsSorted (words_in draft.now.declared) }
    ensures { result ≡ large_use_of_formula text.now (words_in draft.now.declared) draft.now.bodies.items []
        (expr_tree e.now) }
{
    large_formula_use(text, draft, &Scope::Outside, e)
}

/// The first use in the right side of a definition, if that is too large.
pub fn large_use_in_definition(
    text: &[u8],
    draft: &ModelDraft,
    parameters: &[Binder],
    e: &Expr,
) -> Option<u64>
    requires parameters { BindersWithin (length text.now) parameters.now }
    requires few { length parameters.now ≤ max_arguments }
    requires nests { ExprNests max_nesting (expr_tree e.now) }
    requires within { ExprWithin (length text.now) (expr_tree e.now) }
    requires sound { IsSorted (words_in draft.now.declared) }
    ensures { result ≡ large_use_of_definition text.now (words_in draft.now.declared) draft.now.bodies.items
        parameters.now (expr_tree e.now) }
{
    large_use_under_binders(text, draft, &Scope::Outside, parameters, e)
}

/// The first use in an `insert`, if the right side of its update is too large.
pub fn large_use_in_insertion(
    text: &[u8],
    draft: &ModelDraft,
    name: Name,
    args: &[Expr],
) -> Option<u64>
    requires name { NameWithin (length text.now) name }
    requires nests { ExprsNest max_nesting (exprs_of (expr_trees args.now)) }
    requires within { ExprsWithin (length text.now) (exprs_of (expr_trees args.now)) }
    requires sound { IsSorted (words_in draft.now.declared) }
    requires few { length args.now ≤ max_arguments }
    ensures { result ≡ large_use_of_insertion text.now (words_in draft.now.declared) draft.now.bodies.items name
        (exprs_of (expr_trees args.now)) }
{
    match draft.declared.symbol(bytes(text, name)) {
        Meaning::Relation(place) => insertion_use(text, draft, place, args),
        Meaning::Bound(_, _) => None,
        Meaning::Function(_) => None,
        Meaning::Derived(_) => None,
        Meaning::Unknown => None,
    }
}

fn insertion_use(text: &[u8], draft: &ModelDraft, symbol: u32, args: &[Expr]) -> Option<u64>
    requires nests { ExprsNest max_nesting (exprs_of (expr_trees args.now)) }
    requires within { ExprsWithin (length text.now) (exprs_of (expr_trees args.now)) }
    requires sound { IsSorted (words_in draft.now.declared) }
    requires few { length args.now ≤ max_arguments }
    ensures { result ≡ where_large
        (is_large (right_of_insertion symbol
        (terms_of text.now (words_in draft.now.declared) draft.now.bodies.items [] (exprs_of (expr_trees args.now)))))
        (first_use_in_each text.now (words_in draft.now.declared) [] (exprs_of (expr_trees args.now))) }
{
    fol_subst::extent_laws();
    let inside = first_use_in_each_outside(text, &draft.declared, args);
    where_large(insertion_extent(text, draft, symbol, args), inside)
}

/// The first use in a `remove`, if the right side of its update is too large.
pub fn large_use_in_removal(
    text: &[u8],
    draft: &ModelDraft,
    name: Name,
    args: &[Expr],
) -> Option<u64>
    requires name { NameWithin (length text.now) name }
    requires nests { ExprsNest max_nesting (exprs_of (expr_trees args.now)) }
    requires within { ExprsWithin (length text.now) (exprs_of (expr_trees args.now)) }
    requires sound { IsSorted (words_in draft.now.declared) }
    requires few { length args.now ≤ max_arguments }
    ensures { result ≡ large_use_of_removal text.now (words_in draft.now.declared) draft.now.bodies.items name
        (exprs_of (expr_trees args.now)) }
{
    match draft.declared.symbol(bytes(text, name)) {
        Meaning::Relation(place) => removal_use(text, draft, place, args),
        Meaning::Bound(_, _) => None,
        Meaning::Function(_) => None,
        Meaning::Derived(_) => None,
        Meaning::Unknown => None,
    }
}

fn removal_use(text: &[u8], draft: &ModelDraft, symbol: u32, args: &[Expr]) -> Option<u64>
    requires nests { ExprsNest max_nesting (exprs_of (expr_trees args.now)) }
    requires within { ExprsWithin (length text.now) (exprs_of (expr_trees args.now)) }
    requires sound { IsSorted (words_in draft.now.declared) }
    requires few { length args.now ≤ max_arguments }
    ensures { result ≡ where_large
        (is_large (right_of_removal symbol
        (terms_of text.now (words_in draft.now.declared) draft.now.bodies.items [] (exprs_of (expr_trees args.now)))))
        (first_use_in_each text.now (words_in draft.now.declared) [] (exprs_of (expr_trees args.now))) }
{
    fol_subst::extent_laws();
    let inside = first_use_in_each_outside(text, &draft.declared, args);
    where_large(removal_extent(text, draft, symbol, args), inside)
}

/// The first use in a `put`, if the right side of its update is too large.
pub fn large_use_in_placement(
    text: &[u8],
    draft: &ModelDraft,
    name: Name,
    args: &[Expr],
    value: &Expr,
) -> Option<u64>
    requires name { NameWithin (length text.now) name }
    requires nests { ExprsNest max_nesting (exprs_of (expr_trees args.now)) }
    requires within { ExprsWithin (length text.now) (exprs_of (expr_trees args.now)) }
    requires value_nests { ExprNests max_nesting (expr_tree value.now) }
    requires value_within { ExprWithin (length text.now) (expr_tree value.now) }
    requires sound { IsSorted (words_in draft.now.declared) }
    requires few { length args.now ≤ max_arguments }
    ensures { result ≡ large_use_of_placement text.now (words_in draft.now.declared) draft.now.bodies.items name
        (exprs_of (expr_trees args.now)) (expr_tree value.now) }
{
    match draft.declared.symbol(bytes(text, name)) {
        Meaning::Function(place) => placement_use(text, draft, place, args, value),
        Meaning::Bound(_, _) => None,
        Meaning::Relation(_) => None,
        Meaning::Derived(_) => None,
        Meaning::Unknown => None,
    }
}

fn placement_use(
    text: &[u8],
    draft: &ModelDraft,
    symbol: u32,
    args: &[Expr],
    value: &Expr,
) -> Option<u64>
    requires nests { ExprsNest max_nesting (exprs_of (expr_trees args.now)) }
    requires within { ExprsWithin (length text.now) (exprs_of (expr_trees args.now)) }
    requires value_nests { ExprNests max_nesting (expr_tree value.now) }
    requires value_within { ExprWithin (length text.now) (expr_tree value.now) }
    requires sound { IsSorted (words_in draft.now.declared) }
    requires few { length args.now ≤ max_arguments }
    ensures { result ≡ where_large
        (is_large_term (right_of_placement symbol
        (terms_of text.now (words_in draft.now.declared) draft.now.bodies.items [] (exprs_of (expr_trees args.now)))
        (term_of text.now (words_in draft.now.declared) draft.now.bodies.items [] (expr_tree value.now))))
        (option_or (first_use_in_each text.now (words_in draft.now.declared) [] (exprs_of (expr_trees args.now)))
        (first_use_of text.now (words_in draft.now.declared) [] (expr_tree value.now))) }
{
    fol_subst::extent_laws();
    let inside = first_use_in_each_outside(text, &draft.declared, args);
    let place = inside.or(first_use_outside(text, &draft.declared, value));
    where_large(placement_extent(text, draft, symbol, args, value), place)
}

/// The first use in the right side of an assignment, if that is too large.
pub fn large_use_in_assignment(
    text: &[u8],
    draft: &ModelDraft,
    name: Name,
    parameters: &[Name],
    value: &Option<Expr>,
) -> Option<u64>
    requires nests { SideNests max_nesting (option_map expr_tree value.now) }
    requires name { NameWithin (length text.now) name }
    requires parameters { NamesWithin (length text.now) parameters.now }
    requires within { ValueWithin (length text.now) (option_map expr_tree value.now) }
    requires sound { IsSorted (words_in draft.now.declared) }
    ensures { result ≡ large_use_of_assignment text.now (words_in draft.now.declared) draft.now.bodies.items name
        parameters.now (option_map expr_tree value.now) }
{
    let meaning = draft.declared.symbol(bytes(text, name));
    let sorts = draft.declared.argument_sorts(meaning);
    match value {
        Some(e) => large_use_in_side(text, draft, meaning, parameters, sorts, e),
        None => None,
    }
}

// The update of what is meant, with these sorts of its arguments, by an expression under its parameters.
fn large_use_in_side(
    text: &[u8],
    draft: &ModelDraft,
    meaning: Meaning,
    parameters: &[Name],
    sorts: &[Sort],
    e: &Expr,
) -> Option<u64>
    requires parameters { NamesWithin (length text.now) parameters.now }
    requires nests { ExprNests max_nesting (expr_tree e.now) }
    requires within { ExprWithin (length text.now) (expr_tree e.now) }
    requires few { length sorts.now ≤ max_arguments }
    requires sorts { numbers sorts.now ≡ sorts_of_arguments (words_in draft.now.declared) meaning }
    requires sound { IsSorted (words_in draft.now.declared) }
    ensures { result ≡ where_large
        (is_large_update (assignment text.now
        (words_in draft.now.declared) draft.now.bodies.items meaning parameters.now (Some (expr_tree e.now))))
        (first_use_in_side text.now (words_in draft.now.declared) meaning parameters.now (Some (expr_tree e.now))) }
{
    match meaning {
        Meaning::Relation(_) => {
            large_formula_use_under(text, draft, &Scope::Outside, parameters, sorts, e)
        }
        Meaning::Function(_) => {
            large_term_use_under(text, draft, &Scope::Outside, parameters, sorts, e)
        }
        Meaning::Bound(_, _) | Meaning::Derived(_) | Meaning::Unknown => None,
    }
}

// In an expression under the binders of the scope, by its formula.
fn large_formula_use(text: &[u8], draft: &ModelDraft, scope: &Scope, e: &Expr) -> Option<u64>
    requires nests { ExprNests (max_bound - length (bound_names scope.now)) (expr_tree e.now) }
    requires few { length (bound_names scope.now) ≤ max_bound }
    requires within { ExprWithin (length text.now) (expr_tree e.now) }
    requires sound { IsSorted (words_in draft.now.declared) }
    ensures { result ≡ large_use_of_formula text.now (words_in draft.now.declared) draft.now.bodies.items
        (bound_names scope.now) (expr_tree e.now) }
{
    fol_subst::extent_laws();
    let place = first_use(text, &draft.declared, scope, e);
    where_large(formula_extent(text, draft, scope, e), place)
}

// In an expression under the binders of the scope, by its term.
fn large_term_use(text: &[u8], draft: &ModelDraft, scope: &Scope, e: &Expr) -> Option<u64>
    requires nests { ExprNests (max_bound - length (bound_names scope.now)) (expr_tree e.now) }
    requires few { length (bound_names scope.now) ≤ max_bound }
    requires within { ExprWithin (length text.now) (expr_tree e.now) }
    requires sound { IsSorted (words_in draft.now.declared) }
    ensures { result ≡ large_use_of_term text.now (words_in draft.now.declared) draft.now.bodies.items
        (bound_names scope.now) (expr_tree e.now) }
{
    fol_subst::extent_laws();
    let place = first_use(text, &draft.declared, scope, e);
    where_large(term_extent(text, draft, scope, e), place)
}

// By the formula, with the parameters put into the scope one after the other.
fn large_formula_use_under(
    text: &[u8],
    draft: &ModelDraft,
    scope: &Scope,
    parameters: &[Name],
    sorts: &[Sort],
    e: &Expr,
) -> Option<u64>
    requires parameters { NamesWithin (length text.now) parameters.now }
    requires nests { ExprNests max_nesting (expr_tree e.now) }
    requires within { ExprWithin (length text.now) (expr_tree e.now) }
    requires few { length (bound_names scope.now) + length sorts.now ≤ max_arguments }
    requires sound { IsSorted (words_in draft.now.declared) }
    ensures { result ≡ large_use_of_formula text.now (words_in draft.now.declared) draft.now.bodies.items
        (names_with text.now (bound_names scope.now) parameters.now (numbers sorts.now)) (expr_tree e.now) }
{
    if let [parameter, more @ ..] = parameters {
        if let [sort, others @ ..] = sorts {
            let inner = Scope::inside(bytes(text, *parameter), sort.0, &*scope);
            return large_formula_use_under(text, draft, &inner, more, others, e);
        }
    }
    large_formula_use(text, draft, scope, e)
}

// By the term, with the parameters put into the scope one after the other.
fn large_term_use_under(
    text: &[u8],
    draft: &ModelDraft,
    scope: &Scope,
    parameters: &[Name],
    sorts: &[Sort],
    e: &Expr,
) -> Option<u64>
    requires parameters { NamesWithin (length text.now) parameters.now }
    requires nests { ExprNests max_nesting (expr_tree e.now) }
    requires within { ExprWithin (length text.now) (expr_tree e.now) }
    requires few { length (bound_names scope.now) + length sorts.now ≤ max_arguments }
    requires sound { IsSorted (words_in draft.now.declared) }
    ensures { result ≡ large_use_of_term text.now (words_in draft.now.declared) draft.now.bodies.items
        (names_with text.now (bound_names scope.now) parameters.now (numbers sorts.now)) (expr_tree e.now) }
{
    if let [parameter, more @ ..] = parameters {
        if let [sort, others @ ..] = sorts {
            let inner = Scope::inside(bytes(text, *parameter), sort.0, &*scope);
            return large_term_use_under(text, draft, &inner, more, others, e);
        }
    }
    large_term_use(text, draft, scope, e)
}

// By the formula, with the parameters of a definition put into the scope one after the other.
fn large_use_under_binders(
    text: &[u8],
    draft: &ModelDraft,
    scope: &Scope,
    parameters: &[Binder],
    e: &Expr,
) -> Option<u64>
    requires parameters { BindersWithin (length text.now) parameters.now }
    requires nests { ExprNests max_nesting (expr_tree e.now) }
    requires within { ExprWithin (length text.now) (expr_tree e.now) }
    requires few { length (bound_names scope.now) + length parameters.now ≤ max_arguments }
    requires sound { IsSorted (words_in draft.now.declared) }
    ensures { result ≡ large_use_of_formula text.now (words_in draft.now.declared) draft.now.bodies.items
        (with_binders text.now (words_in draft.now.declared) (bound_names scope.now) parameters.now)
        (expr_tree e.now) }
{
    if let [b, more @ ..] = parameters {
        let sort = sort_number(text, &draft.declared, b.sort);
        let inner = Scope::inside(bytes(text, b.name), sort, &*scope);
        return large_use_under_binders(text, draft, &inner, more, e);
    }
    large_formula_use(text, draft, scope, e)
}
