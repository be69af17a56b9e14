// The primitives that the updates of a block stand for.
ghost use Rattle.std.specs.Prelude.{◌≡◌, ◌+◌, ◌≤◌, [], Some, None, length, IfOk, option_map};
ghost use Rattle.fol_sig.specs.Tables.{numbers};
ghost use Rattle.fol_formula.specs.Syntax.{rel, equal, negation, conjunction, disjunction, form_then, no_forms, bound};
ghost use Rattle.fol_formula.specs.Syntax.{app, ite};
ghost use Rattle.fol_formula.specs.View.{form, forms, term as term_view, terms as terms_view};
ghost use Rattle.rml_terms.specs.Tree.{expr_tree, expr_trees, exprs_of};
ghost use Rattle.rml_terms.specs.Shape.{ExprNests, ExprsNest, max_nesting};
ghost use Rattle.rml_syntax.specs.Shape.{SideNests};
ghost use Rattle.rml_terms.specs.Within.{NameWithin, NamesWithin, ExprWithin, ExprsWithin};
ghost use Rattle.rml_syntax.specs.Within.{ValueWithin, BindersWithin};
ghost use Rattle.rml_command.specs.View.{primitive};
ghost use Rattle.rml_names.specs.Meanings.{bytes_of, symbol_of, argument_sorts as sorts_of_arguments};
ghost use Rattle.rml_names.specs.Meanings.{with_parameters as names_with, with_binders};
ghost use Rattle.rml_elaborate.specs.Formulas.{formula_of, term_of, terms_of};
ghost use Rattle.rml_elaborate.specs.Updates.{insertion as insertion_of, removal as removal_of};
ghost use Rattle.rml_elaborate.specs.Updates.{placement as placement_of, assignment as assignment_of, at_tuple};
ghost use Rattle.rml_elaborate.specs.Updates.{equations as equations_of, definition as definition_of};
ghost use Rattle.rml_command.specs.Fresh.{parameters as parameters_of};
ghost use Rattle.rml_names.specs.Scopes.{bound_names};
ghost use Rattle.rml_names.specs.Drafts.{words_in};
ghost use Rattle.rml_names.specs.Sound.{IsSorted};
ghost use Rattle.fol_sig.specs.Arguments.{max_arguments};

use crate::formulas::{formula, sort_number, term};
use base::Mem;
use fol_formula::{Formula, Term};
use fol_sig::{FunId, RelId, Sort};
use rml_command::Primitive;
use rml_names::{Meaning, ModelDraft, Scope, bytes};
use rml_terms::{Binder, Expr, Name};
use std::alloc::Global;

/// insert r(t..) is r(x..) := r(x..) | (x1 = t1 & ..)
#[tactic(auto, using(crate::proofs::Tuples::terms_counted))]
pub fn insertion(
    alloc: Global,
    text: &[u8],
    draft: &ModelDraft,
    name: Name,
    args: &[Expr],
) -> Mem<Primitive>
    requires nests { ExprsNest max_nesting (exprs_of (expr_trees args.now)) }
    requires name { NameWithin (length text.now) name }
    requires within { ExprsWithin (length text.now) (exprs_of (expr_trees args.now)) }
    requires sound { IsSorted (words_in draft.now.declared) }
    requires few { length args.now ≤ max_arguments }
    ensures { IfOk result (λ p. primitive p
        ≡ insertion_of (symbol_of (words_in draft.now.declared) (bytes_of text.now name))
        (terms_of text.now (words_in draft.now.declared) draft.now.bodies.items [] (exprs_of (expr_trees args.now)))) }
{
    match draft.declared.symbol(bytes(text, name)) {
        Meaning::Relation(place) => {
            let held = atom(alloc, RelId(place), args.len() as u32)?;
            let tuple = tuple(alloc, text, draft, args)?;
            let by = either(alloc, held, tuple)?;
            Ok(Primitive::SetRel(RelId(place), by))
        }
        Meaning::Bound(_, _) => Ok(Primitive::Abort),
        Meaning::Function(_) => Ok(Primitive::Abort),
        Meaning::Derived(_) => Ok(Primitive::Abort),
        Meaning::Unknown => Ok(Primitive::Abort),
    }
}

/// remove r(t..) is r(x..) := r(x..) & ~(x1 = t1 & ..)
#[tactic(auto, using(crate::proofs::Tuples::terms_counted))]
pub fn removal(
    alloc: Global,
    text: &[u8],
    draft: &ModelDraft,
    name: Name,
    args: &[Expr],
) -> Mem<Primitive>
    requires nests { ExprsNest max_nesting (exprs_of (expr_trees args.now)) }
    requires name { NameWithin (length text.now) name }
    requires within { ExprsWithin (length text.now) (exprs_of (expr_trees args.now)) }
    requires sound { IsSorted (words_in draft.now.declared) }
    requires few { length args.now ≤ max_arguments }
    ensures { IfOk result (λ p. primitive p
        ≡ removal_of (symbol_of (words_in draft.now.declared) (bytes_of text.now name))
        (terms_of text.now (words_in draft.now.declared) draft.now.bodies.items [] (exprs_of (expr_trees args.now)))) }
{
    match draft.declared.symbol(bytes(text, name)) {
        Meaning::Relation(place) => {
            let held = atom(alloc, RelId(place), args.len() as u32)?;
            let tuple = tuple(alloc, text, draft, args)?;
            let by = but_not(alloc, held, tuple)?;
            Ok(Primitive::SetRel(RelId(place), by))
        }
        Meaning::Bound(_, _) => Ok(Primitive::Abort),
        Meaning::Function(_) => Ok(Primitive::Abort),
        Meaning::Derived(_) => Ok(Primitive::Abort),
        Meaning::Unknown => Ok(Primitive::Abort),
    }
}

/// put f(t..) = u is f(x..) := ite(x1 = t1 & .., u, f(x..))
#[tactic(auto, using(crate::proofs::Tuples::terms_counted))]
pub fn placement(
    alloc: Global,
    text: &[u8],
    draft: &ModelDraft,
    name: Name,
    args: &[Expr],
    value: &Expr,
) -> Mem<Primitive>
    requires nests { ExprsNest max_nesting (exprs_of (expr_trees args.now)) }
    requires value_nests { ExprNests max_nesting (expr_tree value.now) }
    requires name { NameWithin (length text.now) name }
    requires within { ExprsWithin (length text.now) (exprs_of (expr_trees args.now)) }
    requires value_within { ExprWithin (length text.now) (expr_tree value.now) }
    requires sound { IsSorted (words_in draft.now.declared) }
    requires few { length args.now ≤ max_arguments }
    ensures { IfOk result (λ p. primitive p
        ≡ placement_of (symbol_of (words_in draft.now.declared) (bytes_of text.now name))
        (terms_of text.now (words_in draft.now.declared) draft.now.bodies.items [] (exprs_of (expr_trees args.now)))
        (term_of text.now (words_in draft.now.declared) draft.now.bodies.items [] (expr_tree value.now))) }
{
    match draft.declared.symbol(bytes(text, name)) {
        Meaning::Function(place) => {
            let tuple = tuple(alloc, text, draft, args)?;
            let value = term_outside(alloc, text, draft, value)?;
            let kept = application(alloc, FunId(place), args.len() as u32)?;
            let by = choice(alloc, tuple, value, kept)?;
            Ok(Primitive::SetFun(FunId(place), by))
        }
        Meaning::Bound(_, _) => Ok(Primitive::Abort),
        Meaning::Relation(_) => Ok(Primitive::Abort),
        Meaning::Derived(_) => Ok(Primitive::Abort),
        Meaning::Unknown => Ok(Primitive::Abort),
    }
}

/// r(x..) := phi, f(x..) := t, v := * and r(x..) := *
pub fn assignment(
    alloc: Global,
    text: &[u8],
    draft: &ModelDraft,
    name: Name,
    parameters: &[Name],
    value: &Option<Expr>,
) -> Mem<Primitive>
    requires nests { SideNests max_nesting (option_map expr_tree value.now) }
    requires name { NameWithin (length text.now) name }
    requires parameters { NamesWithin (length text.now) parameters.now }
    requires within { ValueWithin (length text.now) (option_map expr_tree value.now) }
    requires sound { IsSorted (words_in draft.now.declared) }
    ensures { IfOk result (λ p. primitive p
        ≡ assignment_of text.now (words_in draft.now.declared) draft.now.bodies.items
        (symbol_of (words_in draft.now.declared) (bytes_of text.now name))
        parameters.now (option_map expr_tree value.now)) }
{
    let meaning = draft.declared.symbol(bytes(text, name));
    let sorts = draft.declared.argument_sorts(meaning);
    match value {
        Some(e) => set_to(alloc, text, draft, meaning, parameters, sorts, e),
        None => match meaning {
            Meaning::Function(place) => Ok(Primitive::Havoc(FunId(place))),
            Meaning::Relation(place) => Ok(Primitive::HavocRel(RelId(place))),
            Meaning::Bound(_, _) => Ok(Primitive::Abort),
            Meaning::Derived(_) => Ok(Primitive::Abort),
            Meaning::Unknown => Ok(Primitive::Abort),
        },
    }
}

// The update of what is meant, with these sorts of its arguments, by an expression under its parameters.
fn set_to(
    alloc: Global,
    text: &[u8],
    draft: &ModelDraft,
    meaning: Meaning,
    parameters: &[Name],
    sorts: &[Sort],
    e: &Expr,
) -> Mem<Primitive>
    requires parameters { NamesWithin (length text.now) parameters.now }
    requires nests { ExprNests max_nesting (expr_tree e.now) }
    requires within { ExprWithin (length text.now) (expr_tree e.now) }
    requires few { length sorts.now ≤ max_arguments }
    requires sorts { numbers sorts.now ≡ sorts_of_arguments (words_in draft.now.declared) meaning }
    requires sound { IsSorted (words_in draft.now.declared) }
    ensures { IfOk result (λ p. primitive p
        ≡ assignment_of text.now (words_in draft.now.declared) draft.now.bodies.items meaning parameters.now
        (Some (expr_tree e.now))) }
{
    match meaning {
        Meaning::Relation(place) => {
            let by = formula_under(alloc, text, draft, &Scope::Outside, parameters, sorts, e)?;
            Ok(Primitive::SetRel(RelId(place), by))
        }
        Meaning::Function(place) => {
            let by = term_under(alloc, text, draft, &Scope::Outside, parameters, sorts, e)?;
            Ok(Primitive::SetFun(FunId(place), by))
        }
        Meaning::Bound(_, _) => Ok(Primitive::Abort),
        Meaning::Derived(_) => Ok(Primitive::Abort),
        Meaning::Unknown => Ok(Primitive::Abort),
    }
}

// The formula of an expression, with the parameters put into the scope one after the other.
fn formula_under(
    alloc: Global,
    text: &[u8],
    draft: &ModelDraft,
    scope: &Scope,
    parameters: &[Name],
    sorts: &[Sort],
    e: &Expr,
) -> Mem<Formula>
    requires parameters { NamesWithin (length text.now) parameters.now }
    requires nests { ExprNests max_nesting (expr_tree e.now) }
    requires within { ExprWithin (length text.now) (expr_tree e.now) }
    requires few { length (bound_names scope.now) + length sorts.now ≤ max_arguments }
    requires sound { IsSorted (words_in draft.now.declared) }
    ensures { IfOk result (λ p. form p
        ≡ formula_of text.now (words_in draft.now.declared) draft.now.bodies.items
        (names_with text.now (bound_names scope.now) parameters.now (numbers sorts.now)) (expr_tree e.now)) }
{
    if let [parameter, more @ ..] = parameters {
        if let [sort, others @ ..] = sorts {
            let inner = Scope::inside(bytes(text, *parameter), sort.0, &*scope);
            let p = formula_under(alloc, text, draft, &inner, more, others, e)?;
            return Ok(p);
        }
    }
    let p = formula(alloc, text, draft, scope, e)?;
    Ok(p)
}

// The term of an expression, with the parameters put into the scope one after the other.
fn term_under(
    alloc: Global,
    text: &[u8],
    draft: &ModelDraft,
    scope: &Scope,
    parameters: &[Name],
    sorts: &[Sort],
    e: &Expr,
) -> Mem<Term>
    requires parameters { NamesWithin (length text.now) parameters.now }
    requires nests { ExprNests max_nesting (expr_tree e.now) }
    requires within { ExprWithin (length text.now) (expr_tree e.now) }
    requires few { length (bound_names scope.now) + length sorts.now ≤ max_arguments }
    requires sound { IsSorted (words_in draft.now.declared) }
    ensures { IfOk result (λ t. term_view t
        ≡ term_of text.now (words_in draft.now.declared) draft.now.bodies.items
        (names_with text.now (bound_names scope.now) parameters.now (numbers sorts.now)) (expr_tree e.now)) }
{
    if let [parameter, more @ ..] = parameters {
        if let [sort, others @ ..] = sorts {
            let inner = Scope::inside(bytes(text, *parameter), sort.0, &*scope);
            let t = term_under(alloc, text, draft, &inner, more, others, e)?;
            return Ok(t);
        }
    }
    let t = term(alloc, text, draft, scope, e)?;
    Ok(t)
}

// The term of an expression without binders around it.
fn term_outside(alloc: Global, text: &[u8], draft: &ModelDraft, e: &Expr) -> Mem<Term>
    requires nests { ExprNests max_nesting (expr_tree e.now) }
    requires within { ExprWithin (length text.now) (expr_tree e.now) }
    requires sound { IsSorted (words_in draft.now.declared) }
    ensures { IfOk result
        (λ t. term_view t ≡ term_of text.now (words_in draft.now.declared) draft.now.bodies.items []
        (expr_tree e.now)) }
{
    let t = term(alloc, text, draft, &Scope::Outside, e)?;
    Ok(t)
}

/// The right side of a definition, with its parameters free: the last one is the index 0.
pub fn definition(
    alloc: Global,
    text: &[u8],
    draft: &ModelDraft,
    parameters: &[Binder],
    e: &Expr,
) -> Mem<Formula>
    requires parameters { BindersWithin (length text.now) parameters.now }
    requires few { length parameters.now ≤ max_arguments }
    requires nests { ExprNests max_nesting (expr_tree e.now) }
    requires within { ExprWithin (length text.now) (expr_tree e.now) }
    requires sound { IsSorted (words_in draft.now.declared) }
    ensures { IfOk result (λ p. form p
        ≡ definition_of text.now (words_in draft.now.declared) draft.now.bodies.items parameters.now
        (expr_tree e.now)) }
{
    let outside = Scope::outside();
    let p = definition_under(alloc, text, draft, &outside, parameters, e)?;
    Ok(p)
}

// The formula of an expression, with the parameters of a definition put into the scope one after the other.
fn definition_under(
    alloc: Global,
    text: &[u8],
    draft: &ModelDraft,
    scope: &Scope,
    parameters: &[Binder],
    e: &Expr,
) -> Mem<Formula>
    requires parameters { BindersWithin (length text.now) parameters.now }
    requires nests { ExprNests max_nesting (expr_tree e.now) }
    requires within { ExprWithin (length text.now) (expr_tree e.now) }
    requires few { length (bound_names scope.now) + length parameters.now ≤ max_arguments }
    requires sound { IsSorted (words_in draft.now.declared) }
    ensures { IfOk result (λ p. form p
        ≡ formula_of text.now (words_in draft.now.declared) draft.now.bodies.items
        (with_binders text.now (words_in draft.now.declared) (bound_names scope.now) parameters.now)
        (expr_tree e.now)) }
{
    if let [b, more @ ..] = parameters {
        let sort = sort_number(text, &draft.declared, b.sort);
        let inner = Scope::inside(bytes(text, b.name), sort, &*scope);
        let p = definition_under(alloc, text, draft, &inner, more, e)?;
        return Ok(p);
    }
    let p = formula(alloc, text, draft, scope, e)?;
    Ok(p)
}

/// The formula of an expression without binders around it.
pub fn formula_outside(alloc: Global, text: &[u8], draft: &ModelDraft, e: &Expr) -> Mem<Formula>
    requires nests { ExprNests max_nesting (expr_tree e.now) }
    requires within { ExprWithin (length text.now) (expr_tree e.now) }
    requires sound { IsSorted (words_in draft.now.declared) }
    ensures { IfOk result
        (λ p. form p ≡ formula_of text.now (words_in draft.now.declared) draft.now.bodies.items [] (expr_tree e.now)) }
{
    let p = formula(alloc, text, draft, &Scope::Outside, e)?;
    Ok(p)
}

// A relation of its parameters.
fn atom(alloc: Global, relation: RelId, count: u32) -> Mem<Formula>
    requires { count ≤ max_arguments }
    ensures { IfOk result (λ p. form p ≡ rel relation.0 (parameters_of count)) }
{
    let args = parameters(alloc, count)?;
    Ok(Formula::Rel(relation, args))
}

// A function of its parameters.
fn application(alloc: Global, function: FunId, count: u32) -> Mem<Term>
    requires { count ≤ max_arguments }
    ensures { IfOk result (λ t. term_view t ≡ app function.0 (parameters_of count)) }
{
    let args = parameters(alloc, count)?;
    Ok(Term::App(function, args))
}

// The parameters of a symbol, the last one with the index 0.
fn parameters(alloc: Global, count: u32) -> Mem<Vec<Term>>
    requires { count ≤ max_arguments }
    ensures { IfOk result (λ ts. terms_view ts.items ≡ parameters_of count) }
{
    fol_formula::lists();
    let mut all = Vec::with_capacity(alloc, count as usize)?;
    let mut left = count;
    while left > 0 {
        left -= 1;
        all.push(parameter(left))?;
    }
    Ok(all)
}

fn parameter(index: u32) -> Term
    ensures { term_view result ≡ bound index }
{
    Term::Bound(index)
}

fn either(alloc: Global, p: Formula, q: Formula) -> Mem<Formula>
    ensures { IfOk result (λ r. form r ≡ disjunction (form_then (form p) (form_then (form q) no_forms))) }
{
    Ok(Formula::Or(vec![in alloc; p, q]?))
}

fn but_not(alloc: Global, p: Formula, q: Formula) -> Mem<Formula>
    ensures { IfOk result (λ r. form r ≡ conjunction (form_then (form p) (form_then (negation (form q)) no_forms))) }
{
    let q = Formula::Not(Box::new(alloc, q)?);
    Ok(Formula::And(vec![in alloc; p, q]?))
}

fn choice(alloc: Global, p: Formula, a: Term, b: Term) -> Mem<Term>
    ensures { IfOk result (λ t. term_view t ≡ ite (form p) (term_view a) (term_view b)) }
{
    let p = Box::new(alloc, p)?;
    let a = Box::new(alloc, a)?;
    Ok(Term::Ite(p, a, Box::new(alloc, b)?))
}

// Each parameter is the term of its argument.
fn tuple(alloc: Global, text: &[u8], draft: &ModelDraft, args: &[Expr]) -> Mem<Formula>
    requires nests { ExprsNest max_nesting (exprs_of (expr_trees args.now)) }
    requires within { ExprsWithin (length text.now) (exprs_of (expr_trees args.now)) }
    requires sound { IsSorted (words_in draft.now.declared) }
    requires few { length args.now ≤ max_arguments }
    ensures { IfOk result (λ p. form p
        ≡ at_tuple (terms_of text.now (words_in draft.now.declared) draft.now.bodies.items []
        (exprs_of (expr_trees args.now)))) }
{
    let all = equations(alloc, text, draft, args)?;
    Ok(Formula::And(all))
}

fn equations(alloc: Global, text: &[u8], draft: &ModelDraft, args: &[Expr]) -> Mem<Vec<Formula>>
    requires nests { ExprsNest max_nesting (exprs_of (expr_trees args.now)) }
    requires within { ExprsWithin (length text.now) (exprs_of (expr_trees args.now)) }
    requires sound { IsSorted (words_in draft.now.declared) }
    requires few { length args.now ≤ max_arguments }
    ensures { IfOk result (λ ps. forms ps.items
        ≡ equations_of (terms_of text.now (words_in draft.now.declared) draft.now.bodies.items []
        (exprs_of (expr_trees args.now)))) }
{
    fol_formula::lists();
    let mut all = Vec::with_capacity(alloc, args.len())?;
    let mut left = args.len();
    for e in args {
        left -= 1;
        let t = term_outside(alloc, text, draft, e)?;
        all.push(equation(left as u32, t))?;
    }
    Ok(all)
}

// A parameter is the term.
fn equation(index: u32, t: Term) -> Formula
    ensures { form result ≡ equal (bound index) (term_view t) }
{
    Formula::Eq(Term::Bound(index), t)
}
