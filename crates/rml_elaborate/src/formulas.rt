// The formulas and terms that expressions stand for.
ghost use Rattle.std.specs.Prelude.{◌≡◌, ◌-◌, ◌≤◌, length, IfOk};
ghost use Rattle.fol_formula.specs.View.{form, forms, term as term_view, terms as terms_view};
ghost use Rattle.rml_terms.specs.Tree.{expr_tree, expr_trees, exprs_of, Quantified, Apply};
ghost use Rattle.rml_terms.specs.Shape.{ExprNests, ExprsNest};
ghost use Rattle.rml_terms.specs.Within.{NameWithin, BinderWithin, ExprWithin, ExprsWithin};
ghost use Rattle.rml_names.specs.Meanings.{bytes_of, sort_number};
ghost use Rattle.rml_names.specs.declared.meaning.Meaning.TheVariants.{Derived};
ghost use Rattle.fol_subst.specs.Replace.{change_rel};
ghost use Rattle.fol_subst.specs.Kept.{kept, kept_one};
ghost use Rattle.rml_elaborate.specs.Formulas.{formula_of, formulas_of, term_of, terms_of, atom_of};
ghost use Rattle.rml_names.specs.Scopes.{bound_names, max_bound};
ghost use Rattle.rml_names.specs.Drafts.{words_in};
ghost use Rattle.rml_names.specs.Sound.{IsSorted};

use base::Mem;
use fol_formula::{Formula, Term};
use fol_sig::{FunId, RelId, Sort};
use fol_subst::Template;
use rml_names::{Declarations, Meaning, ModelDraft, Scope, bytes};
use rml_terms::{Binder, Expr, Name, Quantifier};
use std::alloc::Global;

// The formula of an expression in a formula's place, under the binders of the scope.
#[cycle(formula)]
pub fn formula(
    alloc: Global,
    text: &[u8],
    draft: &ModelDraft,
    scope: &Scope,
    e: &Expr,
) -> Mem<Formula>
    requires nests { ExprNests (max_bound - length (bound_names scope.now)) (expr_tree e.now) }
    requires few { length (bound_names scope.now) ≤ max_bound }
    requires within { ExprWithin (length text.now) (expr_tree e.now) }
    requires sound { IsSorted (words_in draft.now.declared) }
    ensures { IfOk result (λ p. form p
        ≡ formula_of text.now (words_in draft.now.declared) draft.now.bodies.items (bound_names scope.now)
        (expr_tree e.now)) }
{
    match e {
        Expr::True(_) => Ok(Formula::True),
        Expr::False(_) => Ok(Formula::False),
        Expr::Apply(name, args) => atom(alloc, text, draft, scope, *name, args),
        Expr::Ite(_, _, _, _) => Ok(Formula::False),
        Expr::Equal(_, a, b) => {
            let a = term(alloc, text, draft, scope, a)?;
            Ok(Formula::Eq(a, term(alloc, text, draft, scope, b)?))
        }
        Expr::Not(_, a) => Ok(Formula::Not(boxed(alloc, text, draft, scope, a)?)),
        Expr::And(_, args) => Ok(Formula::And(formulas(alloc, text, draft, scope, args)?)),
        Expr::Or(_, args) => Ok(Formula::Or(formulas(alloc, text, draft, scope, args)?)),
        Expr::Implies(_, a, b) => {
            let a = boxed(alloc, text, draft, scope, a)?;
            Ok(Formula::Implies(a, boxed(alloc, text, draft, scope, b)?))
        }
        Expr::Iff(_, a, b) => {
            let a = boxed(alloc, text, draft, scope, a)?;
            Ok(Formula::Iff(a, boxed(alloc, text, draft, scope, b)?))
        }
        Expr::Quantified(q, at, b, a) => quantified(alloc, text, draft, scope, *q, *at, *b, a),
    }
}

// The atom of a relation and its arguments; of a derived relation what it stands for.
#[cycle(formula)]
fn atom(
    alloc: Global,
    text: &[u8],
    draft: &ModelDraft,
    scope: &Scope,
    name: Name,
    args: &[Expr],
) -> Mem<Formula>
    requires nests { ExprNests (max_bound - length (bound_names scope.now))
        (Apply name (exprs_of (expr_trees args.now))) }
    requires few { length (bound_names scope.now) ≤ max_bound }
    requires within { ExprWithin (length text.now) (Apply name (exprs_of (expr_trees args.now))) }
    requires sound { IsSorted (words_in draft.now.declared) }
    ensures { IfOk result (λ p. form p
        ≡ formula_of text.now (words_in draft.now.declared) draft.now.bodies.items (bound_names scope.now)
        (Apply name (exprs_of (expr_trees args.now)))) }
{
    match draft.declared.meaning_from(0, scope, bytes(text, name)) {
        Meaning::Bound(_, _) => Ok(Formula::False),
        Meaning::Relation(place) => {
            let args = terms(alloc, text, draft, scope, args)?;
            Ok(Formula::Rel(RelId(place), args))
        }
        Meaning::Derived(place) => {
            let p = written_out(alloc, text, draft, scope, place, args)?;
            Ok(p)
        }
        Meaning::Function(_) => Ok(Formula::False),
        Meaning::Unknown => Ok(Formula::False),
    }
}

// What a use of a derived relation stands for: its right side, with the arguments in the place of the parameters.
#[cycle(formula)]
fn written_out(
    alloc: Global,
    text: &[u8],
    draft: &ModelDraft,
    scope: &Scope,
    place: u32,
    es: &[Expr],
) -> Mem<Formula>
    requires nests { ExprsNest (max_bound - length (bound_names scope.now)) (exprs_of (expr_trees es.now)) }
    requires few { length (bound_names scope.now) ≤ max_bound }
    requires within { ExprsWithin (length text.now) (exprs_of (expr_trees es.now)) }
    requires sound { IsSorted (words_in draft.now.declared) }
    ensures { IfOk result (λ p. form p
        ≡ atom_of draft.now.bodies.items (Derived place)
        (terms_of text.now (words_in draft.now.declared) draft.now.bodies.items (bound_names scope.now)
        (exprs_of (expr_trees es.now)))) }
{
    fol_subst::instance_laws();
    let Some(body) = draft.bodies.get(place as usize) else {
        return Ok(Formula::False);
    };
    let args = kept_terms(alloc, text, draft, scope, body, es)?;
    let p = body.instance(alloc, args)?;
    Ok(p)
}

// The terms of the arguments whose parameters stand in the right side. Another one is left out, with an index in its
// place: so no more is built than the result holds.
#[cycle(formula)]
fn kept_terms(
    alloc: Global,
    text: &[u8],
    draft: &ModelDraft,
    scope: &Scope,
    body: &Template,
    es: &[Expr],
) -> Mem<Vec<Term>>
    requires nests { ExprsNest (max_bound - length (bound_names scope.now)) (exprs_of (expr_trees es.now)) }
    requires few { length (bound_names scope.now) ≤ max_bound }
    requires within { ExprsWithin (length text.now) (exprs_of (expr_trees es.now)) }
    requires sound { IsSorted (words_in draft.now.declared) }
    ensures { IfOk result (λ ts. terms_view ts.items
        ≡ kept (change_rel 0 body.now)
        (terms_of text.now (words_in draft.now.declared) draft.now.bodies.items (bound_names scope.now)
        (exprs_of (expr_trees es.now)))) }
{
    fol_formula::lists();
    let mut all = Vec::with_capacity(alloc, es.len())?;
    let mut left = es.len();
    for e in es {
        left -= 1;
        all.push(kept_term(alloc, text, draft, scope, body, left, e)?)?;
    }
    Ok(all)
}

// The term of the argument of a parameter, if that stands in the right side.
#[cycle(formula)]
fn kept_term(
    alloc: Global,
    text: &[u8],
    draft: &ModelDraft,
    scope: &Scope,
    body: &Template,
    parameter: usize,
    e: &Expr,
) -> Mem<Term>
    requires nests { ExprNests (max_bound - length (bound_names scope.now)) (expr_tree e.now) }
    requires few { length (bound_names scope.now) ≤ max_bound }
    requires within { ExprWithin (length text.now) (expr_tree e.now) }
    requires sound { IsSorted (words_in draft.now.declared) }
    ensures { IfOk result (λ t. term_view t
        ≡ kept_one (change_rel 0 body.now) parameter
        (term_of text.now (words_in draft.now.declared) draft.now.bodies.items (bound_names scope.now)
        (expr_tree e.now))) }
{
    if body.mentions(parameter) {
        term(alloc, text, draft, scope, e)
    } else {
        Ok(Term::Bound(0))
    }
}

// The formula of a quantifier, its body under the binder.
#[cycle(formula)]
fn quantified(
    alloc: Global,
    text: &[u8],
    draft: &ModelDraft,
    scope: &Scope,
    q: Quantifier,
    at: u64,
    b: Binder,
    body: &Expr,
) -> Mem<Formula>
    requires nests { ExprNests (max_bound - length (bound_names scope.now)) (Quantified q at b (expr_tree body.now)) }
    requires few { length (bound_names scope.now) ≤ max_bound }
    requires within { ExprWithin (length text.now) (Quantified q at b (expr_tree body.now)) }
    requires sound { IsSorted (words_in draft.now.declared) }
    ensures { IfOk result (λ p. form p
        ≡ formula_of text.now (words_in draft.now.declared) draft.now.bodies.items (bound_names scope.now)
        (Quantified q at b (expr_tree body.now))) }
{
    let sort = sort_number(text, &draft.declared, b.sort);
    let inner = Scope::inside(bytes(text, b.name), sort, &*scope);
    let body = boxed(alloc, text, draft, &inner, body)?;
    match q {
        Quantifier::Forall => Ok(Formula::Forall(Sort(sort), body)),
        Quantifier::Exists => Ok(Formula::Exists(Sort(sort), body)),
    }
}

// The number of a sort, and 0 where it is unknown.
pub fn sort_number(text: &[u8], known: &Declarations, name: Name) -> u32
    requires { NameWithin (length text.now) name }
    ensures { result ≡ sort_number text.now (words_in known.now) name }
{
    known.sort(bytes(text, name)).unwrap_or(0)
}

#[cycle(formula)]
fn boxed(
    alloc: Global,
    text: &[u8],
    draft: &ModelDraft,
    scope: &Scope,
    e: &Expr,
) -> Mem<Box<Formula>>
    requires nests { ExprNests (max_bound - length (bound_names scope.now)) (expr_tree e.now) }
    requires few { length (bound_names scope.now) ≤ max_bound }
    requires within { ExprWithin (length text.now) (expr_tree e.now) }
    requires sound { IsSorted (words_in draft.now.declared) }
    ensures { IfOk result (λ p. form p.value
        ≡ formula_of text.now (words_in draft.now.declared) draft.now.bodies.items (bound_names scope.now)
        (expr_tree e.now)) }
{
    let p = formula(alloc, text, draft, scope, e)?;
    Ok(Box::new(alloc, p)?)
}

// The formulas of a connective's operands, one for each.
#[cycle(formula)]
pub fn formulas(
    alloc: Global,
    text: &[u8],
    draft: &ModelDraft,
    scope: &Scope,
    es: &[Expr],
) -> Mem<Vec<Formula>>
    requires nests { ExprsNest (max_bound - length (bound_names scope.now)) (exprs_of (expr_trees es.now)) }
    requires few { length (bound_names scope.now) ≤ max_bound }
    requires within { ExprsWithin (length text.now) (exprs_of (expr_trees es.now)) }
    requires sound { IsSorted (words_in draft.now.declared) }
    ensures { IfOk result (λ ps. forms ps.items
        ≡ formulas_of text.now (words_in draft.now.declared) draft.now.bodies.items (bound_names scope.now)
        (exprs_of (expr_trees es.now))) }
{
    fol_formula::lists();
    let mut all = Vec::with_capacity(alloc, es.len())?;
    for e in es {
        all.push(formula(alloc, text, draft, scope, e)?)?;
    }
    Ok(all)
}

// The term of an expression in a term's place, under the binders of the scope.
#[cycle(formula)]
pub fn term(alloc: Global, text: &[u8], draft: &ModelDraft, scope: &Scope, e: &Expr) -> Mem<Term>
    requires nests { ExprNests (max_bound - length (bound_names scope.now)) (expr_tree e.now) }
    requires few { length (bound_names scope.now) ≤ max_bound }
    requires within { ExprWithin (length text.now) (expr_tree e.now) }
    requires sound { IsSorted (words_in draft.now.declared) }
    ensures { IfOk result (λ t. term_view t
        ≡ term_of text.now (words_in draft.now.declared) draft.now.bodies.items (bound_names scope.now)
        (expr_tree e.now)) }
{
    match e {
        Expr::Apply(name, args) => application(alloc, text, draft, scope, *name, args),
        Expr::Ite(_, c, a, b) => {
            let c = boxed(alloc, text, draft, scope, c)?;
            let a = boxed_term(alloc, text, draft, scope, a)?;
            Ok(Term::Ite(c, a, boxed_term(alloc, text, draft, scope, b)?))
        }
        Expr::True(_) => Ok(Term::Bound(0)),
        Expr::False(_) => Ok(Term::Bound(0)),
        Expr::Equal(_, _, _) => Ok(Term::Bound(0)),
        Expr::Not(_, _) => Ok(Term::Bound(0)),
        Expr::And(_, _) => Ok(Term::Bound(0)),
        Expr::Or(_, _) => Ok(Term::Bound(0)),
        Expr::Implies(_, _, _) => Ok(Term::Bound(0)),
        Expr::Iff(_, _, _) => Ok(Term::Bound(0)),
        Expr::Quantified(_, _, _, _) => Ok(Term::Bound(0)),
    }
}

// A bound name, a variable, or a function and its arguments.
#[cycle(formula)]
fn application(
    alloc: Global,
    text: &[u8],
    draft: &ModelDraft,
    scope: &Scope,
    name: Name,
    args: &[Expr],
) -> Mem<Term>
    requires nests { ExprNests (max_bound - length (bound_names scope.now))
        (Apply name (exprs_of (expr_trees args.now))) }
    requires few { length (bound_names scope.now) ≤ max_bound }
    requires within { ExprWithin (length text.now) (Apply name (exprs_of (expr_trees args.now))) }
    requires sound { IsSorted (words_in draft.now.declared) }
    ensures { IfOk result (λ t. term_view t
        ≡ term_of text.now (words_in draft.now.declared) draft.now.bodies.items (bound_names scope.now)
        (Apply name (exprs_of (expr_trees args.now)))) }
{
    match draft.declared.meaning_from(0, scope, bytes(text, name)) {
        Meaning::Bound(index, _) => Ok(Term::Bound(index)),
        Meaning::Function(place) => {
            let args = terms(alloc, text, draft, scope, args)?;
            Ok(Term::App(FunId(place), args))
        }
        Meaning::Relation(_) => Ok(Term::Bound(0)),
        Meaning::Derived(_) => Ok(Term::Bound(0)),
        Meaning::Unknown => Ok(Term::Bound(0)),
    }
}

#[cycle(formula)]
fn boxed_term(
    alloc: Global,
    text: &[u8],
    draft: &ModelDraft,
    scope: &Scope,
    e: &Expr,
) -> Mem<Box<Term>>
    requires nests { ExprNests (max_bound - length (bound_names scope.now)) (expr_tree e.now) }
    requires few { length (bound_names scope.now) ≤ max_bound }
    requires within { ExprWithin (length text.now) (expr_tree e.now) }
    requires sound { IsSorted (words_in draft.now.declared) }
    ensures { IfOk result (λ t. term_view t.value
        ≡ term_of text.now (words_in draft.now.declared) draft.now.bodies.items (bound_names scope.now)
        (expr_tree e.now)) }
{
    let t = term(alloc, text, draft, scope, e)?;
    Ok(Box::new(alloc, t)?)
}

// The terms of the arguments of a relation or a function, one for each.
#[cycle(formula)]
pub fn terms(
    alloc: Global,
    text: &[u8],
    draft: &ModelDraft,
    scope: &Scope,
    es: &[Expr],
) -> Mem<Vec<Term>>
    requires nests { ExprsNest (max_bound - length (bound_names scope.now)) (exprs_of (expr_trees es.now)) }
    requires few { length (bound_names scope.now) ≤ max_bound }
    requires within { ExprsWithin (length text.now) (exprs_of (expr_trees es.now)) }
    requires sound { IsSorted (words_in draft.now.declared) }
    ensures { IfOk result (λ ts. terms_view ts.items
        ≡ terms_of text.now (words_in draft.now.declared) draft.now.bodies.items (bound_names scope.now)
        (exprs_of (expr_trees es.now))) }
{
    fol_formula::lists();
    let mut all = Vec::with_capacity(alloc, es.len())?;
    for e in es {
        all.push(term(alloc, text, draft, scope, e)?)?;
    }
    Ok(all)
}
