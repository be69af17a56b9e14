// How large a formula or a term is that an expression stands for. Nothing is built: a use of a derived relation takes
// the size of its right side and the places of the parameters there, which were counted once.
ghost use Rattle.std.specs.Prelude.{◌≡◌, ◌-◌, ◌≤◌, [], length};
ghost use Rattle.rml_terms.specs.Tree.{expr_tree, expr_trees, exprs_of, Quantified, Apply};
ghost use Rattle.rml_terms.specs.Shape.{ExprNests, ExprsNest, max_nesting};
ghost use Rattle.rml_terms.specs.Within.{ExprWithin, ExprsWithin};
ghost use Rattle.fol_subst.specs.Templates.{form_extent, forms_extent, term_extent as extent_of_term};
ghost use Rattle.fol_subst.specs.Templates.{terms_extent as extent_of_terms};
ghost use Rattle.rml_elaborate.specs.Formulas.{formula_of, formulas_of, term_of, terms_of, atom_of};
ghost use Rattle.rml_elaborate.specs.Sizes.{is_beyond, where_large};
ghost use Rattle.rml_names.specs.declared.meaning.Meaning.TheVariants.{Derived};
ghost use Rattle.rml_names.specs.Scopes.{bound_names, max_bound};
ghost use Rattle.rml_names.specs.Drafts.{words_in};
ghost use Rattle.rml_names.specs.Sound.{IsSorted};

use crate::formulas::sort_number;
use fol_subst::Extent;
use rml_names::{Meaning, ModelDraft, Scope, bytes};
use rml_terms::{Binder, Expr, Name, Quantifier};

// How many nodes a sentence or a right side may have, and how deep it may be, with all uses written out.
const MOST_NODES: u64 = 100_000;

const MOST_DEPTH: u64 = 1000;

// Whether it is larger, or deeper.
fn is_beyond(extent: Extent) -> bool
    ensures { result ≡ is_beyond extent.count extent.depth }
{
    extent.count > MOST_NODES || extent.depth > MOST_DEPTH
}

// The place, where what has this extent is larger or deeper.
pub fn where_large(extent: Extent, place: Option<u64>) -> Option<u64>
    ensures { result ≡ where_large (is_beyond extent.count extent.depth) place }
{
    if is_beyond(extent) { place } else { None }
}

// The extent of the term of an expression without binders around it.
pub fn term_extent_outside(text: &[u8], draft: &ModelDraft, e: &Expr) -> Extent
    requires nests { ExprNests max_nesting (expr_tree e.now) }
    requires within { ExprWithin (length text.now) (expr_tree e.now) }
    requires sound { IsSorted (words_in draft.now.declared) }
    ensures { result ≡ extent_of_term
        (term_of text.now (words_in draft.now.declared) draft.now.bodies.items [] (expr_tree e.now)) }
{
    term_extent(text, draft, &Scope::Outside, e)
}

// The extent of the formula of an expression, under the binders of the scope.
#[cycle(sizes)]
pub fn formula_extent(text: &[u8], draft: &ModelDraft, scope: &Scope, e: &Expr) -> Extent
    requires nests { ExprNests (max_bound - length (bound_names scope.now)) (expr_tree e.now) }
    requires few { length (bound_names scope.now) ≤ max_bound }
    requires within { ExprWithin (length text.now) (expr_tree e.now) }
    requires sound { IsSorted (words_in draft.now.declared) }
    ensures { result ≡ form_extent
        (formula_of text.now (words_in draft.now.declared) draft.now.bodies.items (bound_names scope.now)
        (expr_tree e.now)) }
{
    match e {
        Expr::True(_) | Expr::False(_) | Expr::Ite(_, _, _, _) => Extent::ONE,
        Expr::Apply(name, args) => atom_extent(text, draft, scope, *name, args),
        Expr::Equal(_, a, b) => {
            let left = term_extent(text, draft, scope, a);
            left.beside(term_extent(text, draft, scope, b)).over()
        }
        Expr::Not(_, a) => formula_extent(text, draft, scope, a).over(),
        Expr::And(_, args) | Expr::Or(_, args) => formulas_extent(text, draft, scope, args).over(),
        Expr::Implies(_, a, b) | Expr::Iff(_, a, b) => {
            let left = formula_extent(text, draft, scope, a);
            left.beside(formula_extent(text, draft, scope, b)).over()
        }
        Expr::Quantified(q, at, b, a) => quantified_extent(text, draft, scope, *q, *at, *b, a),
    }
}

#[cycle(sizes)]
fn atom_extent(text: &[u8], draft: &ModelDraft, scope: &Scope, name: Name, args: &[Expr]) -> Extent
    requires nests { ExprNests (max_bound - length (bound_names scope.now))
        (Apply name (exprs_of (expr_trees args.now))) }
    requires few { length (bound_names scope.now) ≤ max_bound }
    requires within { ExprWithin (length text.now) (Apply name (exprs_of (expr_trees args.now))) }
    requires sound { IsSorted (words_in draft.now.declared) }
    ensures { result ≡ form_extent
        (formula_of text.now (words_in draft.now.declared) draft.now.bodies.items (bound_names scope.now)
        (Apply name (exprs_of (expr_trees args.now)))) }
{
    match draft.declared.meaning_from(0, scope, bytes(text, name)) {
        Meaning::Relation(_) => terms_extent(text, draft, scope, args).over(),
        Meaning::Derived(place) => use_extent(text, draft, scope, place, args),
        Meaning::Bound(_, _) | Meaning::Function(_) | Meaning::Unknown => Extent::ONE,
    }
}

// The extent of what a use of a derived relation stands for.
#[cycle(sizes)]
fn use_extent(text: &[u8], draft: &ModelDraft, scope: &Scope, place: u32, es: &[Expr]) -> Extent
    requires nests { ExprsNest (max_bound - length (bound_names scope.now)) (exprs_of (expr_trees es.now)) }
    requires few { length (bound_names scope.now) ≤ max_bound }
    requires within { ExprsWithin (length text.now) (exprs_of (expr_trees es.now)) }
    requires sound { IsSorted (words_in draft.now.declared) }
    ensures { result ≡ form_extent (atom_of draft.now.bodies.items (Derived place)
        (terms_of text.now (words_in draft.now.declared) draft.now.bodies.items (bound_names scope.now)
        (exprs_of (expr_trees es.now)))) }
{
    fol_formula::lists();
    fol_subst::extent_laws();
    let Some(body) = draft.bodies.get(place as usize) else {
        return Extent::ONE;
    };
    let mut all = body.extent();
    let mut left = es.len();
    for e in es {
        left -= 1;
        all = all.put_in(body.places(left), term_extent(text, draft, scope, e));
    }
    all
}

#[cycle(sizes)]
fn quantified_extent(
    text: &[u8],
    draft: &ModelDraft,
    scope: &Scope,
    q: Quantifier,
    at: u64,
    b: Binder,
    body: &Expr,
) -> Extent
    requires nests { ExprNests (max_bound - length (bound_names scope.now)) (Quantified q at b (expr_tree body.now)) }
    requires few { length (bound_names scope.now) ≤ max_bound }
    requires within { ExprWithin (length text.now) (Quantified q at b (expr_tree body.now)) }
    requires sound { IsSorted (words_in draft.now.declared) }
    ensures { result ≡ form_extent
        (formula_of text.now (words_in draft.now.declared) draft.now.bodies.items (bound_names scope.now)
        (Quantified q at b (expr_tree body.now))) }
{
    let sort = sort_number(text, &draft.declared, b.sort);
    let inner = Scope::inside(bytes(text, b.name), sort, &*scope);
    formula_extent(text, draft, &inner, body).over()
}

#[cycle(sizes)]
fn formulas_extent(text: &[u8], draft: &ModelDraft, scope: &Scope, es: &[Expr]) -> Extent
    requires nests { ExprsNest (max_bound - length (bound_names scope.now)) (exprs_of (expr_trees es.now)) }
    requires few { length (bound_names scope.now) ≤ max_bound }
    requires within { ExprsWithin (length text.now) (exprs_of (expr_trees es.now)) }
    requires sound { IsSorted (words_in draft.now.declared) }
    ensures { result ≡ forms_extent
        (formulas_of text.now (words_in draft.now.declared) draft.now.bodies.items (bound_names scope.now)
        (exprs_of (expr_trees es.now))) }
{
    let mut all = Extent::NONE;
    for e in es {
        all = all.beside(formula_extent(text, draft, scope, e));
    }
    all
}

// The extent of the term of an expression, under the binders of the scope.
#[cycle(sizes)]
pub fn term_extent(text: &[u8], draft: &ModelDraft, scope: &Scope, e: &Expr) -> Extent
    requires nests { ExprNests (max_bound - length (bound_names scope.now)) (expr_tree e.now) }
    requires few { length (bound_names scope.now) ≤ max_bound }
    requires within { ExprWithin (length text.now) (expr_tree e.now) }
    requires sound { IsSorted (words_in draft.now.declared) }
    ensures { result ≡ extent_of_term
        (term_of text.now (words_in draft.now.declared) draft.now.bodies.items (bound_names scope.now)
        (expr_tree e.now)) }
{
    match e {
        Expr::Apply(name, args) => application_extent(text, draft, scope, *name, args),
        Expr::Ite(_, c, a, b) => {
            let left = term_extent(text, draft, scope, a);
            let terms = left.beside(term_extent(text, draft, scope, b));
            formula_extent(text, draft, scope, c).beside(terms).over()
        }
        Expr::True(_) | Expr::False(_) | Expr::Equal(_, _, _) | Expr::Not(_, _) => Extent::ONE,
        Expr::And(_, _) | Expr::Or(_, _) | Expr::Implies(_, _, _) | Expr::Iff(_, _, _) =>
            Extent::ONE,
        Expr::Quantified(_, _, _, _) => Extent::ONE,
    }
}

#[cycle(sizes)]
fn application_extent(
    text: &[u8],
    draft: &ModelDraft,
    scope: &Scope,
    name: Name,
    args: &[Expr],
) -> Extent
    requires nests { ExprNests (max_bound - length (bound_names scope.now))
        (Apply name (exprs_of (expr_trees args.now))) }
    requires few { length (bound_names scope.now) ≤ max_bound }
    requires within { ExprWithin (length text.now) (Apply name (exprs_of (expr_trees args.now))) }
    requires sound { IsSorted (words_in draft.now.declared) }
    ensures { result ≡ extent_of_term
        (term_of text.now (words_in draft.now.declared) draft.now.bodies.items (bound_names scope.now)
        (Apply name (exprs_of (expr_trees args.now)))) }
{
    match draft.declared.meaning_from(0, scope, bytes(text, name)) {
        Meaning::Function(_) => terms_extent(text, draft, scope, args).over(),
        Meaning::Bound(_, _) | Meaning::Relation(_) => Extent::ONE,
        Meaning::Derived(_) | Meaning::Unknown => Extent::ONE,
    }
}

#[cycle(sizes)]
fn terms_extent(text: &[u8], draft: &ModelDraft, scope: &Scope, es: &[Expr]) -> Extent
    requires nests { ExprsNest (max_bound - length (bound_names scope.now)) (exprs_of (expr_trees es.now)) }
    requires few { length (bound_names scope.now) ≤ max_bound }
    requires within { ExprsWithin (length text.now) (exprs_of (expr_trees es.now)) }
    requires sound { IsSorted (words_in draft.now.declared) }
    ensures { result ≡ extent_of_terms
        (terms_of text.now (words_in draft.now.declared) draft.now.bodies.items (bound_names scope.now)
        (exprs_of (expr_trees es.now))) }
{
    let mut all = Extent::NONE;
    for e in es {
        all = all.beside(term_extent(text, draft, scope, e));
    }
    all
}
