// Where the first use of a derived relation stands, in the order of reading.
ghost use Rattle.std.specs.Prelude.{◌≡◌, ◌-◌, ◌≤◌, [], length};
ghost use Rattle.rml_terms.specs.Tree.{expr_tree, expr_trees, exprs_of, Quantified, Apply};
ghost use Rattle.rml_terms.specs.Shape.{ExprNests, ExprsNest, max_nesting};
ghost use Rattle.rml_terms.specs.Within.{ExprWithin, ExprsWithin};
ghost use Rattle.rml_elaborate.specs.Sizes.{first_use_of, first_use_in_each};
ghost use Rattle.rml_names.specs.Scopes.{bound_names, max_bound};
ghost use Rattle.rml_names.specs.Drafts.{words_in};
ghost use Rattle.rml_names.specs.Sound.{IsSorted};

use crate::formulas::sort_number;
use rml_names::{Declarations, Meaning, Scope, bytes};
use rml_terms::{Binder, Expr, Name, Quantifier};

// The place of the first use in an expression, under the binders of the scope.
#[cycle(uses)]
pub fn first_use(text: &[u8], known: &Declarations, scope: &Scope, e: &Expr) -> Option<u64>
    requires nests { ExprNests (max_bound - length (bound_names scope.now)) (expr_tree e.now) }
    requires few { length (bound_names scope.now) ≤ max_bound }
    requires within { ExprWithin (length text.now) (expr_tree e.now) }
    requires sound { IsSorted (words_in known.now) }
    ensures { result ≡ first_use_of text.now (words_in known.now) (bound_names scope.now) (expr_tree e.now) }
{
    match e {
        Expr::True(_) | Expr::False(_) => None,
        Expr::Apply(name, args) => use_or_inside(text, known, scope, *name, args),
        Expr::Ite(_, c, a, b) => {
            let terms = first_use(text, known, scope, a).or(first_use(text, known, scope, b));
            first_use(text, known, scope, c).or(terms)
        }
        Expr::Equal(_, a, b) | Expr::Implies(_, a, b) | Expr::Iff(_, a, b) => {
            first_use(text, known, scope, a).or(first_use(text, known, scope, b))
        }
        Expr::Not(_, a) => first_use(text, known, scope, a),
        Expr::And(_, args) | Expr::Or(_, args) => first_use_in_each(text, known, scope, args),
        Expr::Quantified(q, at, b, a) => first_use_inside(text, known, scope, *q, *at, *b, a),
    }
}

// The name itself, or else what stands in its arguments.
#[cycle(uses)]
fn use_or_inside(
    text: &[u8],
    known: &Declarations,
    scope: &Scope,
    name: Name,
    args: &[Expr],
) -> Option<u64>
    requires nests { ExprNests (max_bound - length (bound_names scope.now))
        (Apply name (exprs_of (expr_trees args.now))) }
    requires few { length (bound_names scope.now) ≤ max_bound }
    requires within { ExprWithin (length text.now) (Apply name (exprs_of (expr_trees args.now))) }
    requires sound { IsSorted (words_in known.now) }
    ensures { result ≡ first_use_of text.now (words_in known.now) (bound_names scope.now)
        (Apply name (exprs_of (expr_trees args.now))) }
{
    match known.meaning_from(0, scope, bytes(text, name)) {
        Meaning::Derived(_) => Some(name.start),
        Meaning::Bound(_, _) => first_use_in_each(text, known, scope, args),
        Meaning::Relation(_) => first_use_in_each(text, known, scope, args),
        Meaning::Function(_) => first_use_in_each(text, known, scope, args),
        Meaning::Unknown => first_use_in_each(text, known, scope, args),
    }
}

// In the body of a quantifier, under its binder.
#[cycle(uses)]
fn first_use_inside(
    text: &[u8],
    known: &Declarations,
    scope: &Scope,
    q: Quantifier,
    at: u64,
    b: Binder,
    body: &Expr,
) -> Option<u64>
    requires nests { ExprNests (max_bound - length (bound_names scope.now)) (Quantified q at b (expr_tree body.now)) }
    requires few { length (bound_names scope.now) ≤ max_bound }
    requires within { ExprWithin (length text.now) (Quantified q at b (expr_tree body.now)) }
    requires sound { IsSorted (words_in known.now) }
    ensures { result ≡ first_use_of text.now (words_in known.now) (bound_names scope.now)
        (Quantified q at b (expr_tree body.now)) }
{
    let sort = sort_number(text, known, b.sort);
    let inner = Scope::inside(bytes(text, b.name), sort, &*scope);
    first_use(text, known, &inner, body)
}

// In each expression, in order.
#[cycle(uses)]
fn first_use_in_each(text: &[u8], known: &Declarations, scope: &Scope, es: &[Expr]) -> Option<u64>
    requires nests { ExprsNest (max_bound - length (bound_names scope.now)) (exprs_of (expr_trees es.now)) }
    requires few { length (bound_names scope.now) ≤ max_bound }
    requires within { ExprsWithin (length text.now) (exprs_of (expr_trees es.now)) }
    requires sound { IsSorted (words_in known.now) }
    ensures { result ≡ first_use_in_each text.now (words_in known.now) (bound_names scope.now)
        (exprs_of (expr_trees es.now)) }
{
    for e in es {
        if let Some(at) = first_use(text, known, scope, e) {
            return Some(at);
        }
    }
    None
}

// In an expression without binders around it.
pub fn first_use_outside(text: &[u8], known: &Declarations, e: &Expr) -> Option<u64>
    requires nests { ExprNests max_nesting (expr_tree e.now) }
    requires within { ExprWithin (length text.now) (expr_tree e.now) }
    requires sound { IsSorted (words_in known.now) }
    ensures { result ≡ first_use_of text.now (words_in known.now) [] (expr_tree e.now) }
{
    first_use(text, known, &Scope::Outside, e)
}

// In each expression, without binders around them.
pub fn first_use_in_each_outside(text: &[u8], known: &Declarations, es: &[Expr]) -> Option<u64>
    requires nests { ExprsNest max_nesting (exprs_of (expr_trees es.now)) }
    requires within { ExprsWithin (length text.now) (exprs_of (expr_trees es.now)) }
    requires sound { IsSorted (words_in known.now) }
    ensures { result ≡ first_use_in_each text.now (words_in known.now) [] (exprs_of (expr_trees es.now)) }
{
    first_use_in_each(text, known, &Scope::Outside, es)
}
