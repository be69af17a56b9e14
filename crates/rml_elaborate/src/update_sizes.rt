// How large the right side of an update of one tuple is. Nothing is built.
ghost use Rattle.std.specs.Prelude.{◌≡◌, ◌≤◌, [], length};
ghost use Rattle.fol_subst.specs.Templates.{form_extent, term_extent as extent_of_term, terms_extent};
ghost use Rattle.rml_terms.specs.Tree.{expr_tree, expr_trees, exprs_of};
ghost use Rattle.rml_terms.specs.Shape.{ExprNests, ExprsNest, max_nesting};
ghost use Rattle.rml_terms.specs.Within.{ExprWithin, ExprsWithin};
ghost use Rattle.rml_command.specs.Fresh.{parameters};
ghost use Rattle.rml_names.specs.Drafts.{words_in};
ghost use Rattle.rml_names.specs.Sound.{IsSorted};
ghost use Rattle.rml_elaborate.specs.Formulas.{term_of, terms_of};
ghost use Rattle.rml_elaborate.specs.Updates.{at_tuple, right_of_insertion, right_of_removal, right_of_placement};
ghost use Rattle.fol_sig.specs.Arguments.{max_arguments};

use crate::sizes::term_extent_outside;
use fol_subst::Extent;
use rml_names::ModelDraft;
use rml_terms::Expr;

// The right side of an `insert`.
pub fn insertion_extent(text: &[u8], draft: &ModelDraft, place: u32, args: &[Expr]) -> Extent
    requires nests { ExprsNest max_nesting (exprs_of (expr_trees args.now)) }
    requires within { ExprsWithin (length text.now) (exprs_of (expr_trees args.now)) }
    requires sound { IsSorted (words_in draft.now.declared) }
    requires few { length args.now ≤ max_arguments }
    ensures { result ≡ form_extent (right_of_insertion place
        (terms_of text.now (words_in draft.now.declared) draft.now.bodies.items [] (exprs_of (expr_trees args.now)))) }
{
    fol_subst::extent_laws();
    let held = parameters_extent(args.len()).over();
    held.beside(tuple_extent(text, draft, args)).over()
}

// The right side of a `remove`.
pub fn removal_extent(text: &[u8], draft: &ModelDraft, place: u32, args: &[Expr]) -> Extent
    requires nests { ExprsNest max_nesting (exprs_of (expr_trees args.now)) }
    requires within { ExprsWithin (length text.now) (exprs_of (expr_trees args.now)) }
    requires sound { IsSorted (words_in draft.now.declared) }
    requires few { length args.now ≤ max_arguments }
    ensures { result ≡ form_extent (right_of_removal place
        (terms_of text.now (words_in draft.now.declared) draft.now.bodies.items [] (exprs_of (expr_trees args.now)))) }
{
    fol_subst::extent_laws();
    let held = parameters_extent(args.len()).over();
    held.beside(tuple_extent(text, draft, args).over()).over()
}

// The right side of a `put`.
pub fn placement_extent(
    text: &[u8],
    draft: &ModelDraft,
    place: u32,
    args: &[Expr],
    value: &Expr,
) -> Extent
    requires nests { ExprsNest max_nesting (exprs_of (expr_trees args.now)) }
    requires within { ExprsWithin (length text.now) (exprs_of (expr_trees args.now)) }
    requires sound { IsSorted (words_in draft.now.declared) }
    requires few { length args.now ≤ max_arguments }
    requires value_nests { ExprNests max_nesting (expr_tree value.now) }
    requires value_within { ExprWithin (length text.now) (expr_tree value.now) }
    ensures { result ≡ extent_of_term (right_of_placement place
        (terms_of text.now (words_in draft.now.declared) draft.now.bodies.items [] (exprs_of (expr_trees args.now)))
        (term_of text.now (words_in draft.now.declared) draft.now.bodies.items [] (expr_tree value.now))) }
{
    let put = term_extent_outside(text, draft, value);
    let terms = put.beside(parameters_extent(args.len()).over());
    tuple_extent(text, draft, args).beside(terms).over()
}

// So many parameters.
#[tactic(auto, using(crate::proofs::Extents::parameters_extend))]
fn parameters_extent(count: usize) -> Extent
    requires { count ≤ max_arguments }
    ensures { result ≡ terms_extent (parameters count) }
{
    Extent::new(count as u64, count.min(1) as u64)
}

// Each parameter is the term of its argument.
fn tuple_extent(text: &[u8], draft: &ModelDraft, args: &[Expr]) -> Extent
    requires nests { ExprsNest max_nesting (exprs_of (expr_trees args.now)) }
    requires within { ExprsWithin (length text.now) (exprs_of (expr_trees args.now)) }
    requires sound { IsSorted (words_in draft.now.declared) }
    requires few { length args.now ≤ max_arguments }
    ensures { result ≡ form_extent
        (at_tuple (terms_of text.now (words_in draft.now.declared) draft.now.bodies.items []
        (exprs_of (expr_trees args.now)))) }
{
    let mut all = Extent::NONE;
    for e in args {
        let equation = Extent::ONE
            .beside(term_extent_outside(text, draft, e))
            .over();
        all = all.beside(equation);
    }
    all.over()
}
