// The first fault of an expression where it stands.
ghost use Rattle.std.specs.Prelude.{◌≡◌, ◌≤◌, ◌-◌, ◌++◌, [], ◌∷◌, None, Some, if◌then◌else◌, length};
ghost use Rattle.fol_sig.specs.Tables.{numbers};
ghost use Rattle.rml_terms.specs.Tree.{expr_tree, expr_trees, exprs_of, Apply as ApplyTree};
ghost use Rattle.rml_terms.specs.Tree.{Quantified as QuantifiedTree};
ghost use Rattle.rml_terms.specs.Shape.{ExprNests, ExprsNest};
ghost use Rattle.rml_terms.specs.Within.{ExprWithin, ExprsWithin};
ghost use Rattle.rml_sort_check.specs.declared.wanted.Wanted.TheVariants.{Formula, Term};
ghost use Rattle.rml_names.specs.Meanings.{bytes_of, is_known as means_known, is_relation as means_relation, binding};
ghost use Rattle.rml_names.specs.Meanings.{term_sort as sort_of_term};
ghost use Rattle.rml_sort_check.specs.Demands.{first_fault, is_expected as meets_expected};
ghost use Rattle.rml_sort_check.specs.Demands.{no_term_code as code_of_no_term, name_demands, second_sort};
ghost use Rattle.rml_sort_check.specs.Demands.{is_told_first, binder_demands, demands, formula_demands};
ghost use Rattle.rml_sort_check.specs.Demands.{argument_demands};
ghost use Rattle.rml_names.specs.Scopes.{bound_names, max_bound};
ghost use Rattle.rml_names.specs.Drafts.{words_in};
ghost use Rattle.rml_names.specs.Sound.{IsSorted, IsDeclared};
ghost use Rattle.rml_sort_check.specs.Judging.{compound_fault};

use crate::wanted::Wanted;
use fol_sig::Sort;
use rml_lex::{Fault, FaultCode};
use rml_names::{Declarations, Meaning, Scope, bytes};
use rml_terms::{Binder, Expr, Name, Quantifier};

// The fault of one demand.
pub fn fault_unless(met: bool, code: FaultCode, at: u64) -> Option<Fault>
    ensures { result ≡ (if met then None else Some (record { code = code; at = at })) }
{
    if met { None } else { Some(Fault { code, at }) }
}

pub fn is_known(meaning: Meaning) -> bool
    ensures { result ≡ means_known meaning }
{
    match meaning {
        Meaning::Bound(_, _) | Meaning::Relation(_) | Meaning::Function(_) | Meaning::Derived(_) =>
            true,
        Meaning::Unknown => false,
    }
}

pub fn is_relation(meaning: Meaning) -> bool
    ensures { result ≡ means_relation meaning }
{
    match meaning {
        Meaning::Relation(_) | Meaning::Derived(_) => true,
        Meaning::Bound(_, _) | Meaning::Function(_) | Meaning::Unknown => false,
    }
}

fn is_expected(expected: Option<u32>, sort: Option<u32>) -> bool
    ensures { result ≡ meets_expected expected sort }
{
    let Some(expected) = expected else {
        return true;
    };
    match sort {
        Some(sort) => sort == expected,
        None => false,
    }
}

// Whether what has this fault is told so, also where a term is wanted.
fn is_told_first(code: FaultCode) -> bool
    ensures { result ≡ is_told_first code }
{
    matches!(code, FaultCode::UnknownName | FaultCode::NotAFormula)
}

// The code of what is no term, by the first fault of its parts.
fn no_term_code(at: u64, parts: Option<Fault>) -> FaultCode
    ensures { result ≡ code_of_no_term at parts }
{
    match parts {
        Some(fault) => {
            if fault.at == at && is_told_first(fault.code) {
                fault.code
            } else {
                FaultCode::NotATerm
            }
        }
        None => FaultCode::NotATerm,
    }
}

// What a compound formula is where it stands.
fn compound_fault(wanted: Wanted, at: u64, parts: Option<Fault>) -> Option<Fault>
    ensures { result ≡ compound_fault wanted at parts }
{
    match wanted {
        Wanted::Formula => parts,
        Wanted::Term(_) => Some(Fault {
            code: no_term_code(at, parts),
            at,
        }),
    }
}

fn name_fault(
    known: &Declarations,
    wanted: Wanted,
    meaning: Meaning,
    at: u64,
    count: usize,
) -> Option<Fault>
    requires { IsDeclared (words_in known.now) meaning }
    ensures { result ≡ first_fault (name_demands (words_in known.now) wanted meaning at count) }
{
    if !is_known(meaning) {
        return Some(Fault {
            code: FaultCode::UnknownName,
            at,
        });
    }
    let counted = count == known.argument_sorts(meaning).len();
    match wanted {
        Wanted::Formula => {
            if !is_relation(meaning) {
                return Some(Fault {
                    code: FaultCode::NotAFormula,
                    at,
                });
            }
            fault_unless(counted, FaultCode::WrongArgumentCount, at)
        }
        Wanted::Term(expected) => {
            if is_relation(meaning) {
                return Some(Fault {
                    code: FaultCode::NotATerm,
                    at,
                });
            }
            if !is_expected(expected, known.result_sort(meaning)) {
                return Some(Fault {
                    code: FaultCode::WrongSort,
                    at,
                });
            }
            fault_unless(counted, FaultCode::WrongArgumentCount, at)
        }
    }
}

// The sort that an expression has as a term.
pub fn term_sort(text: &[u8], known: &Declarations, scope: &Scope, e: &Expr) -> Option<u32>
    requires few { length (bound_names scope.now) ≤ max_bound }
    requires within { ExprWithin (length text.now) (expr_tree e.now) }
    requires sound { IsSorted (words_in known.now) }
    ensures { result ≡ sort_of_term text.now (words_in known.now) (bound_names scope.now) (expr_tree e.now) }
{
    match e {
        Expr::Apply(name, _) => known.result_sort(known.meaning_from(0, scope, bytes(text, *name))),
        Expr::Ite(_, _, a, _) => term_sort(text, known, scope, a),
        Expr::True(_) | Expr::False(_) | Expr::Equal(_, _, _) | Expr::Not(_, _) => None,
        Expr::And(_, _) | Expr::Or(_, _) | Expr::Implies(_, _, _) | Expr::Iff(_, _, _) => None,
        Expr::Quantified(_, _, _, _) => None,
    }
}

// The sort that the last part of an `ite` has to have.
fn second_sort(expected: Option<u32>, sort: Option<u32>) -> Option<u32>
    ensures { result ≡ second_sort expected sort }
{
    match expected {
        Some(_) => expected,
        None => sort,
    }
}

// The first fault of an expression, by what it has to be.
#[cycle(judging)]
pub fn expression_fault(
    text: &[u8],
    known: &Declarations,
    scope: &Scope,
    wanted: Wanted,
    e: &Expr,
) -> Option<Fault>
    requires nests { ExprNests (max_bound - length (bound_names scope.now)) (expr_tree e.now) }
    requires few { length (bound_names scope.now) ≤ max_bound }
    requires within { ExprWithin (length text.now) (expr_tree e.now) }
    requires sound { IsSorted (words_in known.now) }
    ensures { result ≡ first_fault
        (demands text.now (words_in known.now) (bound_names scope.now) wanted (expr_tree e.now)) }
{
    match e {
        Expr::True(at) | Expr::False(at) => compound_fault(wanted, *at, None),
        Expr::Apply(name, args) => application_fault(text, known, scope, wanted, *name, args),
        Expr::Ite(at, c, a, b) => match wanted {
            Wanted::Formula => Some(Fault {
                code: FaultCode::NotAFormula,
                at: *at,
            }),
            Wanted::Term(expected) => {
                let condition = expression_fault(text, known, scope, Wanted::Formula, c);
                let first = expression_fault(text, known, scope, Wanted::Term(expected), a);
                let sort = second_sort(expected, term_sort(text, known, scope, a));
                let second = expression_fault(text, known, scope, Wanted::Term(sort), b);
                condition.or(first.or(second))
            }
        },
        Expr::Equal(at, a, b) => {
            let left = expression_fault(text, known, scope, Wanted::Term(None), a);
            let sort = term_sort(text, known, scope, a);
            let right = expression_fault(text, known, scope, Wanted::Term(sort), b);
            compound_fault(wanted, *at, left.or(right))
        }
        Expr::Not(at, a) => {
            let part = expression_fault(text, known, scope, Wanted::Formula, a);
            compound_fault(wanted, *at, part)
        }
        Expr::And(at, args) | Expr::Or(at, args) => {
            let parts = formulas_fault(text, known, scope, args);
            compound_fault(wanted, *at, parts)
        }
        Expr::Implies(at, a, b) | Expr::Iff(at, a, b) => {
            let left = expression_fault(text, known, scope, Wanted::Formula, a);
            let right = expression_fault(text, known, scope, Wanted::Formula, b);
            compound_fault(wanted, *at, left.or(right))
        }
        Expr::Quantified(quantifier, at, binder, a) => {
            let part = quantified_fault(text, known, scope, *quantifier, *at, *binder, a);
            compound_fault(wanted, *at, part)
        }
    }
}

// A name and its arguments.
#[cycle(judging)]
fn application_fault(
    text: &[u8],
    known: &Declarations,
    scope: &Scope,
    wanted: Wanted,
    name: Name,
    args: &[Expr],
) -> Option<Fault>
    requires nests { ExprNests (max_bound - length (bound_names scope.now))
        (ApplyTree name (exprs_of (expr_trees args.now))) }
    requires few { length (bound_names scope.now) ≤ max_bound }
    requires within { ExprWithin (length text.now) (ApplyTree name (exprs_of (expr_trees args.now))) }
    requires sound { IsSorted (words_in known.now) }
    ensures { result ≡ first_fault
        (demands text.now (words_in known.now) (bound_names scope.now) wanted
        (ApplyTree name (exprs_of (expr_trees args.now)))) }
{
    let meaning = known.meaning_from(0, scope, bytes(text, name));
    let named = name_fault(known, wanted, meaning, name.start, args.len());
    let applied = arguments_fault(text, known, scope, args, known.argument_sorts(meaning));
    named.or(applied)
}

// A binder and what stands under it.
#[cycle(judging)]
fn quantified_fault(
    text: &[u8],
    known: &Declarations,
    scope: &Scope,
    quantifier: Quantifier,
    at: u64,
    binder: Binder,
    body: &Expr,
) -> Option<Fault>
    requires nests { ExprNests (max_bound - length (bound_names scope.now))
        (QuantifiedTree quantifier at binder (expr_tree body.now)) }
    requires few { length (bound_names scope.now) ≤ max_bound }
    requires within { ExprWithin (length text.now) (QuantifiedTree quantifier at binder (expr_tree body.now)) }
    requires sound { IsSorted (words_in known.now) }
    ensures { result ≡ first_fault
        (demands text.now (words_in known.now) (bound_names scope.now) Formula
        (QuantifiedTree quantifier at binder (expr_tree body.now))) }
{
    let name = bytes(text, binder.name);
    if known.is_symbol(name) {
        return Some(Fault {
            code: FaultCode::TakenName,
            at: binder.name.start,
        });
    }
    let Some(sort) = known.sort(bytes(text, binder.sort)) else {
        return Some(Fault {
            code: FaultCode::UnknownName,
            at: binder.sort.start,
        });
    };
    let inside = Scope::inside(name, sort, &*scope);
    expression_fault(text, known, &inside, Wanted::Formula, body)
}

// The operands of a connective.
#[cycle(judging)]
fn formulas_fault(text: &[u8], known: &Declarations, scope: &Scope, args: &[Expr]) -> Option<Fault>
    requires nests { ExprsNest (max_bound - length (bound_names scope.now)) (exprs_of (expr_trees args.now)) }
    requires few { length (bound_names scope.now) ≤ max_bound }
    requires within { ExprsWithin (length text.now) (exprs_of (expr_trees args.now)) }
    requires sound { IsSorted (words_in known.now) }
    ensures { result ≡ first_fault
        (formula_demands text.now (words_in known.now) (bound_names scope.now) (exprs_of (expr_trees args.now))) }
{
    for e in args {
        if let Some(fault) = expression_fault(text, known, scope, Wanted::Formula, e) {
            return Some(fault);
        }
    }
    None
}

// Arguments, each of its sort.
#[cycle(judging)]
pub fn arguments_fault(
    text: &[u8],
    known: &Declarations,
    scope: &Scope,
    args: &[Expr],
    sorts: &[Sort],
) -> Option<Fault>
    requires nests { ExprsNest (max_bound - length (bound_names scope.now)) (exprs_of (expr_trees args.now)) }
    requires few { length (bound_names scope.now) ≤ max_bound }
    requires within { ExprsWithin (length text.now) (exprs_of (expr_trees args.now)) }
    requires sound { IsSorted (words_in known.now) }
    ensures { result ≡ first_fault
        (argument_demands text.now (words_in known.now) (bound_names scope.now) (exprs_of (expr_trees args.now))
        (numbers sorts.now)) }
{
    let mut sorts = sorts;
    for e in args {
        let [sort, others @ ..] = sorts else {
            return None;
        };
        if let Some(fault) = expression_fault(text, known, scope, Wanted::Term(Some(sort.0)), e) {
            return Some(fault);
        }
        sorts = others;
    }
    None
}
