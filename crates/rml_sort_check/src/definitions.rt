// The first fault of a definition.
ghost use Rattle.std.specs.Prelude.{◌≡◌, ◌≤◌, ◌++◌, length};
ghost use Rattle.rml_terms.specs.Tree.{expr_tree};
ghost use Rattle.rml_terms.specs.Shape.{ExprNests, max_nesting};
ghost use Rattle.rml_terms.specs.Within.{ExprWithin};
ghost use Rattle.rml_syntax.specs.Within.{BindersWithin};
ghost use Rattle.rml_sort_check.specs.declared.wanted.Wanted.TheVariants.{Formula};
ghost use Rattle.rml_names.specs.Meanings.{with_binders};
ghost use Rattle.rml_sort_check.specs.Demands.{first_fault, demands, binders_demands, definition_demands};
ghost use Rattle.rml_names.specs.Scopes.{bound_names, names_of};
ghost use Rattle.rml_names.specs.Drafts.{words_in};
ghost use Rattle.rml_names.specs.Sound.{IsSorted};
ghost use Rattle.fol_sig.specs.Arguments.{max_arguments};

use crate::targets::{fault_at, shallow_fault};
use crate::wanted::Wanted;
use fol_sig::MAX_ARGUMENTS;
use rml_lex::{Fault, FaultCode};
use rml_names::{Declarations, Scope, bytes};
use rml_terms::{Binder, Expr};

/// The first fault of a definition: of its parameters, or of its right side under them.
pub fn definition_fault(
    text: &[u8],
    known: &Declarations,
    parameters: &[Binder],
    value: &Expr,
) -> Option<Fault>
    requires nests { ExprNests max_nesting (expr_tree value.now) }
    requires parameters { BindersWithin (length text.now) parameters.now }
    requires within { ExprWithin (length text.now) (expr_tree value.now) }
    requires sound { IsSorted (words_in known.now) }
    ensures { result ≡ first_fault
        (definition_demands text.now (words_in known.now) parameters.now (expr_tree value.now)) }
{
    let outside = Scope::outside();
    defined_fault(text, known, &outside, 0, parameters, value)
}

// The parameters that are left, under those before them, and the right side under them all.
fn defined_fault(
    text: &[u8],
    known: &Declarations,
    scope: &Scope,
    count: usize,
    parameters: &[Binder],
    value: &Expr,
) -> Option<Fault>
    requires counted { length (bound_names scope.now) ≡ count }
    requires few { count ≤ max_arguments }
    requires parameters { BindersWithin (length text.now) parameters.now }
    requires nests { ExprNests max_nesting (expr_tree value.now) }
    requires within { ExprWithin (length text.now) (expr_tree value.now) }
    requires sound { IsSorted (words_in known.now) }
    ensures { result ≡ first_fault
        (binders_demands text.now (words_in known.now) (names_of (bound_names scope.now)) count parameters.now
        ++ demands text.now (words_in known.now)
        (with_binders text.now (words_in known.now) (bound_names scope.now) parameters.now) Formula
        (expr_tree value.now)) }
{
    let [parameter, others @ ..] = parameters else {
        return shallow_fault(text, known, scope, Wanted::Formula, value);
    };
    let name = bytes(text, parameter.name);
    if known.is_symbol(name) {
        return Some(fault_at(FaultCode::TakenName, parameter.name));
    }
    if scope.has(name) {
        return Some(fault_at(FaultCode::DeclaredTwice, parameter.name));
    }
    let Some(sort) = known.sort(bytes(text, parameter.sort)) else {
        return Some(fault_at(FaultCode::UnknownName, parameter.sort));
    };
    if count >= MAX_ARGUMENTS {
        return Some(fault_at(FaultCode::WrongArgumentCount, parameter.sort));
    }
    let inside = Scope::inside(name, sort, &*scope);
    defined_fault(text, known, &inside, count + 1, others, value)
}
