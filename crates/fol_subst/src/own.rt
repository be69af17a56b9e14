// Whether a symbol is set to its own value.
ghost use Rattle.std.specs.Prelude.{◌≡◌};
ghost use Rattle.fol_formula.specs.View.{form, term as term_view, terms as terms_view};
ghost use Rattle.fol_subst.specs.Replace.{change_rel, change_fun};
ghost use Rattle.fol_subst.specs.Unchanged.{is_own_value, is_index, are_parameters};

use fol_formula::{Formula, Term};
use fol_sig::{FunId, RelId};

/// Whether `by` is the relation before its own parameters in order, the last one 0. By `own_values`, to
/// replace the relation by it changes nothing, and need not be done.
pub fn is_own_rel(rel: RelId, by: &Formula) -> bool
    ensures { result ≡ is_own_value (change_rel rel.0 (form by.now)) }
{
    match by {
        Formula::Rel(q, args) => q.0 == rel.0 && are_parameters(args),
        _ => false,
    }
}

/// Whether `by` is the function before its own parameters in order, the last one 0. By `own_values`, to
/// replace the function by it changes nothing, and need not be done.
pub fn is_own_fun(fun: FunId, by: &Term) -> bool
    ensures { result ≡ is_own_value (change_fun fun.0 (term_view by.now)) }
{
    match by {
        Term::App(f, args) => f.0 == fun.0 && are_parameters(args),
        _ => false,
    }
}

fn are_parameters(args: &[Term]) -> bool
    ensures { result ≡ are_parameters (terms_view args.now) }
{
    let mut rest = args;
    while let [t, after @ ..] = rest {
        if !is_index(t, after.len()) {
            return false;
        }
        rest = after;
    }
    true
}

fn is_index(t: &Term, index: usize) -> bool
    ensures { result ≡ is_index index (term_view t.now) }
{
    match t {
        Term::Bound(i) => *i as usize == index,
        _ => false,
    }
}
