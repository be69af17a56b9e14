// The variables around a formula.
ghost use Rattle.std.specs.Prelude.{◌≡◌, ◌<◌, length, slice_index};
ghost use Rattle.ground_expand.specs.Scopes.{sorts_in, terms_in};

use fol_sig::Sort;

/// The bound variables, the nearest first: the sort of each, and the place of the term that it stands for.
#[derive(Clone, Copy)]
pub enum Scope<'a> {
    Outside,
    Bound {
        sort: Sort,
        term: u32,
        outer: &'a Scope<'a>,
    },
}

/// The sort of the variable with an index.
pub fn sort_at(scope: &Scope, index: u32) -> Sort
    requires { index < length (sorts_in scope.now) }
    ensures { result.0 ≡ slice_index (sorts_in scope.now) index }
{
    match scope {
        Scope::Outside => unreachable!(),
        Scope::Bound {
            sort,
            term: _,
            outer,
        } => {
            if index == 0 {
                *sort
            } else {
                sort_at(outer, index - 1)
            }
        }
    }
}

/// The term that the variable with an index stands for.
pub fn term_at(scope: &Scope, index: u32) -> u32
    requires { index < length (sorts_in scope.now) }
    ensures { result ≡ slice_index (terms_in scope.now) index }
{
    match scope {
        Scope::Outside => unreachable!(),
        Scope::Bound {
            sort: _,
            term,
            outer,
        } => {
            if index == 0 {
                *term
            } else {
                term_at(outer, index - 1)
            }
        }
    }
}
