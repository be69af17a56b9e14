// What the indices of a formula stand for.
ghost use Rattle.std.specs.Prelude.{◌≡◌, slice_index_or};
ghost use Rattle.skolem.specs.Constants.{binder};
ghost use Rattle.skolem.specs.Scopes.{slot_of};
ghost use Rattle.pool_skolem.specs.Named.{slots};

use fol_sig::FunId;

/// The constants in the place of the existentials around a formula, the nearest first.
#[derive(Clone, Copy)]
pub enum Scope<'a> {
    Outside,
    Inside {
        constant: FunId,
        outer: &'a Scope<'a>,
    },
}

/// The constant that an index stands for, if it stands for one.
pub fn constant_at(scope: &Scope, index: u32) -> Option<FunId>
    ensures { slot_of result ≡ slice_index_or (slots scope.now) index binder }
{
    match scope {
        Scope::Outside => None,
        Scope::Inside { constant, outer } => {
            if index == 0 {
                Some(*constant)
            } else {
                constant_at(outer, index - 1)
            }
        }
    }
}
