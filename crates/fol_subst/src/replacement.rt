// What is replaced, and by what.
ghost use Rattle.std.specs.Prelude.{◌≡◌};
ghost use Rattle.fol_subst.specs.Changes.{change_of};
ghost use Rattle.fol_subst.specs.Extents.{changes_rel, changes_fun};

use fol_formula::{Formula, Term};
use fol_sig::{FunId, RelId};

#[derive(Clone, Copy)]
pub enum Replacement<'a> {
    Rel(RelId, &'a Formula),
    Fun(FunId, &'a Term),
    Const(FunId, u32),
}

impl Replacement<'_> {
    pub fn changes_rel(&self, rel: RelId) -> bool
        ensures { result ≡ changes_rel (change_of self.now) rel.0 }
    {
        match self {
            Replacement::Rel(replaced, _) => rel.0 == replaced.0,
            _ => false,
        }
    }

    pub fn changes_fun(&self, fun: FunId) -> bool
        ensures { result ≡ changes_fun (change_of self.now) fun.0 }
    {
        match self {
            Replacement::Rel(_, _) => false,
            Replacement::Fun(replaced, _) => fun.0 == replaced.0,
            Replacement::Const(replaced, _) => fun.0 == replaced.0,
        }
    }
}
