// What follows from the definitions alone. Each function is its contract, and does nothing.
ghost use Rattle.std.specs.Prelude.{ℕ};
ghost use Rattle.fol_sig.specs.Tables.{Declared};
ghost use Rattle.cti_minimise.specs.SizeBounds.{size_bound, short_bound};
ghost use Rattle.cti_minimise.specs.Bounding.{bound_at};
ghost use Rattle.cti_minimise.specs.Saying.{said_by};
ghost use Rattle.cti_minimise.specs.Laws.{SizesAreBounded, TuplesAreBounded, AreBounds, AreImplied};

use crate::bounds::Saying;

/// A bound on the size of a sort is true exactly where the sort has at most so many elements, and one on a relation
/// exactly where it is true of at most so many tuples. Each is an exists-forall sentence of the signature.
pub fn bound_law()
    ensures named { SizesAreBounded size_bound }
    ensures short { SizesAreBounded short_bound }
    ensures tuples { TuplesAreBounded }
    ensures bounds { (sig : Declared) → AreBounds sig (bound_at sig) }
{
    fol_formula::quantified();
    fol_sig::tuple_laws();
}

/// However bounds are said, the sentences are true within them.
pub fn saying_law()
    ensures { (sig : Declared) (saying : Saying) (last : ℕ) → AreImplied sig (said_by sig saying last) }
{
    fol_formula::quantified();
    fol_sig::tuple_laws();
}
