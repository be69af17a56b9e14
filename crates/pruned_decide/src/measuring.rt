// What is counted of a sentence over the symbols that occur in it alone, before it is decided: nothing is.
ghost use Rattle.std.specs.Prelude.{[], IfOk, IfErr};
ghost use Rattle.base.specs.Because.{Because};
ghost use Rattle.fol_sig.specs.Symbols.{symbols};
ghost use Rattle.fol_sig.specs.Strata.{IsStrata};
ghost use Rattle.fol_formula.specs.Fits.{FitsForm};
ghost use Rattle.limits.specs.Ceilings.{ceilings};
ghost use Rattle.pruned_decide.specs.Decisions.{IsMeasuredSmall, HasManyConstants};
ghost use Rattle.pruned_decide.specs.Widened.{IsMeasuredPruned};

use crate::small::{ManyConstants, Small, with_constants};
use base::{Mem, Refused};
use ea_decide::Measured;
use fol_formula::Ea;
use fol_sig::{Signature, Strata};
use limits::Limits;
use pruning::pruning_law;
use skolem::Skolemised;
use std::alloc::Global;

/// What it would cost to decide a sentence of the signature by its lean form: the size of the ground formulas, or the
/// limit that is passed before anything is decided.
pub fn measure(
    alloc: Global,
    signature: &Signature,
    strata: &Strata,
    sentence: &Ea,
    limits: &Limits,
) -> Result<Measured, Refused<ManyConstants>>
    requires strata { IsStrata (symbols signature.now) strata.now }
    requires fits { FitsForm (symbols signature.now) [] sentence.now }
    ensures measured { IfOk result (IsMeasuredSmall (ceilings limits.now) signature.now sentence.now) }
    ensures many { IfErr result (Because (λ _. HasManyConstants signature.now sentence.now)) }
{
    skolem::exactness();
    fol_nnf::exactness();
    fol_sig::growth_laws();
    pruning_law();
    let whole = with_constants(alloc, signature, sentence)?;
    let measured = measure_whole(alloc, &whole, strata, limits);
    drop(whole);
    let measured = measured?;
    Ok(measured)
}

// The same of a sentence with constants.
fn measure_whole(
    alloc: Global,
    whole: &Skolemised,
    strata: &Strata,
    limits: &Limits,
) -> Mem<Measured>
    requires strata { IsStrata (symbols whole.now.signature) strata.now }
    requires fits { FitsForm (symbols whole.now.signature) [] whole.now.sentence }
    ensures { IfOk result (IsMeasuredPruned (ceilings limits.now) whole.now.signature whole.now.sentence) }
{
    pruning_law();
    let small = Small::of(alloc, whole)?;
    let measured = ea_decide::measure(alloc, &small.signature, strata, &small.sentence, limits);
    drop(small);
    let measured = measured?;
    Ok(measured)
}
