// What a sentence would cost, counted before anything is built.
ghost use Rattle.std.specs.Prelude.{[], IfOk};
ghost use Rattle.fol_sig.specs.Tables.{Declared};
ghost use Rattle.fol_sig.specs.Symbols.{symbols};
ghost use Rattle.fol_sig.specs.Strata.{IsStrata};
ghost use Rattle.fol_formula.specs.Syntax.{FormTree};
ghost use Rattle.fol_formula.specs.Fits.{FitsForm};
ghost use Rattle.fol_formula.specs.Fragments.{IsEa};
ghost use Rattle.ground_size.specs.Conjoined.{and_of};
ghost use Rattle.ground_size.specs.Found.{IsGroundSize};
ghost use Rattle.limits.specs.Ceilings.{ceilings};
ghost use Rattle.ea_decide.specs.Measuring.{IsMeasured};

use crate::decided::{Measured, Passed};
use base::Mem;
use fol_formula::Ea;
use fol_sig::{Signature, Strata};
use ground_size::{GroundSize, Part, count, count_parts, ground_size, ground_size_of_parts};
use limits::Limits;
use std::alloc::Global;

/// The size of the sentence's ground formulas, or the first limit that the sentence passes by its size. Nothing is
/// built. An error is want of memory: two numbers are kept for each sort.
pub fn measure(
    alloc: Global,
    signature: &Signature,
    strata: &Strata,
    sentence: &Ea,
    limits: &Limits,
) -> Mem<Measured>
    requires strata { IsStrata (symbols signature.now) strata.now }
    requires fits { FitsForm (symbols signature.now) [] sentence.now }
    ensures { IfOk result (IsMeasured (ceilings limits.now) signature.now sentence.now) }
{
    let counts = count(alloc, signature, strata, sentence)?;
    let found = GroundSize {
        terms: counts.total(),
        size: ground_size(signature, &counts, sentence),
    };
    Ok(measure_size(found, limits))
}

/// The same of the And of these parts, which is not built either.
pub fn measure_parts(
    alloc: Global,
    signature: &Signature,
    strata: &Strata,
    parts: &[Part],
    limits: &Limits,
) -> Mem<Measured>
    requires strata { IsStrata (symbols signature.now) strata.now }
    requires fragment { IsEa (and_of parts.now) }
    requires fits { FitsForm (symbols signature.now) [] (and_of parts.now) }
    ensures { IfOk result (IsMeasured (ceilings limits.now) signature.now (and_of parts.now)) }
{
    let counts = count_parts(alloc, signature, strata, parts)?;
    let found = GroundSize {
        terms: counts.total(),
        size: ground_size_of_parts(signature, &counts, parts),
    };
    Ok(measure_size(found, limits))
}

/// The same of a sentence whose ground formulas are counted.
pub fn measure_size(found: GroundSize, limits: &Limits) -> Measured
    ensures { (sig : Declared) (p : FormTree) → IsGroundSize sig p found
        → IsMeasured (ceilings limits.now) sig p result }
{
    if found.terms > limits.terms {
        return Measured::Over(Passed::Terms(found.terms));
    }
    if found.size > limits.ground_size {
        return Measured::Over(Passed::GroundSize(found.size));
    }
    Measured::Within(found.size)
}
