// The clauses of a sentence, for other solvers: nothing is searched.
ghost use Rattle.std.specs.Prelude.{[], IfOk, None};
ghost use Rattle.fol_sig.specs.Symbols.{symbols};
ghost use Rattle.fol_sig.specs.Strata.{IsStrata};
ghost use Rattle.fol_formula.specs.Fits.{FitsForm};
ghost use Rattle.cnf_base.specs.Writing.{CanWrite};
ghost use Rattle.ea_decide.specs.GroundForm.{IsClauseForm};
ghost use Rattle.limits.specs.Ceilings.{ceilings};
ghost use Rattle.ea_decide.specs.Passing.{Passes};
ghost use Rattle.ea_decide.specs.Decisions.{AreClauses};

use crate::decided::{Clauses, Measured};
use crate::deciding::prepare;
use crate::grounding::{clauses, skolemise};
use crate::measuring::measure;
use base::Mem;
use cnf_base::Cnf;
use fol_formula::Ea;
use fol_sig::{Signature, Strata};
use ground_terms::{Herbrand, Terms};
use limits::Limits;
use std::alloc::Global;

/// The clauses that decide a sentence of the signature, under the limits of ground terms and ground size: the very ones
/// that `decide` hands to its solver. They can be written as a text, which is read as these clauses.
pub fn clauses_of(
    alloc: Global,
    signature: &Signature,
    strata: &Strata,
    sentence: &Ea,
    limits: &Limits,
) -> Mem<Clauses>
    requires strata { IsStrata (symbols signature.now) strata.now }
    requires fits { FitsForm (symbols signature.now) [] sentence.now }
    ensures { IfOk result (AreClauses (ceilings limits.now) signature.now sentence.now) }
{
    if let Measured::Over(passed) = measure(alloc, signature, strata, sentence, limits)? {
        return Ok(Clauses::Over(passed));
    }
    let cnf = write(alloc, signature, strata, sentence, limits)?;
    Ok(Clauses::Written(cnf))
}

// The clauses of a sentence that passes no limit by its size.
fn write(
    alloc: Global,
    signature: &Signature,
    strata: &Strata,
    sentence: &Ea,
    limits: &Limits,
) -> Mem<Cnf>
    requires strata { IsStrata (symbols signature.now) strata.now }
    requires fits { FitsForm (symbols signature.now) [] sentence.now }
    requires within { Passes (ceilings limits.now) signature.now sentence.now None }
    ensures form { IfOk result (IsClauseForm signature.now sentence.now) }
    ensures writable { IfOk result CanWrite }
{
    prepare(signature, strata, sentence, limits);
    let made = skolemise(alloc, signature, sentence)?;
    let terms = Terms::new(alloc, &made.signature, strata)?;
    let universe = Herbrand {
        signature: &made.signature,
        terms: &terms,
    };
    let (cnf, _) = clauses(alloc, &universe, &made.sentence)?;
    let _clauses = cnf.clauses();
    Ok(cnf)
}
