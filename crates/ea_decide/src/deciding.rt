// A decision: limits first, then clauses, then the search.
ghost use Rattle.std.specs.Prelude.{◌≡◌, [], IfOk, None};
ghost use Rattle.fol_sig.specs.Symbols.{symbols};
ghost use Rattle.fol_sig.specs.Strata.{IsStrata};
ghost use Rattle.fol_formula.specs.Fits.{FitsForm};
ghost use Rattle.fol_formula.specs.Fragments.{IsNormalForm};
ghost use Rattle.ground_terms.specs.Universe.{symbols_in};
ghost use Rattle.ground_size.specs.Counting.{skolem_signature};
ghost use Rattle.ea_decide.specs.GroundForm.{skolem_sentence};
ghost use Rattle.limits.specs.Ceilings.{ceilings};
ghost use Rattle.ea_decide.specs.Passing.{Passes};
ghost use Rattle.ea_decide.specs.Decisions.{IsDecided};
ghost use Rattle.ea_decide.specs.Steps.{more_symbols, IsGroundable, HasRoom, IsSearchedFor};

use crate::decided::{Decided, Measured, Passed};
use crate::grounding::{clauses, skolemise};
use crate::measuring::measure;
use crate::searching::{Searched, search};
use crate::steps::{model_law, refutation_law, room_law, strata_law};
use base::Mem;
use fol_formula::{Ea, Universal};
use fol_sig::{Signature, Strata};
use ground_terms::{Herbrand, Terms};
use limits::Limits;
use std::alloc::Global;
use structure_back::read;

/// Decides a sentence of the signature under limits, which are looked at in their order: ground terms, ground size,
/// conflicts. The first two are counted before anything is built.
pub fn decide(
    alloc: Global,
    signature: &Signature,
    strata: &Strata,
    sentence: &Ea,
    limits: &Limits,
) -> Mem<Decided>
    requires strata { IsStrata (symbols signature.now) strata.now }
    requires fits { FitsForm (symbols signature.now) [] sentence.now }
    ensures { IfOk result (IsDecided (ceilings limits.now) signature.now sentence.now) }
{
    if let Measured::Over(passed) = measure(alloc, signature, strata, sentence, limits)? {
        return Ok(Decided::Over(passed));
    }
    let decided = decide_within(alloc, signature, strata, sentence, limits)?;
    Ok(decided)
}

/// What holds of a sentence that passes no limit by its size.
pub fn prepare(signature: &Signature, strata: &Strata, sentence: &Ea, limits: &Limits)
    requires strata { IsStrata (symbols signature.now) strata.now }
    requires fits { FitsForm (symbols signature.now) [] sentence.now }
    requires within { Passes (ceilings limits.now) signature.now sentence.now None }
    ensures groundable { IsGroundable signature.now sentence.now strata.now }
    ensures room { HasRoom signature.now sentence.now }
    ensures strata { IsStrata (more_symbols signature.now sentence.now) strata.now }
{
    room_law();
    strata_law();
    let _sorted = signature.sorts();
    let _fragment = sentence.sentence();
    let _limits = *limits;
}

// Decides a sentence that passes no limit by its size.
fn decide_within(
    alloc: Global,
    signature: &Signature,
    strata: &Strata,
    sentence: &Ea,
    limits: &Limits,
) -> Mem<Decided>
    requires strata { IsStrata (symbols signature.now) strata.now }
    requires fits { FitsForm (symbols signature.now) [] sentence.now }
    requires within { Passes (ceilings limits.now) signature.now sentence.now None }
    ensures { IfOk result (IsDecided (ceilings limits.now) signature.now sentence.now) }
{
    prepare(signature, strata, sentence, limits);
    let made = skolemise(alloc, signature, sentence)?;
    let terms = Terms::new(alloc, &made.signature, strata)?;
    let universe = Herbrand {
        signature: &made.signature,
        terms: &terms,
    };
    let decided = decide_over(
        alloc,
        signature,
        strata,
        sentence,
        &made.sentence,
        &universe,
        limits,
    )?;
    Ok(decided)
}

// Decides a sentence, given its form with constants, and the signature with these and its ground terms.
fn decide_over(
    alloc: Global,
    signature: &Signature,
    strata: &Strata,
    sentence: &Ea,
    form: &Universal,
    universe: &Herbrand,
    limits: &Limits,
) -> Mem<Decided>
    requires groundable { IsGroundable signature.now sentence.now strata.now }
    requires room { HasRoom signature.now sentence.now }
    requires signature { universe.now.signature.now ≡ skolem_signature signature.now sentence.now }
    requires form { form.now ≡ skolem_sentence signature.now sentence.now }
    requires fits { FitsForm (symbols_in universe.now) [] form.now }
    requires normal { IsNormalForm form.now }
    ensures { IfOk result (IsSearchedFor (ceilings limits.now) signature.now sentence.now) }
{
    refutation_law();
    model_law();
    let (cnf, atoms) = clauses(alloc, universe, form)?;
    match search(alloc, cnf, limits.conflicts)? {
        Searched::Refuted(proof) => Ok(Decided::Refuted(proof)),
        Searched::Spent => Ok(Decided::Over(Passed::Conflicts(limits.conflicts))),
        Searched::Satisfied(values) => {
            let assignment = atoms.assign(alloc, &values)?;
            let structure = read(alloc, universe, &assignment)?;
            Ok(Decided::Satisfied(structure))
        }
    }
}
