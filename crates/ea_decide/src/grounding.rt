// From a sentence to its clauses.
ghost use Rattle.std.specs.Prelude.{◌≡◌, ◌+◌, ◌<◌, ◌≤◌, ◌^◌, [], ◌∷◌, true, length, IfOk, OnOk};
ghost use Rattle.fol_sig.specs.Symbols.{symbols};
ghost use Rattle.fol_formula.specs.Fits.{FitsForm};
ghost use Rattle.fol_formula.specs.Fragments.{IsNormalForm};
ghost use Rattle.fol_nnf.specs.Normal.{normal};
ghost use Rattle.skolem.specs.Constants.{new_sorts};
ghost use Rattle.skolem.specs.Laws.{IsSkolemised, IsNormalUniversal};
ghost use Rattle.ground_terms.specs.Universe.{symbols_in};
ghost use Rattle.ground_terms.specs.Trees.{trees_of};
ghost use Rattle.ground_terms.specs.Calls.{calls_of_all};
ghost use Rattle.clause_form.specs.Clauses.{clause_form};
ghost use Rattle.clause_form.specs.Stands.{Stands};
ghost use Rattle.clause_form.specs.Meaning.{atoms_of};
ghost use Rattle.ground_size.specs.Counting.{skolem_signature};
ghost use Rattle.ea_decide.specs.GroundForm.{skolem_sentence, formulas_over};

use base::Mem;
use clause_form::{AtomMap, Clauser};
use cnf_base::Cnf;
use equality_axioms::axioms_into;
use fol_formula::{Ea, Universal};
use fol_nnf::normal;
use fol_sig::Signature;
use ground_expand::expand_into;
use ground_terms::Herbrand;
use skolem::{Skolemised, constants};
use std::alloc::Global;

/// The sentence with constants in the place of its existentials, and the signature with these constants.
pub fn skolemise(alloc: Global, signature: &Signature, sentence: &Ea) -> Mem<Skolemised>
    requires fits { FitsForm (symbols signature.now) [] sentence.now }
    requires few { length signature.now.functions + length (new_sorts (normal true sentence.now)) < 2 ^ 32 }
    ensures signature { IfOk result (λ s. s.signature ≡ skolem_signature signature.now sentence.now) }
    ensures sentence { IfOk result (λ s. s.sentence ≡ skolem_sentence signature.now sentence.now) }
    ensures exact { IfOk result (λ _. IsSkolemised signature.now (normal true sentence.now)) }
    ensures universal { IfOk result (λ s. IsNormalUniversal s.sentence) }
{
    let normal = normal(alloc, sentence)?;
    let made = constants(alloc, signature, &normal)?;
    Ok(made)
}

/// The clauses of the instance of a universal sentence and of the axioms of equality, over all ground terms. No
/// ground formula is kept: each is written out as it is made.
pub fn clauses(alloc: Global, universe: &Herbrand, sentence: &Universal) -> Mem<(Cnf, AtomMap)>
    requires fits { FitsForm (symbols_in universe.now) [] sentence.now }
    requires normal { IsNormalForm sentence.now }
    requires few { (clause_form
        (trees_of (formulas_over universe.now.signature.now sentence.now universe.now.terms.now))).variables
        ≤ 2147483647 }
    ensures cnf { IfOk result (λ made. made.0
        ≡ clause_form (trees_of (formulas_over universe.now.signature.now sentence.now universe.now.terms.now))) }
    ensures atoms { IfOk result (λ made. made.1
        ≡ atoms_of (trees_of (formulas_over universe.now.signature.now sentence.now universe.now.terms.now))) }
{
    let mut clauser = Clauser::new(alloc, universe.signature, universe.terms.counts())?;
    write_all(alloc, universe, sentence, &mut clauser)?;
    let made = clauser.finish()?;
    Ok(made)
}

// The instance, and behind it the axioms.
fn write_all(
    alloc: Global,
    universe: &Herbrand,
    sentence: &Universal,
    clauser: &mut Clauser,
) -> Mem<()>
    requires fits { FitsForm (symbols_in universe.now) [] sentence.now }
    requires normal { IsNormalForm sentence.now }
    ensures { OnOk result (Stands clauser.old [] → Stands clauser.new
        (calls_of_all (trees_of (formulas_over universe.now.signature.now sentence.now universe.now.terms.now)))) }
{
    expand_into(alloc, universe, sentence, clauser)?;
    axioms_into(alloc, universe, clauser)?;
    Ok(())
}
