//! The normal form of a sentence: negations are pushed to the atoms, and `Ite` is lifted out of them, so
//! that what is left to instantiate is made of literals, And, Or and quantifiers.
#![tactic(auto)]

mod join;
mod laws;
mod leaf;
mod walk;

ghost use Rattle.std.specs.Prelude.{◌≡◌, IfOk, true};
ghost use Rattle.fol_formula.specs.Syntax.{negation};
ghost use Rattle.fol_nnf.specs.Normal.{normal};
ghost use Rattle.fol_nnf.specs.Laws.{KeepsMeaning, Negates};

use base::Mem;
use fol_formula::{Ae, Ea, Formula, Normal, Sentence};
pub use laws::{exactness, plainness};
use std::alloc::Global;
use walk::normal_formula;

/// The negation of a forall-exists sentence, which is exists-forall. Nothing is copied.
pub fn negate(alloc: Global, sentence: Ae) -> Mem<Ea>
    ensures tree { IfOk result (λ s. s ≡ negation sentence) }
    ensures meaning { IfOk result (λ s. Negates sentence s) }
{
    fol_formula::inclusion();
    let formula = Box::new(alloc, sentence.into_sentence().into_formula())?;
    Ok(Ea::new(Sentence::of(Formula::Not(formula))))
}

/// The normal form of a sentence. An `Ite` in an atom makes one literal of each way through it, so the
/// result may be larger by the product of the choices in an atom; an equivalence has each side twice.
pub fn normal(alloc: Global, sentence: &Ea) -> Mem<Normal>
    ensures tree { IfOk result (λ s. s ≡ normal true sentence.now) }
    ensures meaning { IfOk result (λ s. KeepsMeaning sentence.now s) }
{
    exactness();
    let formula = normal_formula(alloc, sentence.sentence().formula(), true)?;
    Ok(Normal::new(Sentence::of(formula)))
}
