//! Existential quantifiers become constants: a sentence in normal form has a model exactly where the
//! universal sentence with new constants has one. The constants are put behind the functions of the
//! signature, in the order in which the existentials stand in the sentence.
#![tactic(auto)]

mod laws;
mod named;
mod scope;
mod walk;

ghost use Rattle.std.specs.Prelude.{◌≡◌, ◌+◌, ◌<◌, ◌^◌, [], length, IfOk};
ghost use Rattle.fol_sig.specs.Tables.{numbers};
ghost use Rattle.fol_sig.specs.Symbols.{symbols};
ghost use Rattle.fol_formula.specs.Fits.{FitsForm};
ghost use Rattle.fol_sig.specs.Growing.{grown};
ghost use Rattle.skolem.specs.Constants.{new_sorts, skolemised};
ghost use Rattle.skolem.specs.Laws.{IsSkolemised, IsNormalUniversal};

use base::Mem;
use fol_formula::{Normal, Sentence, Universal};
use fol_sig::{Signature, Sort, with_constants};
pub use laws::{exactness, witnesses};
use scope::Scope;
use std::alloc::Global;
use walk::skolem_formula;

/// A universal sentence, the signature with the constants that it has in the place of existential
/// quantifiers, and the sorts of these constants in order.
#[derive(Drop)]
pub struct Skolemised {
    pub signature: Signature,
    pub sentence: Universal,
    pub constants: Vec<Sort>,
}

/// Puts a new constant behind the functions for each existential quantifier, in prefix order.
pub fn constants(alloc: Global, signature: &Signature, sentence: &Normal) -> Mem<Skolemised>
    requires fits { FitsForm (symbols signature.now) [] sentence.now }
    requires few { length signature.now.functions + length (new_sorts sentence.now) < 2 ^ 32 }
    ensures constants { IfOk result (λ s. numbers s.constants.items ≡ new_sorts sentence.now) }
    ensures signature { IfOk result (λ s. s.signature ≡ grown signature.now (new_sorts sentence.now)) }
    ensures sentence { IfOk result (λ s. s.sentence ≡ skolemised (length signature.now.functions) sentence.now) }
    ensures exact { IfOk result (λ _. IsSkolemised signature.now sentence.now) }
    ensures universal { IfOk result (λ s. IsNormalUniversal s.sentence) }
{
    exactness();
    fol_formula::indices();
    let mut constants = Vec::new(alloc);
    let normal = sentence.sentence();
    let functions = signature.function_count();
    let formula = skolem_formula(
        alloc,
        normal.formula(),
        functions,
        &Scope::Outside,
        &mut constants,
    )?;
    let signature = with_constants(alloc, signature, &constants)?;
    let sentence = Universal::new(Sentence::of(formula));
    Ok(Skolemised {
        signature,
        sentence,
        constants,
    })
}
