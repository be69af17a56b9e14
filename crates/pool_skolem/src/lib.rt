//! Existential quantifiers of a sentence in a pool become constants, by the definitions of `skolem`. Each place of an
//! existential in the tree has a constant of its own, so a node with one in it is walked once for each of its places.
//! Any other node is changed once for each list of constants in whose scope it stands.
#![tactic(auto)]

mod naming;
mod scope;
mod supply;
mod walk;

ghost use Rattle.std.specs.Prelude.{◌≡◌, ◌+◌, ◌<◌, ◌^◌, [], length, IfOk};
ghost use Rattle.fol_sig.specs.Tables.{numbers};
ghost use Rattle.fol_sig.specs.Symbols.{symbols};
ghost use Rattle.fol_sig.specs.Growing.{grown};
ghost use Rattle.fol_formula.specs.Fits.{FitsForm};
ghost use Rattle.skolem.specs.Constants.{new_sorts, skolemised};
ghost use Rattle.fol_pool.specs.Trees.{IsAt, Grows, HasForm, a_form, form_at};

use base::Mem;
use fol_pool::{Node, Pool};
use fol_sig::{Signature, Sort, with_constants};
use pool_subst::Memo;
use scope::Scope;
use std::alloc::Global;
use supply::Constants;
use walk::skolem_node;

/// A sentence with constants in the place of existential quantifiers, the signature with these constants, and their
/// sorts in order.
#[derive(Drop)]
pub struct Skolemised {
    pub signature: Signature,
    pub sentence: Node,
    pub constants: Vec<Sort>,
}

/// Puts a new constant behind the functions for each existential quantifier of a sentence in normal form, in prefix
/// order. Err: out of memory, and each node is as before.
pub fn constants(
    alloc: Global,
    pool: &mut Pool,
    signature: &Signature,
    sentence: Node,
) -> Mem<Skolemised>
    requires there { HasForm pool.old sentence.0 }
    requires fits { FitsForm (symbols signature.now) [] (form_at pool.old sentence.0) }
    requires few { length signature.now.functions + length (new_sorts (form_at pool.old sentence.0)) < 2 ^ 32 }
    ensures constants { IfOk result (λ s. numbers s.constants.items ≡ new_sorts (form_at pool.old sentence.0)) }
    ensures signature { IfOk result
        (λ s. s.signature ≡ grown signature.now (new_sorts (form_at pool.old sentence.0))) }
    ensures sentence { IfOk result (λ s. IsAt pool.new s.sentence.0
        (a_form (skolemised (length signature.now.functions) (form_at pool.old sentence.0)))) }
    ensures grows { Grows pool.old pool.new }
{
    skolem::exactness();
    let mut constants = Constants::new(alloc, signature.function_count());
    let mut memo = Memo::new(alloc);
    let sentence = skolem_node(
        alloc,
        pool,
        sentence,
        &Scope::Outside,
        &mut memo,
        &mut constants,
    )?;
    let constants = constants.into_sorts();
    let signature = with_constants(alloc, signature, &constants)?;
    Ok(Skolemised {
        signature,
        sentence,
        constants,
    })
}
