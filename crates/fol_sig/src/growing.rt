// Signatures that grow by functions without arguments, and by relations. A sentence whose existential quantifiers
// become constants is read in the grown signature, and its structures are those of the signature with elements for the
// constants. A fresh relation stands for a table that may be any: the structures of the grown signature are those of
// the signature with some table for it.
ghost use Rattle.std.specs.Prelude.{◌≡◌, ◌+◌, ◌<◌, ◌^◌, All, length, map, IfOk};
ghost use Rattle.fol_sig.specs.Tables.{AreSorts, numbers};
ghost use Rattle.fol_sig.specs.Symbols.{symbols};
ghost use Rattle.fol_sig.specs.Growing.{grown, grown_by_relations};

use crate::{RelId, Signature, Sort, Sorts};
use base::Mem;
use std::alloc::Global;

/// The signature with functions without arguments behind its own, with values of these sorts.
pub fn with_constants(alloc: Global, signature: &Signature, constants: &[Sort]) -> Mem<Signature>
    requires known { AreSorts signature.now.sorts (numbers constants.now) }
    requires few { length signature.now.functions + length constants.now < 2 ^ 32 }
    ensures value { IfOk result (λ s. s ≡ grown signature.now (numbers constants.now)) }
{
    let mut more = signature.copy(alloc)?;
    for sort in constants {
        more.add_function(Sorts::new(alloc), *sort)?;
    }
    Ok(more)
}

/// The signature with fresh relations behind its own, one for each of these, with the same argument sorts.
pub fn with_fresh_relations(alloc: Global, signature: &Signature, like: &[RelId]) -> Mem<Signature>
    requires known { All (λ r. r.0 < length signature.now.relations) like.now }
    requires few { length signature.now.relations + length like.now < 2 ^ 32 }
    ensures value { IfOk result
        (λ s. s ≡ grown_by_relations signature.now (map (λ r. (symbols signature.now).sorts_of r.0) like.now)) }
{
    let mut more = signature.copy(alloc)?;
    for rel in like {
        more.add_relation(signature.relations()[rel.0 as usize].copy())?;
    }
    Ok(more)
}
