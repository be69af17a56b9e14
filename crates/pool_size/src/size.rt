// All together.
ghost use Rattle.std.specs.Prelude.{[], IfOk};
ghost use Rattle.fol_sig.specs.Symbols.{symbols};
ghost use Rattle.fol_sig.specs.Strata.{IsStrata};
ghost use Rattle.fol_formula.specs.Fits.{FitsForm};
ghost use Rattle.fol_formula.specs.Fragments.{IsEa};
ghost use Rattle.fol_pool.specs.Trees.{HasForm, form_at};
ghost use Rattle.ground_size.specs.Found.{IsGroundSize};

use crate::existentials::constants;
use crate::instance::instance_nodes;
use crate::room::Room;
use base::Mem;
use fol_pool::{Node, Pool};
use fol_sig::{Signature, Strata};
use ground_size::GroundSize;
use std::alloc::Global;

/// The size of the ground formulas of the sentence at a node. Nothing is built. Each node with a number up to that of
/// the sentence is looked at twice, also where it is no part of the sentence. Err: out of memory; a few numbers are
/// kept for each of these nodes, in the room, and for each sort.
pub fn ground_size(
    alloc: Global,
    signature: &Signature,
    strata: &Strata,
    pool: &Pool,
    sentence: Node,
    room: &mut Room,
) -> Mem<GroundSize>
    requires strata { IsStrata (symbols signature.now) strata.now }
    requires sentence { HasForm pool.now sentence.0 }
    requires fragment { IsEa (form_at pool.now sentence.0) }
    requires fits { FitsForm (symbols signature.now) [] (form_at pool.now sentence.0) }
    ensures { IfOk result (IsGroundSize signature.now (form_at pool.now sentence.0)) }
{
    let constants = constants(alloc, signature, pool, sentence, &mut room.times)?;
    let counts = ground_size::count_with(alloc, signature, strata, &constants)?;
    let nodes = instance_nodes(pool, &counts, sentence, &mut room.measures)?;
    Ok(GroundSize {
        terms: counts.total(),
        size: ground_size::with_axioms(signature, &counts, nodes),
    })
}
