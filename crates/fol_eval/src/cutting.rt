// A structure of a grown signature without the tables of the new symbols: what it says of the signature it grew from.
ghost use Rattle.std.specs.Prelude.{◌≡◌, IfOk};
ghost use Rattle.fol_sig.specs.Tables.{reading};
ghost use Rattle.fol_sig.specs.Symbols.{Symbols, FitsStructure, symbols};
ghost use Rattle.fol_sig.specs.Constants.{reduct};
ghost use Rattle.fol_sig.specs.Growing.{Grows};
ghost use Rattle.fol_formula.specs.Growing.{ReadsItsOwn};

use base::Mem;
use fol_sig::{Signature, Structure};
use std::alloc::Global;

/// A second structure without the tables of the relations and functions behind those of the signature. It keeps all
/// else: what fits the signature has the same truth and the same value in both.
pub fn cut(alloc: Global, structure: &Structure, signature: &Signature) -> Mem<Structure>
    requires { (more : Symbols) × Grows (symbols signature.now) more × FitsStructure more structure.now }
    ensures value { IfOk result (λ s. s ≡ reduct (symbols signature.now) structure.now) }
    ensures fits { IfOk result (λ s. FitsStructure (symbols signature.now) s) }
    ensures reads { IfOk result
        (λ s. ReadsItsOwn (symbols signature.now) (reading structure.now) (reading s)) }
{
    fol_sig::growth_laws();
    fol_formula::growth();
    let cut = structure.reduct(alloc, signature)?;
    Ok(cut)
}
