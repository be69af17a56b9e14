// What the axioms mean.
ghost use Rattle.equality_axioms.specs.Laws.{AxiomsAreTrue, StructuresSatisfyAxioms, AxiomsGiveEquality};
ghost use Rattle.equality_axioms.specs.Laws.{AxiomsAreImplications};

use fol_sig::range_laws;
use ground_terms::{atom_laws, place_laws, value_laws};

/// Each axiom is true of the atoms of a structure.
pub fn axiom_laws()
    ensures realised { AxiomsAreTrue }
    ensures structures { StructuresSatisfyAxioms }
{
    range_laws();
    place_laws();
    value_laws();
}

/// Where each axiom is true, equations are an equality: an equivalence of the terms of each sort, and equal
/// terms can be exchanged in each argument place of each relation and function.
pub fn equality_laws()
    ensures { AxiomsGiveEquality }
{}

/// Each axiom is a clause with one positive literal, and each atom of an axiom stands positive in one, so there are no
/// more atoms than axioms.
pub fn implication_law()
    ensures { AxiomsAreImplications }
{
    range_laws();
    place_laws();
    atom_laws();
}
