// What the instance means.
ghost use Rattle.ground_expand.specs.Laws.{InstanceIsTrue, SentenceIsTrue, StructuresSatisfyInstance};

use fol_formula::quantified;
use fol_sig::range_laws;
use ground_terms::{place_laws, value_laws};

/// The instance is true of the atoms of a structure in which the sentence is true; and where it is true and
/// each element is the value of a term, the sentence is true.
pub fn instance_laws()
    ensures up { InstanceIsTrue }
    ensures down { SentenceIsTrue }
    ensures structures { StructuresSatisfyInstance }
{
    quantified();
    range_laws();
    place_laws();
    value_laws();
}
