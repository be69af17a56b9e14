// The values of ground terms in a structure.
ghost use Rattle.ground_terms.specs.Values.{StructuresGiveValues};

use fol_sig::{range_laws, tuple_laws};

/// In a structure that has the symbols, where the sorts have an order, each ground term has a value, and
/// these values realise what is true of the atoms there.
pub fn value_laws()
    ensures { StructuresGiveValues }
{
    range_laws();
    tuple_laws();
}
