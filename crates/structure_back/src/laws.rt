// What follows from the definitions alone. The function is its contract, and does nothing.
ghost use Rattle.structure_back.specs.Laws.{AssignmentsAreReadable};

/// From each assignment of the atoms over closed lists of terms that satisfies the axioms of equality some structure
/// is read back.
pub fn reading_law()
    ensures { AssignmentsAreReadable }
{
    equality_axioms::equality_laws();
    ground_terms::place_laws();
    fol_sig::tuple_laws();
}
