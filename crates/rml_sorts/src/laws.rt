// What follows from the definitions alone. Each function is its contract, and calls the laws that its proof takes.
ghost use Rattle.rml_sorts.specs.Laws.{ModelsAreWhole, DraftsAreSound, PlacesStandInText, SizeFaultStandsInText};

/// The model of a tree without a fault of names and sorts is whole: what a `Model` has to be.
pub fn model_law()
    ensures { ModelsAreWhole }
{
    fol_subst::instance_laws();
    rml_items::sorted_law();
    rml_items::met_law();
}

/// What is built of a tree without a fault of names and sorts is sound; so each right side of a derived relation fits
/// its parameters.
pub fn draft_law()
    ensures { DraftsAreSound }
{
    fol_subst::instance_laws();
    rml_items::sorted_law();
    rml_items::met_law();
}

/// The places of the model of a tree stand where the names and words of the tree do.
pub fn place_law()
    ensures { PlacesStandInText }
{}

/// The fault of what is too large stands where the tree's names do.
pub fn size_fault_law()
    ensures { SizeFaultStandsInText }
{}
