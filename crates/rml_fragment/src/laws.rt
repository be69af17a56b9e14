// What follows from the definitions alone. Each function is its contract: it only calls the laws of the crates below
// that its proof takes.
ghost use Rattle.rml_fragment.specs.Laws.{FaultsAreExact, FaultsStandInText, PassedIsChecked};

/// A model has one fault or none, and has none exactly where it can be checked.
pub fn fault_law()
    ensures { FaultsAreExact }
{
    rml_lex::code_law();
    fol_sig::strata_laws();
    fol_sig::cycle_law();
    fol_formula::decision();
}

/// The fault of a model stands where its places do.
pub fn place_law()
    ensures { FaultsStandInText }
{}

// Where no phase gives a fault, the model can be checked.
pub fn passing_law()
    ensures { PassedIsChecked }
{
    fol_sig::cycle_law();
    fol_formula::decision();
}
