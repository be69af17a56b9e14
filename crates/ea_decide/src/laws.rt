// What follows from the definitions alone. The function is its contract, and does nothing.
ghost use Rattle.ea_decide.specs.Laws.{FirstLimitIsOne, FewElementsAreWithin, ClausesAreWithinSize};
ghost use Rattle.ea_decide.specs.Laws.{ClauseFormIsOne, ClauseFormRefutes, ClauseFormIsExact};

/// The limit that a sentence passes first is a function of the sentence.
pub fn passing_law()
    ensures { FirstLimitIsOne }
{
    fol_sig::growth_laws();
    skolem::exactness();
    ground_terms::count_laws();
    fol_nnf::exactness();
}

/// A structure with no more elements than a sentence within the limits has ground terms has no more than the limit of
/// ground terms.
pub fn elements_law()
    ensures { FewElementsAreWithin }
{}

/// A sentence has at most two clauses and two variables for each node and each axiom that are counted as its ground
/// size.
pub fn size_law()
    ensures { ClausesAreWithinSize }
{
    fol_sig::growth_laws();
    skolem::exactness();
    fol_nnf::exactness();
    ground_size::size_laws();
    equality_axioms::implication_law();
    clause_form::size_laws();
}

/// A sentence has one clause form, and where no truth values satisfy it, no structure satisfies the sentence.
pub fn clauses_law()
    ensures one { ClauseFormIsOne }
    ensures refutes { ClauseFormRefutes }
{
    fol_sig::growth_laws();
    skolem::exactness();
    ground_terms::count_laws();
    fol_nnf::exactness();
    crate::steps::refutation_law();
}

/// Truth values satisfy the clause form exactly where a structure satisfies the sentence.
pub fn exactness_law()
    ensures { ClauseFormIsExact }
{
    fol_sig::growth_laws();
    fol_nnf::exactness();
    skolem::exactness();
    structure_back::reading_law();
    crate::steps::values_law();
    crate::steps::model_law();
}
