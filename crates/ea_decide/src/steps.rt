// What leads from one step of a decision to the next. Each function is its contract, and does nothing.
ghost use Rattle.ea_decide.specs.Steps.{RoomIsWithinLimits, StrataStay, ClausesRefute, ModelsGiveValues};
ghost use Rattle.ea_decide.specs.Steps.{ValuesAreReadable};

/// Within the limits the terms can be numbered, and the clauses given to a solver.
pub fn room_law()
    ensures { RoomIsWithinLimits }
{
    fol_sig::growth_laws();
    fol_nnf::exactness();
    skolem::exactness();
    ground_terms::count_laws();
    ground_size::size_laws();
    clause_form::size_laws();
}

/// The order of the sorts stays one with the constants.
pub fn strata_law()
    ensures { StrataStay }
{
    fol_sig::growth_laws();
    fol_nnf::exactness();
    skolem::exactness();
}

/// A structure that satisfies the sentence would give values that satisfy the clauses.
pub fn refutation_law()
    ensures { ClausesRefute }
{
    fol_sig::growth_laws();
    fol_nnf::exactness();
    skolem::exactness();
    ground_expand::instance_laws();
    equality_axioms::axiom_laws();
    clause_form::clause_laws();
}

/// A structure that satisfies the sentence gives values that satisfy the clauses.
pub fn values_law()
    ensures { ModelsGiveValues }
{
    fol_sig::growth_laws();
    fol_nnf::exactness();
    skolem::exactness();
    ground_expand::instance_laws();
    equality_axioms::axiom_laws();
    clause_form::clause_laws();
}

/// Values that satisfy the clauses give a structure that satisfies the sentence.
pub fn model_law()
    ensures { ValuesAreReadable }
{
    fol_sig::growth_laws();
    fol_nnf::exactness();
    skolem::exactness();
    ground_expand::instance_laws();
    clause_form::clause_laws();
}
