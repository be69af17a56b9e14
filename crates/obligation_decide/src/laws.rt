// What follows from the definitions alone. Each function is its contract, and does nothing.
ghost use Rattle.obligation_decide.specs.Laws.{FirstLimitIsOne, PartsAreAdded, PartsAreTrue, AxiomsAreJudged};

/// The limit that a goal passes first, or that it passes none, is a function of the model.
pub fn passing_law()
    ensures { FirstLimitIsOne }
{
    rml_wp::sentence_law();
    witness::sentence_law();
    skolem::exactness();
}

/// A refuting sentence with further parts is the sentence with these in its And, and true exactly where it is true
/// without them and they are.
pub fn parts_law()
    ensures added { PartsAreAdded }
    ensures truth { PartsAreTrue }
{}

/// The And of the axioms is a sentence of the model, and they are consistent where it has a model with constants,
/// inconsistent where it has none.
pub fn axioms_law()
    ensures { AxiomsAreJudged }
{
    skolem::exactness();
    fol_nnf::exactness();
}
