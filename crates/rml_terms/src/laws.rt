// What follows from the definitions alone. Each function is its contract, and does nothing.
ghost use Rattle.std.specs.Prelude.{ℕ, suc};
ghost use Rattle.rml_terms.specs.Tree.{ExprTree, ExprTrees};
ghost use Rattle.rml_terms.specs.Shape.{ExprNests, ExprsNest};
ghost use Rattle.rml_terms.specs.Laws.{AreRead, TermsStand, TermsAscend, TermsNest};

/// What the parser gives of a term is the term, and it fails where the grammar does, whatever the number of levels.
pub fn terms_are_read()
    ensures { AreRead }
{}

/// The names and the nodes of a term stand in the text in which its tokens stand.
pub fn terms_stand()
    ensures { (n : ℕ) → TermsStand n }
{}

/// In the tree of a term no name and no node begins before the one in front of it.
pub fn terms_ascend()
    ensures { TermsAscend }
{}

/// The binders of a term nest no deeper than its levels.
pub fn terms_nest()
    ensures terms { TermsNest }
    // what nests so deep nests one deeper
    ensures deeper { (n : ℕ) (e : ExprTree) → ExprNests n e → ExprNests (suc n) e }
    ensures deeper_all { (n : ℕ) (es : ExprTrees) → ExprsNest n es → ExprsNest (suc n) es }
{}
