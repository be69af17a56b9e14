// What holds of every formula. Each function is its contract, and does nothing.
ghost use Rattle.fol_formula.specs.Agree.{TruthAgrees, ValuesAgree, ValuesAreInRange};
ghost use Rattle.fol_formula.specs.Closed.{FitsIsBound, FitsIsBoundTerm, TruthReadsNoMore, ValueReadsNoMore};
ghost use Rattle.fol_formula.specs.Closed.{FitsUnderMore, FitsUnderMoreTerm};
ghost use Rattle.fol_formula.specs.NormalForms.{UniversalByNormalForm, ExistsForallByNormalForm, NormalFormKeepsTruth};
ghost use Rattle.fol_formula.specs.NormalForms.{NormalFormStays};
ghost use Rattle.fol_formula.specs.Decisions.{FragmentsAreDecided};
ghost use Rattle.fol_formula.specs.Growing.{FittingIsKept, TruthReadsItsOwn};
ghost use Rattle.fol_formula.specs.Inclusions.{NegationExchanges, UniversalIsExistsForall, UniversalIsEa};
ghost use Rattle.fol_formula.specs.Inclusions.{UniversalIsAe, NormalIsEa, NormalHasPlainTerms};
ghost use Rattle.fol_formula.specs.Inclusions.{QuantifierFreeIsUniversal};
ghost use Rattle.fol_formula.specs.Lists.{FormLists, TermLists, FormTurns, TermTurns, RowsAreLists};
ghost use Rattle.fol_formula.specs.Quantified.{AllBelow, AnyBelow};
ghost use Rattle.fol_formula.specs.Witnesses.{WitnessedIsTrue, WitnessesExist, WithoutExistentials};
ghost use Rattle.fol_formula.specs.Witnesses.{UniversalNeedsNoWitness, UniversalNormalNeedsNoWitness};

/// Structures that agree wherever a formula looks give it one truth, and the value of a term is an
/// element of its sort.
pub fn agreement()
    ensures truth { TruthAgrees }
    ensures values { ValuesAgree }
    ensures in_range { ValuesAreInRange }
{
    fol_sig::range_laws();
}

/// A formula reads no element beyond those of its indices, and what fits has an index for each.
pub fn indices()
    ensures bound { FitsIsBound }
    ensures bound_terms { FitsIsBoundTerm }
    ensures truth { TruthReadsNoMore }
    ensures values { ValueReadsNoMore }
    ensures fits { FitsUnderMore }
    ensures fits_terms { FitsUnderMoreTerm }
{}

/// The fragments by polarity are those of the normal form, which keeps truth, and is the formula itself
/// where that is in normal form already.
pub fn classification()
    ensures universal { UniversalByNormalForm }
    ensures exists_forall { ExistsForallByNormalForm }
    ensures truth { NormalFormKeepsTruth }
    ensures stays { NormalFormStays }
{}

/// How the fragments lie in one another.
pub fn inclusion()
    ensures negation { NegationExchanges }
    ensures prefix { UniversalIsExistsForall }
    ensures universal { UniversalIsEa }
    ensures universal_ae { UniversalIsAe }
    ensures normal { NormalIsEa }
    ensures plain { NormalHasPlainTerms }
    ensures quantifier_free { QuantifierFreeIsUniversal }
{}

/// A formula is universal, or exists-forall, or it is not; and so is its negation.
pub fn decision()
    ensures { FragmentsAreDecided }
{}

/// What a loop over a list of formulas or of terms needs that makes one of each.
pub fn lists()
    ensures forms { FormLists }
    ensures terms { TermLists }
    ensures form_turns { FormTurns }
    ensures term_turns { TermTurns }
    ensures rows { RowsAreLists }
{}

/// What is true of all numbers below a bound is true of each, and what is true of some is true of one.
pub fn quantified()
    ensures all { AllBelow }
    ensures any { AnyBelow }
{}

/// A formula in normal form is true where some values witness its existentials: witnessed is true, and
/// where it is true and exists-forall there are such values. A universal formula needs none.
pub fn witnesses()
    ensures sound { WitnessedIsTrue }
    ensures exist { WitnessesExist }
    ensures none { WithoutExistentials }
    ensures universal { UniversalNeedsNoWitness }
    ensures normal { UniversalNormalNeedsNoWitness }
{}

/// What fits a signature fits one that grew from it, and truth reads no relation and no function that the
/// signature does not have.
pub fn growth()
    ensures fitting { FittingIsKept }
    ensures truth { TruthReadsItsOwn }
{}
