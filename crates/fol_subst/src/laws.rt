// What holds of every replacement. Each function is its contract, and does nothing.
ghost use Rattle.fol_subst.specs.Outcome.{ShortListsSuffice, ShortListsAllowShifts, ReplacementKeepsMeaning};
ghost use Rattle.fol_subst.specs.KeptSize.{ShiftKeepsSize, IndexKeepsSize};
ghost use Rattle.fol_subst.specs.Unchanged.{OwnValueChangesNothing};
ghost use Rattle.fol_subst.specs.Templates.{InstancesReplaceRelations, InstancesFit, InstancesAreQuantifierFree};
ghost use Rattle.fol_subst.specs.Templates.{InstancesHavePlainTerms, OtherArgumentsDoNotCount, ExtentsAreFilled};
ghost use Rattle.fol_subst.specs.Templates.{ExtentsAreCounts};

/// A formula with a symbol replaced is true in a structure exactly where the formula is true in the
/// structure with the symbol's table changed; it fits where the formula does, and stays in its fragments.
pub fn exactness()
    ensures { ReplacementKeepsMeaning }
{
    fol_sig::update_laws();
    fol_sig::range_laws();
    fol_formula::agreement();
    fol_formula::inclusion();
    fol_formula::indices();
    fol_formula::lists();
    fol_formula::quantified();
    fol_formula::witnesses();
}

/// Where the list of sorts is short, whatever fits may be replaced, and shifted.
pub fn conditions()
    ensures replace { ShortListsSuffice }
    ensures shift { ShortListsAllowShifts }
{
    fol_formula::indices();
}

/// A shift keeps nodes and depth, and so does a bound variable in the place of a program variable.
pub fn same_size()
    ensures shift { ShiftKeepsSize }
    ensures index { IndexKeepsSize }
{
    fol_formula::indices();
}

/// To replace a symbol by its own application to its parameters in order changes nothing.
pub fn own_values()
    ensures { OwnValueChangesNothing }
{}

/// A formula with arguments in the place of its parameters is what a relation becomes that is replaced by it. It fits
/// where the arguments have the sorts of the parameters, has no quantifier where neither it nor they have one, has no
/// quantifier inside a term where it has none there and they have none at all, and does not depend on an argument whose
/// parameter does not stand in it.
pub fn instance_laws()
    ensures replaced { InstancesReplaceRelations }
    ensures fits { InstancesFit }
    ensures quantifier_free { InstancesAreQuantifierFree }
    ensures plain { InstancesHavePlainTerms }
    ensures others { OtherArgumentsDoNotCount }
{
    fol_formula::inclusion();
}

/// Extents are counts of nodes and depths, and that of an instance is found without the instance.
pub fn extent_laws()
    ensures counts { ExtentsAreCounts }
    ensures filled { ExtentsAreFilled }
{}
