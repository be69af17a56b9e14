// What follows from the definitions alone. Each function is its contract, and does nothing.
ghost use Rattle.std.specs.Prelude.{ℕ, List, Bool};
ghost use Rattle.fol_sig.specs.Tables.{Tables};
ghost use Rattle.fol_sig.specs.Ranges.{RangesAreAlong, AlongIsInRange, RangesAppend, RangesSplit, FunctionsStayInRange};
ghost use Rattle.fol_sig.specs.Strata.{OrderHasNoCycle, FirstCycleIsOne};
ghost use Rattle.fol_sig.specs.Cycles.{CycleHasFirst};
ghost use Rattle.fol_sig.specs.Growing.{SignaturesGrow, SortsAreKept};
ghost use Rattle.fol_sig.specs.Growing.{StructuresExtend, StructuresReduce, StructuresAreExtensions};
ghost use Rattle.fol_sig.specs.Growing.{SignaturesGrowByRelations, StructuresExtendByTables};
ghost use Rattle.fol_sig.specs.Growing.{StructuresAreExtensionsByTables, ReductsCommuteWithUpdates};
ghost use Rattle.fol_sig.specs.TupleSets.{TablesAreExtensional, TablesAreTuples};
ghost use Rattle.fol_sig.specs.Tuples.{TuplesAreNumbered};
ghost use Rattle.fol_sig.specs.Updates.{UpdatesRelation, UpdatesFunction};

/// An updated symbol has the new value at each tuple, each other symbol is as before, and the updated
/// structure has the same symbols.
pub fn update_laws()
    ensures relations { (s : Tables) (r : ℕ) (f : List ℕ → Bool) → UpdatesRelation s r f }
    ensures functions { (s : Tables) (g : ℕ) (f : List ℕ → ℕ) → UpdatesFunction s g f }
{}

/// Each tuple has one number, and each number one tuple.
pub fn tuple_laws()
    ensures { TuplesAreNumbered }
{}

/// A tuple in range has an element of its sort at each place, and what a function gives is one of its sort.
pub fn range_laws()
    ensures along { RangesAreAlong }
    ensures whole { AlongIsInRange }
    ensures append { RangesAppend }
    ensures split { RangesSplit }
    ensures values { FunctionsStayInRange }
{}

/// Where there are strata no function stands on a cycle, and at most one function is the first that
/// closes one.
pub fn strata_laws()
    ensures acyclic { OrderHasNoCycle }
    ensures one { FirstCycleIsOne }
{}

/// Where no function is the first that closes a cycle, none stands on one.
pub fn cycle_law()
    ensures { CycleHasFirst }
{}

/// A signature that grows has the same orders of its sorts, and the structures of the grown one are those
/// of the signature with tables for the new symbols.
pub fn growth_laws()
    ensures signatures { SignaturesGrow }
    ensures sorts { SortsAreKept }
    ensures extend { StructuresExtend }
    ensures reduce { StructuresReduce }
    ensures all { StructuresAreExtensions }
{}

/// The same where the signature grows by relations, and its structures by their tables. A symbol's table may
/// be changed before the new symbols are left out or after.
pub fn relation_growth_laws()
    ensures signatures { SignaturesGrowByRelations }
    ensures extend { StructuresExtendByTables }
    ensures all { StructuresAreExtensionsByTables }
    ensures updates { ReductsCommuteWithUpdates }
{}

/// A relation's table is the set of the tuples of which it is true.
pub fn tuple_set_laws()
    ensures extensional { TablesAreExtensional }
    ensures tuples { TablesAreTuples }
{}
