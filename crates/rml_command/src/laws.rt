// What follows from the definitions alone. Each function is its contract, and does nothing.
ghost use Rattle.rml_command.specs.Laws.{
  BlockHasPathOutcomes,
  PathHasFollowedOutcomes,
  PathsKeepKind,
  PathsEndAtAbort,
  ListsReadFromTheLeft,
  UpdatesKeepSymbols,
  FalsehoodHasValues,
  GoalsAreListed,
  GroupsAreKnown,
  GoalPathsFit,
  InductionIsSound,
  SafeByGoals,
  InductiveInvariantsHold,
  InductiveSetsHold,
};
ghost use Rattle.rml_command.specs.Elements.{TracesAreElements};
ghost use Rattle.rml_command.specs.Fresh.{FreshTablesAreFollowed, WrittenPathsFit, FreshSignaturesGrow};

/// The outcomes of a block are those of its paths.
pub fn block_law()
    ensures { BlockHasPathOutcomes }
{}

/// The outcomes of a path are those of following it with some elements and tuples, one entry for each
/// havoc; where no relation is havocked, of elements alone. It aborts only where it has an abort, and ends
/// only where it has none. A path of a block has nothing behind an abort.
pub fn path_law()
    ensures followed { PathHasFollowedOutcomes }
    ensures kind { PathsKeepKind }
    ensures last { PathsEndAtAbort }
    ensures elements { TracesAreElements }
{
    fol_sig::tuple_set_laws();
}

/// A longer sequence or choice is the binary one of the list before its last member, and that member.
pub fn list_law()
    ensures { ListsReadFromTheLeft }
{}

/// An update or a havoc leads from a structure of the signature to another.
pub fn update_law()
    ensures { UpdatesKeepSymbols }
{
    fol_sig::update_laws();
    fol_formula::agreement();
}

/// The havoc of a relation may be written out as an update to a fresh relation: the outcomes under the
/// tables of the fresh relations are those of the path that is written out, which has the symbols of the
/// signature with the fresh relations.
pub fn fresh_law()
    ensures followed { FreshTablesAreFollowed }
    ensures written { WrittenPathsFit }
    ensures signatures { FreshSignaturesGrow }
{
    fol_sig::growth_laws();
    fol_sig::relation_growth_laws();
    fol_sig::tuple_set_laws();
    fol_sig::range_laws();
    fol_formula::growth();
    update_law();
}

/// A sentence is false exactly where some values for its leading quantifiers make its body false.
pub fn value_law()
    ensures { FalsehoodHasValues }
{}

/// The goals in the ordered list are the goals of the model, and its groups are of its blocks and conjectures. Paths of
/// goals have only symbols of the signature, and are in the fragment where the model is checked.
pub fn goal_law()
    ensures groups { GroupsAreKnown }
    ensures listed { GoalsAreListed }
    ensures fit { GoalPathsFit }
{}

/// Where no goal of any group has a counterexample, no run aborts or breaks a conjecture.
pub fn run_law()
    ensures { InductionIsSound }
{
    update_law();
    fol_sig::tuple_set_laws();
}

/// Goals may be decided one by one: where the goal of each number has no counterexample, no run aborts or breaks a
/// conjecture.
pub fn each_goal_law()
    ensures { SafeByGoals }
{
    run_law();
}

/// An inductive invariant is true at each end of init and of an action of every run, whether or not something aborts.
pub fn invariant_law()
    ensures { InductiveInvariantsHold }
{
    update_law();
}

/// The conjectures of an inductive set are true at each end of init and of an action of every run.
pub fn inductive_law()
    ensures { InductiveSetsHold }
{
    invariant_law();
}
