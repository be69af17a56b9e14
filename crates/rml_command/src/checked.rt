// A model in the fragment, with what the check of it found: the strata of its signature and the paths of its blocks.
// They are kept, since whoever decides a goal of the model wants both.
ghost use Rattle.std.specs.Prelude.{◌≡◌, ◌≤◌, [], length, map};
ghost use Rattle.std.specs.List.{AllByRecursion};
ghost use Rattle.fol_sig.specs.Symbols.{symbols};
ghost use Rattle.fol_sig.specs.Strata.{IsStrata};
ghost use Rattle.rml_command.specs.Paths.{max_paths, paths_of};
ghost use Rattle.rml_command.specs.Models.{EachBlock, FitsPath};
ghost use Rattle.rml_command.specs.Fragment.{IsInFragment, IsInModelFragment, HasFewPaths, IsChecked};
ghost use Rattle.rml_command.specs.Goals.{stage_paths, goal_path, IsGoal};

use crate::block_paths::Paths;
use crate::goal::{Goal, Stage};
use crate::laws::goal_law;
use crate::model::Model;
use crate::path::Path;
use base::Row;
use fol_sig::Strata;
use std::alloc::Global;

/// A model in the fragment, with the strata of its signature and the paths of its blocks.
#[derive(Drop)]
pub struct Checked {
    model: Model,
    strata: Strata,
    init: Paths,
    actions: Row<Paths>,
    last: Paths,
    // of an action that the model lacks
    none: Paths,
}

impl std::marker::Model for Checked {
    ghost use Rattle.std.specs.Prelude.{◌≡◌, [], map};
    ghost use Rattle.rml_command.specs.Models.{ModelTree};
    ghost use Rattle.rml_command.specs.ModelCode.{model_code};

    ghost Value = { ModelTree };

    ghost coded = { model_code };

    ghost use Rattle.fol_sig.specs.Symbols.{symbols};
    ghost use Rattle.fol_sig.specs.Strata.{IsStrata};
    ghost use Rattle.rml_command.specs.Paths.{paths_of};
    ghost use Rattle.rml_command.specs.Fragment.{IsChecked};

    ghost view = { λ c. c.model };

    ghost invariant = { λ c. IsChecked c.model
        × IsStrata (symbols c.model.signature) c.strata
        × (c.init ≡ paths_of c.model.init)
        × (c.actions ≡ map paths_of c.model.actions)
        × (c.last ≡ paths_of c.model.last)
        × (c.none ≡ []) };
}

impl Checked {
    /// A model that was found to be in the fragment, with the strata and the paths that were found in it.
    pub fn new(
        alloc: Global,
        model: Model,
        strata: Strata,
        init: Paths,
        actions: Row<Paths>,
        last: Paths,
    ) -> Checked
        requires fragment { IsInModelFragment model }
        requires strata { IsStrata (symbols model.signature) strata }
        requires few { EachBlock HasFewPaths model }
        requires init { init ≡ paths_of model.init }
        requires actions { actions ≡ map paths_of model.actions }
        requires last { last ≡ paths_of model.last }
        ensures { result ≡ model }
    {
        let _ = model.signature();
        Checked {
            model,
            strata,
            init,
            actions,
            last,
            none: Paths::none(alloc),
        }
    }

    /// The model itself.
    pub fn model(&self) -> &Model
        ensures value { result.now ≡ self.now }
        ensures checked { IsChecked self.now }
    {
        &self.model
    }

    /// The order of the sorts in which the functions of the model's signature go upward.
    pub fn strata(&self) -> &Strata
        ensures { IsStrata (symbols self.now.signature) result.now }
    {
        &self.strata
    }

    // The paths of a stage's block.
    fn block_paths(&self, stage: Stage) -> &Paths
        ensures paths { result.now ≡ stage_paths self.now stage }
        ensures checked { IsChecked self.now }
    {
        match stage {
            Stage::Init => &self.init,
            Stage::Action(action) => match self.actions.as_slice().get(action as usize) {
                Some(paths) => paths,
                None => &self.none,
            },
            Stage::Final => &self.last,
        }
    }

    /// The paths of a stage's block, in order, of which there are few. An action that the model lacks has none.
    pub fn stage_paths(&self, stage: Stage) -> &Paths
        ensures paths { result.now ≡ stage_paths self.now stage }
        ensures few { length result.now ≤ max_paths }
        ensures checked { IsChecked self.now }
    {
        self.block_paths(stage)
    }

    /// The path of a goal of this model.
    pub fn path(&self, goal: &Goal) -> Path<'_>
        requires { IsGoal self.now goal.now }
        ensures path { goal_path self.now goal.now ≡ Some result }
        ensures fits { FitsPath (symbols self.now.signature) result }
        ensures fragment { AllByRecursion IsInFragment result }
    {
        goal_law();
        let paths = self.stage_paths(goal.stage);
        paths.path(goal.path as usize - 1)
    }
}
