// What is remembered from round to round: the conjectures by which groups were kept. A group is not decided again while
// these are held.
ghost use Rattle.std.specs.Prelude.{◌≡◌, ◌<◌, ℕ, List, true, Some, IfOk, IfSome};
ghost use Rattle.std.specs.List.{AllByRecursion};
ghost use Rattle.base.specs.Lists.{SomeOf};
ghost use Rattle.rml_command.specs.Models.{ModelTree};
ghost use Rattle.rml_command.specs.Goals.{group_goals};
ghost use Rattle.limits.specs.Ceilings.{Ceilings};
ghost use Rattle.lean_decide.specs.declared.settling.Counted.{Counted};
ghost use Rattle.lean_decide.specs.declared.settling.Counted.TheVariants.{Whole};
ghost use Rattle.rml_command.specs.InductiveSets.{IsWithin};
ghost use Rattle.rml_houdini.specs.Rounds.{group_at, IsSafe};
ghost use Rattle.rml_houdini.specs.Keeping.{IsKept, AreKept, KeptStaysKept};

use crate::assumed::Assumed;
use crate::sets::{are_within, common};
use base::Mem;
use rml_command::{About, Checked, Stage};
use std::alloc::Global;

/// What kept the group about a conjecture behind a stage.
#[derive(Drop)]
pub struct Kept {
    pub stage: Stage,
    pub conjecture: u32,
    pub by: Assumed,
}

/// The groups that were kept, stage by stage, and the conjectures of each in order.
#[derive(Drop)]
pub struct Known {
    /// How many conjectures the model has.
    pub conjectures: usize,
    pub groups: Vec<Option<Kept>>,
}

/// What is known of groups stays so where one conjecture less is held.
pub fn keeping_law()
    ensures { KeptStaysKept }
{
    rml_wp::sentence_law();
    fol_nnf::exactness();
}

impl Known {
    /// Room for the groups of a model, of which nothing is known.
    pub fn nothing(alloc: Global, checked: &Checked) -> Mem<Known>
        ensures { IfOk result (λ known. (counted : Counted) (limits : Ceilings) (m : ModelTree) (held : List ℕ)
            → AreKept counted limits m held known.groups.items) }
    {
        let model = checked.model();
        let conjectures = model.conjectures().len();
        let stages = model.actions().len().saturating_add(1);
        let mut groups = Vec::new(alloc);
        for _ in 0..stages.saturating_mul(conjectures) {
            groups.push(None)?;
        }
        Ok(Known {
            conjectures,
            groups,
        })
    }

    // Where a group stands. What is found there is compared with the group, so nothing rests on this.
    fn place(&self, stage: Stage, conjecture: u32) -> usize {
        let row = match stage {
            Stage::Init => 0,
            Stage::Action(action) => (action as usize).saturating_add(1),
            Stage::Final => usize::MAX,
        };
        row.saturating_mul(self.conjectures)
            .saturating_add(conjecture as usize)
    }

    // What kept a group, where something did.
    fn find(&self, stage: Stage, conjecture: u32) -> Option<&Kept>
        ensures { IfSome result (λ kept. (kept.now.stage ≡ stage) × (kept.now.conjecture ≡ conjecture)
            × SomeOf (λ g. g ≡ Some kept.now) self.now.groups.items) }
    {
        let place = self.place(stage, conjecture);
        if place >= self.groups.len() {
            return None;
        }
        match &self.groups[place] {
            None => None,
            Some(kept) => {
                if kept.stage == stage && kept.conjecture == conjecture {
                    Some(kept)
                } else {
                    None
                }
            }
        }
    }

    /// Whether a group was kept by conjectures that are all held now.
    pub fn keeps(&self, stage: Stage, conjecture: u32, held: &[u32]) -> bool
        ensures { (limits : Ceilings) (m : ModelTree) → result ≡ true
            → AreKept Whole limits m held.now self.now.groups.items
            → AllByRecursion (IsSafe Whole limits m held.now) (group_goals m (group_at stage conjecture)) }
    {
        match self.find(stage, conjecture) {
            None => false,
            Some(kept) => are_within(&kept.by.held, held),
        }
    }

    /// What is assumed at first where a group is decided: what kept it before, as far as that is held, or its own
    /// conjecture.
    pub fn first_assumed(
        &self,
        alloc: Global,
        stage: Stage,
        conjecture: u32,
        held: &[u32],
    ) -> Mem<Assumed>
        ensures { IfOk result (λ assumed. IsWithin assumed.held.items held.now) }
    {
        match self.find(stage, conjecture) {
            None => {
                let assumed = own_assumed(alloc, About::Conjecture(conjecture), held)?;
                Ok(assumed)
            }
            Some(kept) => {
                let lawful = kept.by.lawful;
                let held = common(alloc, &kept.by.held, held)?;
                Ok(Assumed { lawful, held })
            }
        }
    }

    /// Remembers what kept a group.
    pub fn keep(&mut self, stage: Stage, conjecture: u32, by: Assumed)
        ensures { (limits : Ceilings) (m : ModelTree) (held : List ℕ)
            → AreKept Whole limits m held self.old.groups.items
            → IsKept limits m held stage conjecture by.held.items → AreKept Whole limits m held self.new.groups.items }
    {
        let place = self.place(stage, conjecture);
        if place >= self.groups.len() {
            return;
        }
        self.groups[place] = Some(Kept {
            stage,
            conjecture,
            by,
        });
    }
}

/// What is assumed at first: the conjecture itself, if it is held. The axioms are not.
pub fn own_assumed(alloc: Global, about: About, held: &[u32]) -> Mem<Assumed>
    ensures { IfOk result (λ assumed. IsWithin assumed.held.items held.now) }
{
    match about {
        About::Abort => Ok(Assumed {
            lawful: false,
            held: Vec::new(alloc),
        }),
        About::Conjecture(conjecture) => {
            let held = common(alloc, &[conjecture], held)?;
            Ok(Assumed {
                lawful: false,
                held,
            })
        }
    }
}
