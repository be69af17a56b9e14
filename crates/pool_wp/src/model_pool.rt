// The pool of a model.
ghost use Rattle.std.specs.Prelude.{◌≡◌, [], false, take, IfOk, IfErr, OnOk, IsTrue};
ghost use Rattle.base.specs.Because.{Because};
ghost use Rattle.fol_sig.specs.Symbols.{symbols};
ghost use Rattle.fol_sig.specs.Strata.{IsStrata};
ghost use Rattle.fol_formula.specs.Fits.{FitsForm};
ghost use Rattle.fol_formula.specs.Fragments.{IsEa};
ghost use Rattle.fol_pool.specs.Trees.{IsAt, HasForm, a_form, form_at};
ghost use Rattle.rml_command.specs.Models.{ModelTree};
ghost use Rattle.rml_command.specs.Goals.{IsGoal};
ghost use Rattle.rml_wp.specs.Preconditions.{answered, goal_passes_limit};
ghost use Rattle.rml_wp.specs.Added.{refuting_where};
ghost use Rattle.ground_size.specs.Found.{IsGroundSize};
ghost use Rattle.pool_wp.specs.Sharing.{IsPoolOf};
ghost use Rattle.rml_wp.specs.declared.premises.Premises.TheVariants.{All};

use crate::model_nodes::ModelNodes;
use crate::refuted::refuting;
use base::{Mem, Refused};
use fol_pool::{Node, Pool};
use fol_sig::{Signature, Strata};
use fol_subst::FormulaLimit;
use ground_size::GroundSize;
use pool_size::Room;
use rml_command::{Checked, Goal, Model};
use std::alloc::Global;

/// A pool with the axioms and the conjectures of a model, which are taken in once. The sentence of each of its goals is
/// made of them, counted, and forgotten before the next: so the pool is never larger than for one goal, of the next
/// goal only what differs is made, and room to count in is taken once.
#[derive(Drop)]
pub struct ModelPool {
    pool: Pool,
    nodes: ModelNodes,
    // How many nodes are the model's.
    own: usize,
    room: Room,
}

impl ModelPool {
    /// Takes the sentences of a model in. Err: out of memory.
    pub fn new(alloc: Global, model: &Model) -> Mem<ModelPool>
        ensures { IfOk result (λ shared. IsPoolOf model.now shared) }
    {
        let mut pool = Pool::new(alloc);
        let nodes = ModelNodes::new(alloc, &mut pool, model)?;
        let own = pool.len();
        Ok(ModelPool {
            pool,
            nodes,
            own,
            room: Room::new(alloc),
        })
    }

    /// The model's nodes, and behind them those made since they were alone.
    pub fn pool(&self) -> &Pool
        ensures { result.now ≡ self.now.pool }
    {
        &self.pool
    }

    /// The node of the sentence that a structure satisfies exactly where the goal has a counterexample from it, with
    /// all axioms as premises behind each step, and the signature that it is over. It is refused where the precondition
    /// is.
    pub fn refuting(
        &mut self,
        alloc: Global,
        checked: &Checked,
        goal: &Goal,
    ) -> Result<(Signature, Node), Refused<FormulaLimit>>
        requires shared { IsPoolOf checked.now self.old }
        requires goal { IsGoal checked.now goal.now }
        ensures signature { IfOk result (λ r. r.0 ≡ answered checked.now goal.now) }
        ensures node { IfOk result
            (λ r. IsAt self.new.pool r.1.0
            (a_form (refuting_where All checked.now checked.now.conjectures [] goal.now))) }
        ensures within { OnOk result (goal_passes_limit All checked.now goal.now ≡ false) }
        ensures limit { IfErr result (Because (λ _. IsTrue (goal_passes_limit All checked.now goal.now))) }
        ensures shared { IsPoolOf checked.now self.new }
    {
        refuting(alloc, &mut self.pool, &self.nodes, checked, goal)
    }

    /// How large the ground formulas of the sentence at a node are. Err: out of memory.
    pub fn ground_size(
        &mut self,
        alloc: Global,
        signature: &Signature,
        strata: &Strata,
        sentence: Node,
    ) -> Mem<GroundSize>
        requires strata { IsStrata (symbols signature.now) strata.now }
        requires sentence { HasForm self.old.pool sentence.0 }
        requires fragment { IsEa (form_at self.old.pool sentence.0) }
        requires fits { FitsForm (symbols signature.now) [] (form_at self.old.pool sentence.0) }
        ensures size { IfOk result (IsGroundSize signature.now (form_at self.old.pool sentence.0)) }
        ensures pool { self.new.pool ≡ self.old.pool }
        ensures shared { (m : ModelTree) → IsPoolOf m self.old → IsPoolOf m self.new }
    {
        let pool = &self.pool;
        let room = &mut self.room;
        let size = pool_size::ground_size(alloc, signature, strata, pool, sentence, room)?;
        Ok(size)
    }

    /// Forgets what was made of the model's sentences.
    pub fn forget(&mut self)
        ensures forgotten { self.new.pool ≡ take self.old.own self.old.pool }
        ensures shared { (m : ModelTree) → IsPoolOf m self.old → IsPoolOf m self.new }
    {
        self.pool.truncate(self.own);
    }
}
