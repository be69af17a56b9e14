// The precondition of a goal, as a node.
ghost use Rattle.std.specs.Prelude.{◌≡◌, false, IfOk, IfErr, OnOk, IsTrue};
ghost use Rattle.base.specs.Because.{Because};
ghost use Rattle.fol_pool.specs.Trees.{IsAt, Grows, a_form};
ghost use Rattle.rml_command.specs.Goals.{IsGoal};
ghost use Rattle.rml_wp.specs.Preconditions.{answered, goal_precondition, goal_passes_limit};
ghost use Rattle.pool_wp.specs.Standing.{AreNodesOf};
ghost use Rattle.rml_wp.specs.declared.premises.Premises.TheVariants.{All};

use crate::model_nodes::ModelNodes;
use crate::path::along;
use base::Refused;
use fol_pool::{Node, Pool};
use fol_sig::Signature;
use fol_subst::FormulaLimit;
use rml_command::{Checked, Goal};
use rml_wp::answered_signature;
use std::alloc::Global;

/// The node of the precondition of a goal's path, with all axioms as premises behind each step, and the signature that
/// it is over: what `rml_wp::precondition` answers as a tree. It is refused where that of some rest of the path, the
/// empty one too, has over 1,000,000 nodes as a tree, or is over 1,000 deep. The pool needs but a node for each part
/// that differs. The walks nest as deep as the formulas.
pub fn precondition(
    alloc: Global,
    pool: &mut Pool,
    nodes: &ModelNodes,
    checked: &Checked,
    goal: &Goal,
) -> Result<(Signature, Node), Refused<FormulaLimit>>
    requires nodes { AreNodesOf checked.now pool.old nodes.now }
    requires goal { IsGoal checked.now goal.now }
    ensures signature { IfOk result (λ r. r.0 ≡ answered checked.now goal.now) }
    ensures node { IfOk result
        (λ r. IsAt pool.new r.1.0 (a_form (goal_precondition All checked.now goal.now))) }
    ensures within { OnOk result (goal_passes_limit All checked.now goal.now ≡ false) }
    ensures limit { IfErr result (Because (λ _. IsTrue (goal_passes_limit All checked.now goal.now))) }
    ensures grows { Grows pool.old pool.new }
{
    let answered = answered_signature(alloc, checked, goal)?;
    let model = checked.model();
    let path = checked.path(goal);
    match along(alloc, pool, nodes, model, &answered, goal.about, &path) {
        Ok(node) => Ok((answered, node)),
        Err(refused) => Err(refused),
    }
}
