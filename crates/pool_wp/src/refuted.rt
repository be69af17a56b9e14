// The refuting sentence of a goal, as a node.
ghost use Rattle.std.specs.Prelude.{◌≡◌, [], false, IfOk, IfErr, OnOk, IsTrue};
ghost use Rattle.base.specs.Because.{Because};
ghost use Rattle.fol_formula.specs.Syntax.{negation, conjunction, form_then, no_forms};
ghost use Rattle.fol_pool.specs.Trees.{IsAt, Grows, HasForm, HasForms, a_form, some_forms, form_at, forms_at};
ghost use Rattle.rml_command.specs.Goals.{IsGoal};
ghost use Rattle.rml_wp.specs.Preconditions.{answered, goal_passes_limit};
ghost use Rattle.rml_wp.specs.Added.{refuting_where};
ghost use Rattle.pool_wp.specs.Standing.{AreNodesOf, held_row};
ghost use Rattle.rml_wp.specs.declared.premises.Premises.TheVariants.{All};

use crate::goal::precondition;
use crate::model_nodes::ModelNodes;
use base::{Mem, Refused};
use fol_pool::{Node, Pool, Shape};
use fol_sig::Signature;
use fol_subst::FormulaLimit;
use rml_command::{Checked, Goal, Stage};
use std::alloc::Global;

/// The node of the sentence that a structure satisfies exactly where the goal has a counterexample from it, and the
/// signature that it is over. It is refused where the precondition is.
pub fn refuting(
    alloc: Global,
    pool: &mut Pool,
    nodes: &ModelNodes,
    checked: &Checked,
    goal: &Goal,
) -> Result<(Signature, Node), Refused<FormulaLimit>>
    requires nodes { AreNodesOf checked.now pool.old nodes.now }
    requires goal { IsGoal checked.now goal.now }
    ensures signature { IfOk result (λ r. r.0 ≡ answered checked.now goal.now) }
    ensures node { IfOk result
        (λ r. IsAt pool.new r.1.0 (a_form (refuting_where All checked.now checked.now.conjectures [] goal.now))) }
    ensures within { OnOk result (goal_passes_limit All checked.now goal.now ≡ false) }
    ensures limit { IfErr result (Because (λ _. IsTrue (goal_passes_limit All checked.now goal.now))) }
    ensures grows { Grows pool.old pool.new }
{
    let (answered, precondition) = precondition(alloc, pool, nodes, checked, goal)?;
    let refuted = alone(pool, precondition)?;
    let allowed = with_held(pool, nodes.held, goal.stage, refuted)?;
    let sentence = with_lawful(pool, nodes.lawful, allowed)?;
    Ok((answered, sentence))
}

// The row of a precondition's negation alone.
fn alone(pool: &mut Pool, precondition: Node) -> Mem<Node>
    requires { HasForm pool.old precondition.0 }
    ensures node { IfOk result
        (λ node. IsAt pool.new node.0
        (some_forms (form_then (negation (form_at pool.old precondition.0)) no_forms))) }
    ensures grows { Grows pool.old pool.new }
{
    let refuted = pool.add(Shape::Not(precondition))?;
    let end = pool.add(Shape::NoForms)?;
    let node = pool.add(Shape::FormThen(refuted, end))?;
    Ok(node)
}

// What holds before a stage beside the axioms, in front of a row: before init there is nothing.
fn with_held(pool: &mut Pool, held: Node, stage: Stage, row: Node) -> Mem<Node>
    requires held { HasForm pool.old held.0 }
    requires row { HasForms pool.old row.0 }
    ensures node { IfOk result
        (λ node. IsAt pool.new node.0
        (some_forms (held_row stage (form_at pool.old held.0) (forms_at pool.old row.0)))) }
    ensures grows { Grows pool.old pool.new }
{
    match stage {
        Stage::Init => Ok(row),
        Stage::Action(_) | Stage::Final => {
            let node = pool.add(Shape::FormThen(held, row))?;
            Ok(node)
        }
    }
}

// The And of the axioms and a row.
fn with_lawful(pool: &mut Pool, lawful: Node, row: Node) -> Mem<Node>
    requires lawful { HasForm pool.old lawful.0 }
    requires row { HasForms pool.old row.0 }
    ensures node { IfOk result
        (λ node. IsAt pool.new node.0
        (a_form (conjunction (form_then (form_at pool.old lawful.0) (forms_at pool.old row.0))))) }
    ensures grows { Grows pool.old pool.new }
{
    let parts = pool.add(Shape::FormThen(lawful, row))?;
    let node = pool.add(Shape::And(parts))?;
    Ok(node)
}
