// A path is gone back, from its end to its beginning.
ghost use Rattle.std.specs.Prelude.{◌≡◌, length, false, IfOk, IfErr, OnOk, IsTrue};
ghost use Rattle.base.specs.Because.{Because};
ghost use Rattle.fol_sig.specs.Symbols.{symbols};
ghost use Rattle.fol_subst.specs.Limits.{is_too_large};
ghost use Rattle.fol_pool.specs.Trees.{IsAt, Grows, HasForm, a_form, form_at};
ghost use Rattle.rml_command.specs.View.{primitive as primitive_view};
ghost use Rattle.rml_command.specs.Models.{FitsPrimitive, FitsPath};
ghost use Rattle.rml_command.specs.Fresh.{written, with_fresh};
ghost use Rattle.rml_wp.specs.Laws.{HasTarget};
ghost use Rattle.rml_wp.specs.Backward.{back_by};
ghost use Rattle.rml_wp.specs.declared.premises.Premises.TheVariants.{All};
ghost use Rattle.rml_wp.specs.Preconditions.{precondition_of, passes_limit, target_of, premises_of};
ghost use Rattle.pool_wp.specs.Standing.{AreNodesOf};

use crate::model_nodes::ModelNodes;
use crate::steps::step_back;
use base::{Mem, Refused};
use fol_pool::{Node, Pool, Shape};
use fol_sig::Signature;
use fol_subst::{FormulaLimit, MOST_DEPTH, MOST_NODES};
use rml_command::{About, Model, Path, Primitive};
use rml_wp::fresh_before;
use std::alloc::Global;

// The precondition of a path for what a goal is about, with its relation havocs written out as updates to the fresh
// relations of the answered signature. They are numbered forward, and the path is gone back, so their number falls.
pub fn along(
    alloc: Global,
    pool: &mut Pool,
    nodes: &ModelNodes,
    model: &Model,
    answered: &Signature,
    about: About,
    path: &Path,
) -> Result<Node, Refused<FormulaLimit>>
    requires nodes { AreNodesOf model.now pool.old nodes.now }
    requires about { HasTarget model.now about }
    requires path { FitsPath (symbols model.now.signature) path.now }
    requires answered { answered.now ≡ with_fresh model.now.signature path.now }
    ensures node { IfOk result
        (λ node. IsAt pool.new node.0
        (a_form (precondition_of (symbols model.now.signature) (premises_of All model.now.axioms)
        (target_of model.now about)
        (written (symbols model.now.signature) (length model.now.signature.relations) path.now)))) }
    ensures within { OnOk result
        (passes_limit (symbols model.now.signature) (premises_of All model.now.axioms) (target_of model.now about)
        (written (symbols model.now.signature) (length model.now.signature.relations) path.now) ≡ false) }
    ensures limit { IfErr result
        (Because (λ _. IsTrue
        (passes_limit (symbols model.now.signature) (premises_of All model.now.axioms) (target_of model.now about)
        (written (symbols model.now.signature) (length model.now.signature.relations) path.now)))) }
    ensures grows { Grows pool.old pool.new }
{
    let target = target(pool, nodes, model, about)?;
    let mut now = match within_limit(pool, target) {
        Ok(node) => node,
        Err(refused) => return Err(refused),
    };
    let mut fresh = answered.relation_count();
    let mut before = path.primitives();
    while let Some(primitive) = before.next_back() {
        fresh = fresh_before(primitive, fresh);
        now = match step_within(alloc, pool, nodes, model, primitive, fresh, now) {
            Ok(node) => node,
            Err(refused) => return Err(refused),
        };
    }
    Ok(now)
}

// The node of what a goal asks of the ends of its path.
fn target(pool: &mut Pool, nodes: &ModelNodes, model: &Model, about: About) -> Mem<Node>
    requires nodes { AreNodesOf model.now pool.old nodes.now }
    requires about { HasTarget model.now about }
    ensures node { IfOk result (λ node. IsAt pool.new node.0 (a_form (target_of model.now about))) }
    ensures grows { Grows pool.old pool.new }
{
    match about {
        About::Abort => {
            let node = pool.add(Shape::True)?;
            Ok(node)
        }
        About::Conjecture(k) => {
            let conjectures = nodes.conjectures.as_slice();
            Ok(conjectures[k as usize])
        }
    }
}

// The node, unless its formula is beyond the limit.
fn within_limit(pool: &Pool, node: Node) -> Result<Node, Refused<FormulaLimit>>
    requires { HasForm pool.now node.0 }
    ensures node { IfOk result (λ same. same ≡ node) }
    ensures within { OnOk result (is_too_large (form_at pool.now node.0) ≡ false) }
    ensures limit { IfErr result (Because (λ _. IsTrue (is_too_large (form_at pool.now node.0)))) }
{
    if pool.nodes(node) > MOST_NODES || pool.depth(node) > MOST_DEPTH {
        return Err(Refused::For(FormulaLimit));
    }
    Ok(node)
}

// What must hold before a primitive, unless it is beyond the limit.
fn step_within(
    alloc: Global,
    pool: &mut Pool,
    nodes: &ModelNodes,
    model: &Model,
    primitive: &Primitive,
    fresh: u32,
    rest: Node,
) -> Result<Node, Refused<FormulaLimit>>
    requires nodes { AreNodesOf model.now pool.old nodes.now }
    requires primitive { FitsPrimitive (symbols model.now.signature) (primitive_view primitive.now) }
    requires rest { HasForm pool.old rest.0 }
    ensures node { IfOk result
        (λ node. IsAt pool.new node.0
        (a_form (back_by (symbols model.now.signature) (symbols model.now.signature)
        (premises_of All model.now.axioms) fresh (primitive_view primitive.now) (form_at pool.old rest.0)))) }
    ensures within { OnOk result
        (is_too_large
        (back_by (symbols model.now.signature) (symbols model.now.signature)
        (premises_of All model.now.axioms) fresh (primitive_view primitive.now) (form_at pool.old rest.0))
        ≡ false) }
    ensures limit { IfErr result
        (Because (λ _. IsTrue
        (is_too_large
        (back_by (symbols model.now.signature) (symbols model.now.signature)
        (premises_of All model.now.axioms) fresh (primitive_view primitive.now) (form_at pool.old rest.0))))) }
    ensures grows { Grows pool.old pool.new }
{
    let node = step_back(alloc, pool, nodes, model, primitive, fresh, rest)?;
    let within = within_limit(pool, node)?;
    Ok(within)
}
