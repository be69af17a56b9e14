// What must hold before one primitive, by what must hold behind it. Behind a change the axioms are a premise: the node
// of all of them together.
ghost use Rattle.std.specs.Prelude.{IfOk};
ghost use Rattle.fol_sig.specs.Symbols.{symbols};
ghost use Rattle.fol_formula.specs.View.{form, term};
ghost use Rattle.fol_formula.specs.Syntax.{implication, for_all};
ghost use Rattle.fol_subst.specs.Replace.{change_rel, change_fun, change_const, changed_form};
ghost use Rattle.fol_pool.specs.Trees.{IsAt, Grows, HasForm, a_form, form_at};
ghost use Rattle.pool_subst.specs.Replacements.{HasReplacement, change_in};
ghost use Rattle.rml_command.specs.View.{primitive as primitive_view};
ghost use Rattle.rml_command.specs.Models.{FitsPrimitive};
ghost use Rattle.rml_wp.specs.declared.premises.Premises.TheVariants.{All};
ghost use Rattle.rml_wp.specs.Backward.{back_by};
ghost use Rattle.rml_wp.specs.Preconditions.{premises_of};
ghost use Rattle.pool_wp.specs.Standing.{AreNodesOf};

use crate::model_nodes::ModelNodes;
use base::Mem;
use fol_formula::{Formula, Term};
use fol_pool::{Node, Pool, Shape};
use fol_sig::{FunId, RelId, Sort};
use pool_subst::{Replacement, replace};
use rml_command::{Model, Primitive};
use rml_wp::at_parameters;
use std::alloc::Global;

// What must hold before a primitive; a relation havoc is an update to the fresh relation of this number.
pub fn step_back(
    alloc: Global,
    pool: &mut Pool,
    nodes: &ModelNodes,
    model: &Model,
    primitive: &Primitive,
    fresh: u32,
    rest: Node,
) -> Mem<Node>
    requires nodes { AreNodesOf model.now pool.old nodes.now }
    requires primitive { FitsPrimitive (symbols model.now.signature) (primitive_view primitive.now) }
    requires rest { HasForm pool.old rest.0 }
    ensures node { IfOk result
        (λ node. IsAt pool.new node.0
        (a_form (back_by (symbols model.now.signature) (symbols model.now.signature)
        (premises_of All model.now.axioms) fresh (primitive_view primitive.now) (form_at pool.old rest.0)))) }
    ensures grows { Grows pool.old pool.new }
{
    let lawful = nodes.lawful;
    match primitive {
        Primitive::Assume(sentence) => before_assume(pool, sentence.formula(), rest),
        Primitive::SetRel(rel, by) => before_set_rel(alloc, pool, lawful, *rel, by, rest),
        Primitive::SetFun(fun, by) => before_set_fun(alloc, pool, lawful, *fun, by, rest),
        Primitive::Havoc(variable) => {
            let sort = model.signature().into_of(*variable);
            before_havoc(alloc, pool, lawful, *variable, sort, rest)
        }
        Primitive::HavocRel(rel) => {
            let count = model.signature().sorts_of(*rel).len() as u32;
            let by = at_parameters(alloc, RelId(fresh), count)?;
            before_set_rel(alloc, pool, lawful, *rel, &by, rest)
        }
        Primitive::Abort => pool.add(Shape::False),
    }
}

fn before_assume(pool: &mut Pool, assumed: &Formula, rest: Node) -> Mem<Node>
    requires rest { HasForm pool.old rest.0 }
    ensures node { IfOk result
        (λ node. IsAt pool.new node.0 (a_form (implication (form assumed.now) (form_at pool.old rest.0)))) }
    ensures grows { Grows pool.old pool.new }
{
    let premise = pool.take_in(assumed)?;
    let node = pool.add(Shape::Implies(premise, rest))?;
    Ok(node)
}

fn before_set_rel(
    alloc: Global,
    pool: &mut Pool,
    lawful: Node,
    rel: RelId,
    by: &Formula,
    rest: Node,
) -> Mem<Node>
    requires lawful { HasForm pool.old lawful.0 }
    requires rest { HasForm pool.old rest.0 }
    ensures node { IfOk result
        (λ node. IsAt pool.new node.0
        (a_form (changed_form (change_rel rel.0 (form by.now)) 0
        (implication (form_at pool.old lawful.0) (form_at pool.old rest.0))))) }
    ensures grows { Grows pool.old pool.new }
{
    let by = pool.take_in(by)?;
    let change = Replacement::Rel(rel, by);
    let node = before_change(alloc, pool, lawful, change, rest)?;
    Ok(node)
}

fn before_set_fun(
    alloc: Global,
    pool: &mut Pool,
    lawful: Node,
    fun: FunId,
    by: &Term,
    rest: Node,
) -> Mem<Node>
    requires lawful { HasForm pool.old lawful.0 }
    requires rest { HasForm pool.old rest.0 }
    ensures node { IfOk result
        (λ node. IsAt pool.new node.0
        (a_form (changed_form (change_fun fun.0 (term by.now)) 0
        (implication (form_at pool.old lawful.0) (form_at pool.old rest.0))))) }
    ensures grows { Grows pool.old pool.new }
{
    let by = pool.take_term(by)?;
    let change = Replacement::Fun(fun, by);
    let node = before_change(alloc, pool, lawful, change, rest)?;
    Ok(node)
}

// A variable may become any element of its sort.
fn before_havoc(
    alloc: Global,
    pool: &mut Pool,
    lawful: Node,
    variable: FunId,
    sort: Sort,
    rest: Node,
) -> Mem<Node>
    requires lawful { HasForm pool.old lawful.0 }
    requires rest { HasForm pool.old rest.0 }
    ensures node { IfOk result
        (λ node. IsAt pool.new node.0
        (a_form (for_all sort.0 (changed_form (change_const variable.0 0) 0
        (implication (form_at pool.old lawful.0) (form_at pool.old rest.0)))))) }
    ensures grows { Grows pool.old pool.new }
{
    let change = Replacement::Const(variable, 0);
    let inside = before_change(alloc, pool, lawful, change, rest)?;
    let node = pool.add(Shape::Forall(sort, inside))?;
    Ok(node)
}

// Before a change of a symbol: only where the structure behind it satisfies the axioms.
fn before_change(
    alloc: Global,
    pool: &mut Pool,
    lawful: Node,
    change: Replacement,
    rest: Node,
) -> Mem<Node>
    requires lawful { HasForm pool.old lawful.0 }
    requires change { HasReplacement pool.old change }
    requires rest { HasForm pool.old rest.0 }
    ensures node { IfOk result
        (λ node. IsAt pool.new node.0
        (a_form (changed_form (change_in pool.old change) 0
        (implication (form_at pool.old lawful.0) (form_at pool.old rest.0))))) }
    ensures grows { Grows pool.old pool.new }
{
    let within = pool.add(Shape::Implies(lawful, rest))?;
    let node = replace(alloc, pool, within, change)?;
    Ok(node)
}
