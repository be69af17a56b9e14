//! The normal form of a formula in a pool, as a node of the pool: each node is walked once for each polarity.
#![tactic(auto)]

mod join;
mod leaf;
mod leaves;
mod normals;
mod parts;
mod plain;
mod signed;
mod walk;

ghost use Rattle.std.specs.Prelude.{IfOk, true};
ghost use Rattle.fol_nnf.specs.Normal.{normal};
ghost use Rattle.fol_pool.specs.Trees.{IsAt, Grows, HasForm, a_form, form_at};

use base::Mem;
use fol_pool::{Node, Pool};
use normals::Normals;
use std::alloc::Global;
use std::mem::replace;

/// The normal form of a formula of a pool: negations are pushed to the atoms, and `Ite` is lifted out of them. An `Ite`
/// in an atom makes one literal of each way through it; what an equivalence has twice is kept once. Err: out of memory,
/// and each node is as before.
pub fn normal(alloc: Global, pool: &mut Pool, at: Node) -> Mem<Node>
    requires { HasForm pool.old at.0 }
    ensures node { IfOk result (λ node. IsAt pool.new node.0 (a_form (normal true (form_at pool.old at.0)))) }
    ensures grows { Grows pool.old pool.new }
{
    let given = replace(pool, Pool::new(alloc));
    let mut normals = Normals::new(alloc, given);
    let made = normals.normal_node(alloc, at, true);
    *pool = normals.into_pool();
    let node = made?;
    Ok(node)
}
