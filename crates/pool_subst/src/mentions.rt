// Where the symbol that is replaced occurs: at each node that is read off its parts, which have smaller numbers.
ghost use Rattle.std.specs.Prelude.{◌≡◌, ◌+◌, ◌<◌, ◌||◌, length, IfOk};
ghost use Rattle.fol_occurs.specs.Occurs.{is_relation, is_function};
ghost use Rattle.fol_pool.specs.Trees.{tree_at};
ghost use Rattle.fol_pool.specs.Shapes.{tree_of, IsOver, PartsAreBelow};
ghost use Rattle.pool_subst.specs.Mentions.{replaced, tree_mentions, TellsOf};

use crate::replacement::Replacement;
use base::Mem;
use fol_pool::{Node, Pool, Shape};
use fol_sig::{FunId, RelId};
use std::alloc::Global;

// For this node and each one before it, whether the symbol that is replaced occurs there.
pub fn mentioned(alloc: Global, pool: &Pool, change: Replacement, at: Node) -> Mem<Vec<bool>>
    requires { at.0 < length pool.now }
    ensures whole { IfOk result (λ table. length table.items ≡ at.0 + 1) }
    ensures tells { IfOk result (λ table. TellsOf (replaced change) pool.now table.items) }
{
    let mut table = Vec::with_capacity(alloc, at.0 as usize + 1)?;
    for i in 0..at.0 {
        let occurs = occurs_at(pool, &table, change, Node(i));
        table.push(occurs)?;
    }
    let occurs = occurs_at(pool, &table, change, at);
    table.push(occurs)?;
    Ok(table)
}

// Whether it occurs at a node, where the table has each node before it.
fn occurs_at(pool: &Pool, table: &[bool], change: Replacement, node: Node) -> bool
    requires there { node.0 < length pool.now }
    requires before { length table.now ≡ node.0 }
    requires tells { TellsOf (replaced change) pool.now table.now }
    ensures { result ≡ tree_mentions (replaced change) (tree_at pool.now node.0) }
{
    let shape = pool.shape(node);
    occurs_in(pool, table, change, shape)
}

// Whether it occurs in what a shape stands for, where the table has its parts.
fn occurs_in(pool: &Pool, table: &[bool], change: Replacement, shape: Shape) -> bool
    requires over { IsOver pool.now shape }
    requires below { PartsAreBelow (length table.now) shape }
    requires tells { TellsOf (replaced change) pool.now table.now }
    ensures { result ≡ tree_mentions (replaced change) (tree_of pool.now shape) }
{
    match shape {
        Shape::True | Shape::False | Shape::NoForms | Shape::Bound(_) | Shape::NoTerms => false,
        Shape::Rel(r, args) => is_rel(change, r) || told(pool, table, change, args),
        Shape::App(f, args) => is_fun(change, f) || told(pool, table, change, args),
        Shape::Not(p) | Shape::Forall(_, p) | Shape::Exists(_, p) => told(pool, table, change, p),
        Shape::And(ps) | Shape::Or(ps) => told(pool, table, change, ps),
        Shape::Eq(a, b) => told_of_two(pool, table, change, a, b),
        Shape::Implies(p, q) | Shape::Iff(p, q) => told_of_two(pool, table, change, p, q),
        Shape::FormThen(p, ps) => told_of_two(pool, table, change, p, ps),
        Shape::TermThen(t, ts) => told_of_two(pool, table, change, t, ts),
        Shape::Ite(p, a, b) => {
            told(pool, table, change, p) || told_of_two(pool, table, change, a, b)
        }
    }
}

// What the table says of a node.
fn told(pool: &Pool, table: &[bool], change: Replacement, node: Node) -> bool
    requires below { node.0 < length table.now }
    requires tells { TellsOf (replaced change) pool.now table.now }
    ensures { result ≡ tree_mentions (replaced change) (tree_at pool.now node.0) }
{
    table[node.0 as usize]
}

// Whether the table says of one of two nodes that the symbol occurs there.
fn told_of_two(pool: &Pool, table: &[bool], change: Replacement, a: Node, b: Node) -> bool
    requires first { a.0 < length table.now }
    requires second { b.0 < length table.now }
    requires tells { TellsOf (replaced change) pool.now table.now }
    ensures { result ≡ (tree_mentions (replaced change) (tree_at pool.now a.0)
        || tree_mentions (replaced change) (tree_at pool.now b.0)) }
{
    told(pool, table, change, a) || told(pool, table, change, b)
}

// Whether this relation is what is replaced.
fn is_rel(change: Replacement, rel: RelId) -> bool
    ensures { result ≡ is_relation (replaced change) rel.0 }
{
    match change {
        Replacement::Rel(replaced, _) => replaced.0 == rel.0,
        _ => false,
    }
}

// Whether this function is what is replaced.
fn is_fun(change: Replacement, fun: FunId) -> bool
    ensures { result ≡ is_function (replaced change) fun.0 }
{
    match change {
        Replacement::Fun(replaced, _) | Replacement::Const(replaced, _) => replaced.0 == fun.0,
        Replacement::Rel(..) => false,
    }
}
