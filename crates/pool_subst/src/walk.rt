// The walk of all changes by rules. It goes from a node to its parts, so it nests as deep as the formula. A row of
// formulas may be long, and is walked by a loop; one of terms, the arguments of a symbol, is walked as other nodes are.
ghost use Rattle.std.specs.Prelude.{◌≡◌, ℕ, ◌<◌, List, length, suc, IfOk, IsTrue};
ghost use Rattle.fol_subst.specs.Rules.{Rules};
ghost use Rattle.fol_pool.specs.Trees.{Tree, IsAt, Grows, HasTerms, a_form, a_term, tree_at, terms_at};
ghost use Rattle.fol_pool.specs.Shapes.{tree_of, IsOver};
ghost use Rattle.pool_subst.specs.Memos.{AreRight};
ghost use Rattle.pool_subst.specs.Walks.{tree_by, parts_by, top_by};

use crate::memo::Memo;
use base::Mem;
use fol_pool::{Node, Pool, Shape};
use fol_sig::{FunId, RelId};
use std::alloc::{AllocError, Global};

/// What an index, a relation and a function become in a pool, the last two before arguments that are changed already.
/// Rules may have nodes of their own, which stand in the pool; so what they say stays as it is where the pool grows. An
/// error is want of memory, or an index that four bytes do not hold.
pub trait NodeRules {
    ghost becomes: { Self → List Tree → Rules };

    // the rules' own nodes are in the pool
    ghost stands: { Self → List Tree → Type 0 };

    /// Whether it is known that what stands at the node stays as it is.
    fn leaves(&self, node: Node) -> bool
        ensures { (ts : List Tree) → stands self.now ts → node.0 < length ts → IsTrue result
            → (depth : ℕ) → tree_by (becomes self.now ts) depth (tree_at ts node.0) ≡ tree_at ts node.0 };

    fn index(&self, pool: &mut Pool, depth: u32, index: u32) -> Mem<Node>
        requires { stands self.now pool.old }
        ensures node { IfOk result
            (λ node. IsAt pool.new node.0 (a_term ((becomes self.now pool.old).index depth index))) }
        ensures grows { Grows pool.old pool.new };

    fn relation(&self, pool: &mut Pool, rel: RelId, args: Node) -> Mem<Node>
        requires stands { stands self.now pool.old }
        requires args { HasTerms pool.old args.0 }
        ensures node { IfOk result
            (λ node. IsAt pool.new node.0
            (a_form ((becomes self.now pool.old).relation rel.0 (terms_at pool.old args.0)))) }
        ensures grows { Grows pool.old pool.new };

    fn function(&self, pool: &mut Pool, depth: u32, fun: FunId, args: Node) -> Mem<Node>
        requires stands { stands self.now pool.old }
        requires args { HasTerms pool.old args.0 }
        ensures node { IfOk result
            (λ node. IsAt pool.new node.0
            (a_term ((becomes self.now pool.old).function depth fun.0 (terms_at pool.old args.0)))) }
        ensures grows { Grows pool.old pool.new };

    ghost stays: { (rules : Self) (old new : List Tree) → stands rules old → Grows old new
        → stands rules new × (becomes rules new ≡ becomes rules old) };
}

/// What becomes of a node that stands under so many binders. The walk nests as deep as the formula. Err: as of the
/// rules, or out of memory, and each node is as before.
pub fn changed<R: NodeRules>(
    alloc: Global,
    pool: &mut Pool,
    rules: &R,
    depth: u32,
    at: Node,
) -> Mem<Node>
    requires stands { R.stands rules.now pool.old }
    requires there { at.0 < length pool.old }
    ensures node { IfOk result
        (λ node. IsAt pool.new node.0 (tree_by (R.becomes rules.now pool.old) depth (tree_at pool.old at.0))) }
    ensures grows { Grows pool.old pool.new }
{
    let mut memo = Memo::new(alloc);
    let node = change(pool, rules, depth, at, &mut memo)?;
    Ok(node)
}

/// The same, where the node and some of its parts may be made already. What is made is kept, also before an error.
#[cycle(walk)]
pub fn change<R: NodeRules>(
    pool: &mut Pool,
    rules: &R,
    depth: u32,
    at: Node,
    memo: &mut Memo,
) -> Mem<Node>
    requires stands { R.stands rules.now pool.old }
    requires there { at.0 < length pool.old }
    requires right { AreRight (R.becomes rules.now pool.old) pool.old memo.old }
    ensures node { IfOk result
        (λ node. IsAt pool.new node.0 (tree_by (R.becomes rules.now pool.old) depth (tree_at pool.old at.0))) }
    ensures grows { Grows pool.old pool.new }
    ensures right { AreRight (R.becomes rules.now pool.old) pool.new memo.new }
{
    if rules.leaves(at) {
        return Ok(at);
    }
    if let Some(made) = memo.find(at, depth) {
        return Ok(made);
    }
    let shape = change_parts(pool, rules, depth, at, memo)?;
    let made = change_top(pool, rules, depth, shape)?;
    memo.note(at, depth, made)?;
    Ok(made)
}

// What stands at the node, with its parts changed.
#[cycle(walk)]
fn change_parts<R: NodeRules>(
    pool: &mut Pool,
    rules: &R,
    depth: u32,
    at: Node,
    memo: &mut Memo,
) -> Mem<Shape>
    requires stands { R.stands rules.now pool.old }
    requires there { at.0 < length pool.old }
    requires right { AreRight (R.becomes rules.now pool.old) pool.old memo.old }
    ensures over { IfOk result (λ shape. IsOver pool.new shape) }
    ensures tree { IfOk result
        (λ shape. tree_of pool.new shape
        ≡ parts_by (R.becomes rules.now pool.old) depth (tree_at pool.old at.0)) }
    ensures grows { Grows pool.old pool.new }
    ensures right { AreRight (R.becomes rules.now pool.old) pool.new memo.new }
{
    let shape = pool.shape(at);
    match shape {
        Shape::True | Shape::False | Shape::NoForms | Shape::Bound(_) | Shape::NoTerms => Ok(shape),
        Shape::Rel(r, args) => Ok(Shape::Rel(r, change(pool, rules, depth, args, memo)?)),
        Shape::Eq(a, b) => {
            let (a, b) = change_two(pool, rules, depth, a, b, memo)?;
            Ok(Shape::Eq(a, b))
        }
        Shape::Not(p) => Ok(Shape::Not(change(pool, rules, depth, p, memo)?)),
        Shape::And(ps) => Ok(Shape::And(change_row(pool, rules, depth, ps, memo)?)),
        Shape::Or(ps) => Ok(Shape::Or(change_row(pool, rules, depth, ps, memo)?)),
        Shape::Implies(p, q) => {
            let (p, q) = change_two(pool, rules, depth, p, q, memo)?;
            Ok(Shape::Implies(p, q))
        }
        Shape::Iff(p, q) => {
            let (p, q) = change_two(pool, rules, depth, p, q, memo)?;
            Ok(Shape::Iff(p, q))
        }
        Shape::Forall(k, p) => Ok(Shape::Forall(k, change_under(pool, rules, depth, p, memo)?)),
        Shape::Exists(k, p) => Ok(Shape::Exists(k, change_under(pool, rules, depth, p, memo)?)),
        Shape::FormThen(p, ps) => {
            let (p, ps) = change_two(pool, rules, depth, p, ps, memo)?;
            Ok(Shape::FormThen(p, ps))
        }
        Shape::App(f, args) => Ok(Shape::App(f, change(pool, rules, depth, args, memo)?)),
        Shape::Ite(p, a, b) => {
            let p = change(pool, rules, depth, p, memo)?;
            let (a, b) = change_two(pool, rules, depth, a, b, memo)?;
            Ok(Shape::Ite(p, a, b))
        }
        Shape::TermThen(t, ts) => {
            let (t, ts) = change_two(pool, rules, depth, t, ts, memo)?;
            Ok(Shape::TermThen(t, ts))
        }
    }
}

// Under one more binder.
#[cycle(walk)]
fn change_under<R: NodeRules>(
    pool: &mut Pool,
    rules: &R,
    depth: u32,
    at: Node,
    memo: &mut Memo,
) -> Mem<Node>
    requires stands { R.stands rules.now pool.old }
    requires there { at.0 < length pool.old }
    requires right { AreRight (R.becomes rules.now pool.old) pool.old memo.old }
    ensures node { IfOk result
        (λ node. IsAt pool.new node.0 (tree_by (R.becomes rules.now pool.old) (suc depth) (tree_at pool.old at.0))) }
    ensures grows { Grows pool.old pool.new }
    ensures right { AreRight (R.becomes rules.now pool.old) pool.new memo.new }
{
    let Some(inside) = depth.checked_add(1) else {
        return Err(AllocError);
    };
    let node = change(pool, rules, inside, at, memo)?;
    Ok(node)
}

// What becomes of a row of formulas. Its ends are changed from the last on, so that each finds the next one in the
// memo: a long row nests no deeper than a short one.
#[cycle(walk)]
fn change_row<R: NodeRules>(
    pool: &mut Pool,
    rules: &R,
    depth: u32,
    row: Node,
    memo: &mut Memo,
) -> Mem<Node>
    requires stands { R.stands rules.now pool.old }
    requires there { row.0 < length pool.old }
    requires right { AreRight (R.becomes rules.now pool.old) pool.old memo.old }
    ensures node { IfOk result
        (λ node. IsAt pool.new node.0 (tree_by (R.becomes rules.now pool.old) depth (tree_at pool.old row.0))) }
    ensures grows { Grows pool.old pool.new }
    ensures right { AreRight (R.becomes rules.now pool.old) pool.new memo.new }
{
    let ends = memo.unmade(pool, row, depth)?;
    for i in (0..ends.len()).rev() {
        change(pool, rules, depth, ends[i], memo)?;
    }
    let node = change(pool, rules, depth, row, memo)?;
    Ok(node)
}

// What becomes of two nodes.
#[cycle(walk)]
fn change_two<R: NodeRules>(
    pool: &mut Pool,
    rules: &R,
    depth: u32,
    first: Node,
    second: Node,
    memo: &mut Memo,
) -> Mem<(Node, Node)>
    requires stands { R.stands rules.now pool.old }
    requires first { first.0 < length pool.old }
    requires second { second.0 < length pool.old }
    requires right { AreRight (R.becomes rules.now pool.old) pool.old memo.old }
    ensures first { IfOk result
        (λ both. IsAt pool.new both.0.0 (tree_by (R.becomes rules.now pool.old) depth (tree_at pool.old first.0))) }
    ensures second { IfOk result
        (λ both. IsAt pool.new both.1.0 (tree_by (R.becomes rules.now pool.old) depth (tree_at pool.old second.0))) }
    ensures grows { Grows pool.old pool.new }
    ensures right { AreRight (R.becomes rules.now pool.old) pool.new memo.new }
{
    let one = change(pool, rules, depth, first, memo)?;
    let two = change(pool, rules, depth, second, memo)?;
    Ok((one, two))
}

// What becomes of a shape whose parts are changed already.
fn change_top<R: NodeRules>(pool: &mut Pool, rules: &R, depth: u32, shape: Shape) -> Mem<Node>
    requires stands { R.stands rules.now pool.old }
    requires over { IsOver pool.old shape }
    ensures node { IfOk result
        (λ node. IsAt pool.new node.0 (top_by (R.becomes rules.now pool.old) depth (tree_of pool.old shape))) }
    ensures grows { Grows pool.old pool.new }
{
    match shape {
        Shape::Rel(r, args) => {
            let node = rules.relation(pool, r, args)?;
            Ok(node)
        }
        Shape::Bound(i) => {
            let node = rules.index(pool, depth, i)?;
            Ok(node)
        }
        Shape::App(f, args) => {
            let node = rules.function(pool, depth, f, args)?;
            Ok(node)
        }
        other => {
            let node = pool.add(other)?;
            Ok(node)
        }
    }
}
