// What is replaced, and by what, and the rules of that. Where the symbol stands, what replaces it is made with the
// arguments put in, by a walk of its own.
ghost use Rattle.std.specs.Prelude.{◌≡◌, ◌<◌, IfOk, length, reverse};
ghost use Rattle.fol_formula.specs.Syntax.{list_of};
ghost use Rattle.fol_subst.specs.Replace.{changing, putting};
ghost use Rattle.fol_pool.specs.Trees.{IsAt, Grows, HasTerms, terms_at, tree_at};
ghost use Rattle.pool_subst.specs.Nodes.{HaveTerms, terms_of};
ghost use Rattle.pool_subst.specs.Mentions.{HasReplacing, replacing_stays};
ghost use Rattle.pool_subst.specs.Replacements.{change_in};
ghost use Rattle.pool_subst.specs.Walks.{tree_by};

use crate::indices::Put;
use crate::walk::{NodeRules, changed};
use base::Mem;
use fol_pool::{Node, Pool, Shape};
use fol_sig::{FunId, RelId};
use std::alloc::{AllocError, Global};

/// What is replaced, and by what: a relation by the formula at a node, a function by the term there, or a variable by
/// the index that has this number outside. In the formula and the term the last parameter has the index 0.
#[derive(Clone, Copy)]
pub enum Replacement {
    Rel(RelId, Node),
    Fun(FunId, Node),
    Const(FunId, u32),
}

// The rules of a replacement, with a table of where its symbol occurs.
#[derive(Clone, Copy)]
pub struct Replacing<'a> {
    pub alloc: Global,
    pub change: Replacement,
    pub mentioned: &'a [bool],
}

impl<'a> NodeRules for Replacing<'a> {
    ghost becomes = { λ r ts. changing (change_in ts r.change) };

    ghost stands = { λ r ts. HasReplacing ts r.change r.mentioned.now };

    ghost stays = { λ r. replacing_stays r.change r.mentioned.now };

    fn leaves(&self, node: Node) -> bool {
        let place = node.0 as usize;
        place < self.mentioned.len() && !self.mentioned[place]
    }

    fn index(&self, pool: &mut Pool, _depth: u32, index: u32) -> Mem<Node> {
        let node = pool.add(Shape::Bound(index))?;
        Ok(node)
    }

    fn relation(&self, pool: &mut Pool, rel: RelId, args: Node) -> Mem<Node> {
        if let Replacement::Rel(replaced, by) = self.change {
            if rel.0 == replaced.0 {
                let node = instance(self.alloc, pool, by, args)?;
                return Ok(node);
            }
        }
        let node = pool.add(Shape::Rel(rel, args))?;
        Ok(node)
    }

    fn function(&self, pool: &mut Pool, depth: u32, fun: FunId, args: Node) -> Mem<Node> {
        match self.change {
            Replacement::Fun(replaced, by) if fun.0 == replaced.0 => {
                let node = instance(self.alloc, pool, by, args)?;
                Ok(node)
            }
            Replacement::Const(replaced, index) if fun.0 == replaced.0 => {
                let Some(outside) = depth.checked_add(index) else {
                    return Err(AllocError);
                };
                let node = pool.add(Shape::Bound(outside))?;
                Ok(node)
            }
            _ => {
                let node = pool.add(Shape::App(fun, args))?;
                Ok(node)
            }
        }
    }
}

// What stands at a node, with the arguments of a row in the place of its parameters.
fn instance(alloc: Global, pool: &mut Pool, body: Node, args: Node) -> Mem<Node>
    requires there { body.0 < length pool.old }
    requires args { HasTerms pool.old args.0 }
    ensures node { IfOk result
        (λ node. IsAt pool.new node.0
        (tree_by (putting (reverse (list_of (terms_at pool.old args.0)))) 0 (tree_at pool.old body.0))) }
    ensures grows { Grows pool.old pool.new }
{
    let mut nodes = row_nodes(alloc, pool, args)?;
    nodes.reverse();
    let put = Put {
        alloc,
        args: &nodes,
    };
    let node = changed(alloc, pool, &put, 0, body)?;
    Ok(node)
}

// The nodes of a row of terms.
fn row_nodes(alloc: Global, pool: &Pool, row: Node) -> Mem<Vec<Node>>
    requires { HasTerms pool.now row.0 }
    ensures stand { IfOk result (λ nodes. HaveTerms pool.now nodes.items) }
    ensures terms { IfOk result (λ nodes. terms_of pool.now nodes.items ≡ list_of (terms_at pool.now row.0)) }
{
    let mut nodes = Vec::new(alloc);
    let mut rest = row;
    while let Shape::TermThen(first, after) = pool.shape(rest) {
        nodes.push(first)?;
        rest = after;
    }
    Ok(nodes)
}
