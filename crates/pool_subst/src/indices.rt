// The rules by which indices alone change: they are raised, or arguments stand in their places. An index that four
// bytes do not hold is taken for want of memory.
ghost use Rattle.std.specs.Prelude.{◌≡◌, IfOk, refl};
ghost use Rattle.fol_subst.specs.Shift.{shift_term, shifting};
ghost use Rattle.fol_subst.specs.Replace.{putting};
ghost use Rattle.fol_pool.specs.Trees.{IsAt, Grows, HasTerm, a_term, term_at};
ghost use Rattle.pool_subst.specs.Nodes.{HaveTerms, terms_of};
ghost use Rattle.pool_subst.specs.Staying.{putting_stays};

use crate::walk::{NodeRules, changed};
use base::Mem;
use fol_pool::{Node, Pool, Shape};
use fol_sig::{FunId, RelId};
use std::alloc::{AllocError, Global};

// Each index that is bound outside is raised by so much.
#[derive(Clone, Copy)]
pub struct Shift {
    pub by: u32,
}

impl NodeRules for Shift {
    ghost becomes = { λ s _. shifting s.by };

    ghost stands = { λ _ _. Unit {0} };

    ghost stays = { λ _ _ _ _ _. (tt, refl) };

    fn leaves(&self, _node: Node) -> bool {
        false
    }

    fn index(&self, pool: &mut Pool, depth: u32, index: u32) -> Mem<Node> {
        if index < depth {
            let node = pool.add(Shape::Bound(index))?;
            return Ok(node);
        }
        let Some(raised) = index.checked_add(self.by) else {
            return Err(AllocError);
        };
        let node = pool.add(Shape::Bound(raised))?;
        Ok(node)
    }

    fn relation(&self, pool: &mut Pool, rel: RelId, args: Node) -> Mem<Node> {
        let node = pool.add(Shape::Rel(rel, args))?;
        Ok(node)
    }

    fn function(&self, pool: &mut Pool, _depth: u32, fun: FunId, args: Node) -> Mem<Node> {
        let node = pool.add(Shape::App(fun, args))?;
        Ok(node)
    }
}

// The arguments stand in the place of the indices that are bound outside, the nearest first. Each is taken under the
// binders there.
#[derive(Clone, Copy)]
pub struct Put<'a> {
    pub alloc: Global,
    pub args: &'a [Node],
}

impl<'a> NodeRules for Put<'a> {
    ghost becomes = { λ s ts. putting (terms_of ts s.args.now) };

    ghost stands = { λ s ts. HaveTerms ts s.args.now };

    ghost stays = { λ s. putting_stays s.args.now };

    fn leaves(&self, _node: Node) -> bool {
        false
    }

    fn index(&self, pool: &mut Pool, depth: u32, index: u32) -> Mem<Node> {
        if index < depth {
            let node = pool.add(Shape::Bound(index))?;
            return Ok(node);
        }
        let place = (index - depth) as usize;
        if place < self.args.len() {
            let node = raised(self.alloc, pool, self.args[place], depth)?;
            return Ok(node);
        }
        let outside = index as usize - self.args.len();
        let node = pool.add(Shape::Bound(outside as u32))?;
        Ok(node)
    }

    fn relation(&self, pool: &mut Pool, rel: RelId, args: Node) -> Mem<Node> {
        let node = pool.add(Shape::Rel(rel, args))?;
        Ok(node)
    }

    fn function(&self, pool: &mut Pool, _depth: u32, fun: FunId, args: Node) -> Mem<Node> {
        let node = pool.add(Shape::App(fun, args))?;
        Ok(node)
    }
}

// A term with each index that is bound outside raised by so much, which is often not at all.
fn raised(alloc: Global, pool: &mut Pool, term: Node, by: u32) -> Mem<Node>
    requires { HasTerm pool.old term.0 }
    ensures node { IfOk result
        (λ node. IsAt pool.new node.0 (a_term (shift_term 0 by (term_at pool.old term.0)))) }
    ensures grows { Grows pool.old pool.new }
{
    if by == 0 {
        return Ok(term);
    }
    let node = changed(alloc, pool, &Shift { by }, 0, term)?;
    Ok(node)
}
