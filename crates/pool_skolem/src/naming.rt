// Indices become the constants that they stand for, below the last existential.
ghost use Rattle.std.specs.Prelude.{refl};
ghost use Rattle.pool_skolem.specs.Named.{slots};
ghost use Rattle.pool_skolem.specs.Naming.{naming};

use crate::scope::{Scope, constant_at};
use base::Mem;
use fol_pool::{Node, Pool, Shape};
use fol_sig::{FunId, RelId};
use pool_subst::NodeRules;

// By this scope.
#[derive(Clone, Copy)]
pub struct Naming<'a> {
    pub scope: &'a Scope<'a>,
}

impl<'a> NodeRules for Naming<'a> {
    ghost becomes = { λ n _. naming (slots n.scope.now) };

    ghost stands = { λ _ _. Unit {0} };

    ghost stays = { λ _ _ _ _ _. (tt, refl) };

    fn leaves(&self, _node: Node) -> bool {
        false
    }

    fn index(&self, pool: &mut Pool, depth: u32, index: u32) -> Mem<Node> {
        if index >= depth {
            if let Some(constant) = constant_at(self.scope, index - depth) {
                let none = pool.add(Shape::NoTerms)?;
                let node = pool.add(Shape::App(constant, none))?;
                return Ok(node);
            }
        }
        let node = pool.add(Shape::Bound(index))?;
        Ok(node)
    }

    fn relation(&self, pool: &mut Pool, rel: RelId, args: Node) -> Mem<Node> {
        let node = pool.add(Shape::Rel(rel, args))?;
        Ok(node)
    }

    fn function(&self, pool: &mut Pool, _depth: u32, fun: FunId, args: Node) -> Mem<Node> {
        let node = pool.add(Shape::App(fun, args))?;
        Ok(node)
    }
}
