// What was made of nodes, so that it is made once.
ghost use Rattle.std.specs.Prelude.{◌≡◌, ℕ, ◌<◌, ◌≤◌, ◌==◌, ◌&&◌, if◌then◌else◌, [], length, Some, OnOk, OnErr, IfOk};
ghost use Rattle.std.specs.List.{All};
ghost use Rattle.pool_subst.specs.Memos.{kept};

use base::Mem;
use fol_pool::{Node, Pool, Shape};
use indexmap::IndexMap;
use std::alloc::Global;
use std::marker::Model;

/// What a walk made of nodes by the same rules, each under so many binders. It is seen as its entries.
#[derive(Drop)]
pub struct Memo {
    alloc: Global,
    entries: IndexMap<(u32, u32), Node>,
}

impl Model for Memo {
    ghost use Rattle.pool_subst.specs.Memos.{Entries};

    ghost Value = { Entries };

    ghost view = { λ m. m.entries.entries };
}

impl Memo {
    /// Nothing is made yet.
    pub fn new(alloc: Global) -> Memo
        ensures { result ≡ [] }
    {
        Memo {
            alloc,
            entries: IndexMap::new(alloc),
        }
    }

    // What was made of this node, if it was met under so many binders.
    pub(crate) fn find(&self, node: Node, depth: u32) -> Option<Node>
        ensures { result ≡ kept self.now node.0 depth }
    {
        self.entries.get(&(node.0, depth)).copied()
    }

    // Keeps what was made of a node under so many binders.
    pub(crate) fn note(&mut self, node: Node, depth: u32, made: Node) -> Mem<()>
        ensures noted { OnOk result ((n d : ℕ)
            → kept self.new n d ≡ (if (node.0 == n) && (depth == d) then Some made else kept self.old n d)) }
        ensures same { OnErr result (self.new ≡ self.old) }
    {
        self.entries.insert((node.0, depth), made)?;
        Ok(())
    }

    // The ends of a row of formulas of which nothing was made yet under so many binders, the whole row first.
    pub(crate) fn unmade(&self, pool: &Pool, row: Node, depth: u32) -> Mem<Vec<Node>>
        requires { row.0 < length pool.now }
        ensures { IfOk result (λ ends. All (λ end. end.0 ≤ row.0) ends.items) }
    {
        let mut ends = Vec::new(self.alloc);
        let mut rest = row;
        while let Shape::FormThen(_, after) = pool.shape(rest) {
            if self.find(rest, depth).is_some() {
                break;
            }
            ends.push(rest)?;
            rest = after;
        }
        Ok(ends)
    }
}
