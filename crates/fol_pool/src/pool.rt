// The nodes, each found by its shape.
ghost use Rattle.std.specs.Prelude.{◌≡◌, ◌<◌, ◌⊎◌, ◌++◌, ◌∷◌, [], length, take, OnOk, IfOk, OnErr};
ghost use Rattle.std.specs.Prelude.{if◌then◌else◌, vec_len, vec_capacity, IsOk};
ghost use Rattle.fol_pool.specs.Trees.{IsAt, EachOnce, Grows, tree_at};
ghost use Rattle.fol_pool.specs.Shapes.{tree_of, IsOver, PartsAreBelow};
ghost use Rattle.fol_pool.specs.Facts.{tree_facts};

use crate::facts::TreeFacts;
use crate::shape::{Node, Shape};
use base::{Mem, place_of};
use indexmap::IndexSet;
use std::alloc::Global;
use std::marker::Model;

/// Formulas and terms of which equal parts are kept once (hash-consing: Ershov, "On programming of arithmetic
/// operations", CACM 1958; Filliatre and Conchon, "Type-safe modular hash-consing", ML 2006). A pool is seen as the
/// list of the trees of its nodes, no two of which are the same.
#[derive(Drop)]
pub struct Pool {
    shapes: IndexSet<Shape>,
    // Of the tree of each, in the same order.
    facts: Vec<TreeFacts>,
}

impl Model for Pool {
    ghost use Rattle.std.specs.Prelude.{List, []};
    ghost use Rattle.std.specs.Coded.{coded_list};
    ghost use Rattle.fol_pool.specs.Trees.{Tree, tree_code};

    ghost Value = { List Tree };

    ghost coded = { coded_list tree_code };

    ghost use Rattle.fol_pool.specs.Pools.{grown, IsKept};

    ghost view = { λ p. grown [] p.shapes.keys };

    ghost invariant = { λ p. IsKept p.shapes.keys p.facts.items };
}

impl Pool {
    /// A pool without nodes.
    pub fn new(alloc: Global) -> Pool
        ensures { result ≡ [] }
    {
        Pool {
            shapes: IndexSet::new(alloc),
            facts: Vec::new(alloc),
        }
    }

    /// How many nodes there are.
    pub fn len(&self) -> usize
        ensures length { result ≡ length self.now }
        ensures once { EachOnce self.now }
    {
        self.shapes.len()
    }

    /// What stands at a node. Its parts are nodes with smaller numbers.
    pub fn shape(&self, node: Node) -> Shape
        requires { node.0 < length self.now }
        ensures tree { tree_of self.now result ≡ tree_at self.now node.0 }
        ensures parts { IsOver self.now result }
        ensures below { PartsAreBelow node.0 result }
    {
        self.shapes.as_slice()[node.0 as usize]
    }

    /// The node with this shape, which is added where there is none. Err: out of memory, and the pool is as before.
    pub fn add(&mut self, shape: Shape) -> Mem<Node>
        requires { IsOver self.old shape }
        ensures node { IfOk result (λ node. IsAt self.new node.0 (tree_of self.old shape)) }
        ensures added { OnOk result ((self.new ≡ self.old) ⊎ (self.new ≡ self.old ++ tree_of self.old shape ∷ [])) }
        ensures kept { OnErr result (self.new ≡ self.old) }
        ensures grows { Grows self.old self.new }
    {
        let known = self.shape_facts(shape);
        place_of(self.shapes.len())?;
        self.facts.reserve(1)?;
        let (place, is_new) = self.shapes.insert_full(shape)?;
        push_where(&mut self.facts, is_new, known)?;
        Ok(Node(place as u32))
    }

    /// Forgets the nodes from this number on.
    pub fn truncate(&mut self, count: usize)
        ensures { self.new ≡ take count self.old }
    {
        self.shapes.truncate(count);
        self.facts.truncate(count);
    }

    // What is known of the tree at a node.
    pub(crate) fn facts(&self, node: Node) -> TreeFacts
        requires { node.0 < length self.now }
        ensures { result ≡ tree_facts (tree_at self.now node.0) }
    {
        self.facts[node.0 as usize]
    }
}

// What is known of a new tree is pushed. With room for it, this cannot fail.
fn push_where(facts: &mut Vec<TreeFacts>, is_new: bool, known: TreeFacts) -> Mem<()>
    ensures items { OnOk result
        (facts.new.items ≡ (if is_new then facts.old.items ++ known ∷ [] else facts.old.items)) }
    ensures room { vec_len facts.old < vec_capacity facts.old → IsOk result }
{
    if is_new {
        facts.push(known)?;
    }
    Ok(())
}
