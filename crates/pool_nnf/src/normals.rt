// A pool in which normal forms are made. What was made once is found again, so a formula that stands in many places is
// walked once for each polarity, where its tree would be walked in each place; so is a term in which no `Ite` stands.
// The entries are behind the view: a caller sees the trees of the nodes alone, and that each entry is right holds of
// every value.
ghost use Rattle.std.specs.Prelude.{◌≡◌, ◌<◌, length, IfOk, IfSome, IsTrue};
ghost use Rattle.fol_formula.specs.Syntax.{forms_of};
ghost use Rattle.fol_formula.specs.Fragments.{IsIteFree};
ghost use Rattle.fol_pool.specs.Trees.{IsAt, Grows, some_forms, tree_at, term_at};
ghost use Rattle.fol_pool.specs.Shapes.{tree_of, IsOver, PartsAreBelow};
ghost use Rattle.fol_pool.specs.Rows.{AreForms, formulas};
ghost use Rattle.pool_nnf.specs.Normals.{normal_tree};

use crate::signed::Signed;
use base::Mem;
use fol_pool::{Node, Pool, Shape};
use indexmap::{IndexMap, IndexSet};
use std::alloc::Global;
use std::marker::Model;

/// A pool, which node is the normal form of which formula of it, and which terms are without `Ite`. It is seen as the
/// list of the trees of its nodes.
#[derive(Drop)]
pub struct Normals {
    pool: Pool,
    made: IndexMap<Signed, Node>,
    plain: IndexSet<Node>,
}

impl Model for Normals {
    ghost use Rattle.std.specs.Prelude.{List};
    ghost use Rattle.std.specs.Coded.{coded_list};
    ghost use Rattle.fol_pool.specs.Trees.{Tree, tree_code};

    ghost Value = { List Tree };

    ghost coded = { coded_list tree_code };

    ghost use Rattle.pool_nnf.specs.Normals.{AreRight, ArePlain};

    ghost view = { λ n. n.pool };

    ghost invariant = { λ n. AreRight n.pool n.made.entries × ArePlain n.pool n.plain.keys };
}

impl Normals {
    /// A pool in which no normal form was made yet.
    pub fn new(alloc: Global, pool: Pool) -> Normals
        ensures { result ≡ pool }
    {
        Normals {
            pool,
            made: IndexMap::new(alloc),
            plain: IndexSet::new(alloc),
        }
    }

    /// The pool with what was added to it.
    pub fn into_pool(self) -> Pool
        ensures { result ≡ self }
    {
        self.pool
    }

    /// What stands at a node. Its parts are nodes with smaller numbers.
    pub fn shape(&self, node: Node) -> Shape
        requires { node.0 < length self.now }
        ensures tree { tree_of self.now result ≡ tree_at self.now node.0 }
        ensures parts { IsOver self.now result }
        ensures below { PartsAreBelow node.0 result }
    {
        self.pool.shape(node)
    }

    /// The node with this shape, which is added where there is none. Err: out of memory, and each node is as before.
    pub fn add(&mut self, shape: Shape) -> Mem<Node>
        requires { IsOver self.old shape }
        ensures node { IfOk result (λ node. IsAt self.new node.0 (tree_of self.old shape)) }
        ensures grows { Grows self.old self.new }
    {
        let node = self.pool.add(shape)?;
        Ok(node)
    }

    /// The node of the row of these formulas. Err: out of memory, and each node that was there is as before.
    pub fn row_of(&mut self, parts: &[Node]) -> Mem<Node>
        requires { AreForms self.old parts.now (formulas self.old parts.now) }
        ensures node { IfOk result
            (λ node. IsAt self.new node.0 (some_forms (forms_of (formulas self.old parts.now)))) }
        ensures grows { Grows self.old self.new }
    {
        let node = self.pool.row_of(parts)?;
        Ok(node)
    }

    /// The normal form that was made of what stands at a node.
    pub fn known(&self, node: Node, positive: bool) -> Option<Node>
        ensures { IfSome result (λ made. IsAt self.now made.0 (normal_tree positive (tree_at self.now node.0))) }
    {
        let of = Signed { node, positive };
        self.made.get(&of).copied()
    }

    /// Keeps the normal form of what stands at a node. Err: out of memory.
    pub fn note(&mut self, node: Node, positive: bool, made: Node) -> Mem<()>
        requires node { node.0 < length self.old }
        requires made { IsAt self.old made.0 (normal_tree positive (tree_at self.old node.0)) }
        ensures { self.new ≡ self.old }
    {
        let of = Signed { node, positive };
        self.made.insert(of, made)?;
        Ok(())
    }

    /// Whether the term at a node was found to be without `Ite`.
    pub fn is_known_plain(&self, node: Node) -> bool
        ensures { IsTrue result → IsIteFree (term_at self.now node.0) }
    {
        self.plain.contains(&node)
    }

    /// Keeps that the term at a node is without `Ite`. Err: out of memory.
    pub fn note_plain(&mut self, node: Node) -> Mem<()>
        requires node { node.0 < length self.old }
        requires plain { IsIteFree (term_at self.old node.0) }
        ensures { self.new ≡ self.old }
    {
        self.plain.insert(node)?;
        Ok(())
    }
}
