// A leaf of other leaves: of those of the arguments one of an application or an atom, of that of a term one under a
// further condition. Each is made by the nodes of its parts, and nothing is copied.
ghost use Rattle.std.specs.Prelude.{◌<◌, ◌∷◌, [], length, IfOk};
ghost use Rattle.fol_formula.specs.Syntax.{term_then, app};
ghost use Rattle.fol_nnf.specs.Normal.{behind, given, made, leaf_form, relation_literal, equal_literal};
ghost use Rattle.fol_pool.specs.Trees.{IsAt, Grows, HasForm, a_form, some_terms, a_term, form_at, tree_at};
ghost use Rattle.pool_nnf.specs.Leaves.{IsLeaf, AreLeaves, term_leaf, terms_leaf, atom_leaf, IsTermLeaf};
ghost use Rattle.pool_nnf.specs.Leaves.{IsTermsLeaf, IsAtomLeaf};

use crate::leaf::Leaf;
use crate::normals::Normals;
use base::Mem;
use fol_pool::{Node, Shape};
use fol_sig::{FunId, RelId};
use std::alloc::Global;

impl Normals {
    /// The one leaf of what stands at a node, without conditions.
    pub fn bare(&mut self, alloc: Global, node: Node) -> Mem<Vec<Leaf>>
        requires { node.0 < length self.old }
        ensures leaves { IfOk result
            (λ ls. AreLeaves (λ t. t) self.new ls.items (([], tree_at self.old node.0) ∷ [])) }
        ensures grows { Grows self.old self.new }
    {
        let conditions = self.add(Shape::NoForms)?;
        let mut all = Vec::new(alloc);
        all.push(Leaf { conditions, node })?;
        Ok(all)
    }

    /// An argument before others.
    pub fn term_before(&mut self, first: Leaf, rest: Leaf) -> Mem<Leaf>
        requires first { IsTermLeaf self.old first }
        requires rest { IsTermsLeaf self.old rest }
        ensures leaf { IfOk result (λ l. IsLeaf some_terms self.new l
            (behind term_then (term_leaf self.old first) (terms_leaf self.old rest))) }
        ensures grows { Grows self.old self.new }
    {
        let conditions = self.row_before(first.conditions, rest.conditions)?;
        let node = self.add(Shape::TermThen(first.node, rest.node))?;
        Ok(Leaf { conditions, node })
    }

    /// The equation of two terms, or its negation.
    pub fn equation_leaf(&mut self, positive: bool, a: Leaf, b: Leaf) -> Mem<Leaf>
        requires first { IsTermLeaf self.old a }
        requires second { IsTermLeaf self.old b }
        ensures leaf { IfOk result (λ l. IsLeaf a_form self.new l
            (behind (equal_literal positive) (term_leaf self.old a) (term_leaf self.old b))) }
        ensures grows { Grows self.old self.new }
    {
        let conditions = self.row_before(a.conditions, b.conditions)?;
        let node = self.equation(positive, a.node, b.node)?;
        Ok(Leaf { conditions, node })
    }

    /// The relation before these arguments, or its negation.
    pub fn relation_leaf(&mut self, positive: bool, rel: RelId, args: Leaf) -> Mem<Leaf>
        requires { IsTermsLeaf self.old args }
        ensures leaf { IfOk result (λ l. IsLeaf a_form self.new l
            (made (relation_literal positive rel.0) (terms_leaf self.old args))) }
        ensures grows { Grows self.old self.new }
    {
        let node = self.relation(positive, rel, args.node)?;
        Ok(Leaf {
            conditions: args.conditions,
            node,
        })
    }

    /// The function before these arguments.
    pub fn application_leaf(&mut self, fun: FunId, args: Leaf) -> Mem<Leaf>
        requires { IsTermsLeaf self.old args }
        ensures leaf { IfOk result (λ l. IsLeaf a_term self.new l (made (app fun.0) (terms_leaf self.old args))) }
        ensures grows { Grows self.old self.new }
    {
        let node = self.add(Shape::App(fun, args.node))?;
        Ok(Leaf {
            conditions: args.conditions,
            node,
        })
    }

    /// The leaf under one more condition.
    pub fn given_leaf(&mut self, condition: Node, leaf: Leaf) -> Mem<Leaf>
        requires condition { HasForm self.old condition.0 }
        requires leaf { IsTermLeaf self.old leaf }
        ensures leaf { IfOk result (λ l. IsLeaf a_term self.new l
            (given (form_at self.old condition.0) (term_leaf self.old leaf))) }
        ensures grows { Grows self.old self.new }
    {
        let conditions = self.add(Shape::FormThen(condition, leaf.conditions))?;
        Ok(Leaf {
            conditions,
            node: leaf.node,
        })
    }

    /// The conditions and the literal, as one And.
    pub fn conjunction_of(&mut self, leaf: Leaf) -> Mem<Node>
        requires { IsAtomLeaf self.old leaf }
        ensures node { IfOk result (λ node. IsAt self.new node.0 (a_form (leaf_form (atom_leaf self.old leaf)))) }
        ensures grows { Grows self.old self.new }
    {
        let none = self.add(Shape::NoForms)?;
        let last = self.add(Shape::FormThen(leaf.node, none))?;
        let row = self.row_before(leaf.conditions, last)?;
        let node = self.add(Shape::And(row))?;
        Ok(node)
    }
}
