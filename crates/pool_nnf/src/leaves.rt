// Lists of leaves, in the order in which they are defined: each of the one list with each of the other, the first
// slowest; and the one formula of the leaves of an atom.
ghost use Rattle.std.specs.Prelude.{◌≡◌, ◌++◌, map, IfOk, MatchOption};
ghost use Rattle.fol_formula.specs.Syntax.{term_then, app};
ghost use Rattle.fol_nnf.specs.Normal.{behind, joined, given, made, one_of, any_of, relation_literal, equal_literal};
ghost use Rattle.fol_pool.specs.Trees.{IsAt, Grows, HasForm, a_form, some_terms, a_term, form_at};
ghost use Rattle.pool_nnf.specs.Leaves.{AreLeaves, term_leaf, terms_leaf, atom_leaf, IsTermLeaf, AreTermLeaves};
ghost use Rattle.pool_nnf.specs.Leaves.{AreTermsLeaves, AreAtomLeaves};

use crate::leaf::Leaf;
use crate::normals::Normals;
use base::Mem;
use fol_pool::{Node, Shape};
use fol_sig::{FunId, RelId};
use std::alloc::Global;

impl Normals {
    // The leaf of an argument before each of those behind it.
    fn each_before(&mut self, alloc: Global, first: Leaf, rest: &[Leaf]) -> Mem<Vec<Leaf>>
        requires first { IsTermLeaf self.old first }
        requires rest { AreTermsLeaves self.old rest.now }
        ensures leaves { IfOk result (λ ls. AreLeaves some_terms self.new ls.items
            (map (behind term_then (term_leaf self.old first)) (map (terms_leaf self.old) rest.now))) }
        ensures grows { Grows self.old self.new }
    {
        let mut all = Vec::with_capacity(alloc, rest.len())?;
        for other in rest {
            let leaf = self.term_before(first, *other)?;
            all.push(leaf)?;
        }
        Ok(all)
    }

    /// Each leaf of an argument before each of the others.
    pub fn joined_terms(&mut self, alloc: Global, first: &[Leaf], rest: &[Leaf]) -> Mem<Vec<Leaf>>
        requires first { AreTermLeaves self.old first.now }
        requires rest { AreTermsLeaves self.old rest.now }
        ensures leaves { IfOk result (λ ls. AreLeaves some_terms self.new ls.items
            (joined term_then (map (term_leaf self.old) first.now) (map (terms_leaf self.old) rest.now))) }
        ensures grows { Grows self.old self.new }
    {
        let mut all = Vec::new(alloc);
        for leaf in first {
            let mut more = self.each_before(alloc, *leaf, rest)?;
            all.append(&mut more)?;
        }
        Ok(all)
    }

    // The equation of the leaf of a term with each of another.
    fn each_equation(
        &mut self,
        alloc: Global,
        positive: bool,
        a: Leaf,
        others: &[Leaf],
    ) -> Mem<Vec<Leaf>>
        requires first { IsTermLeaf self.old a }
        requires others { AreTermLeaves self.old others.now }
        ensures leaves { IfOk result (λ ls. AreLeaves a_form self.new ls.items
            (map (behind (equal_literal positive) (term_leaf self.old a)) (map (term_leaf self.old) others.now))) }
        ensures grows { Grows self.old self.new }
    {
        let mut all = Vec::with_capacity(alloc, others.len())?;
        for b in others {
            let leaf = self.equation_leaf(positive, a, *b)?;
            all.push(leaf)?;
        }
        Ok(all)
    }

    /// The equation of each leaf of a term with each of another, or its negation.
    pub fn joined_equations(
        &mut self,
        alloc: Global,
        positive: bool,
        first: &[Leaf],
        second: &[Leaf],
    ) -> Mem<Vec<Leaf>>
        requires first { AreTermLeaves self.old first.now }
        requires second { AreTermLeaves self.old second.now }
        ensures leaves { IfOk result (λ ls. AreLeaves a_form self.new ls.items
            (joined (equal_literal positive) (map (term_leaf self.old) first.now)
            (map (term_leaf self.old) second.now))) }
        ensures grows { Grows self.old self.new }
    {
        let mut all = Vec::new(alloc);
        for leaf in first {
            let mut more = self.each_equation(alloc, positive, *leaf, second)?;
            all.append(&mut more)?;
        }
        Ok(all)
    }

    /// The relation of each leaf of its arguments, or its negation.
    pub fn relations(
        &mut self,
        alloc: Global,
        positive: bool,
        rel: RelId,
        leaves: &[Leaf],
    ) -> Mem<Vec<Leaf>>
        requires { AreTermsLeaves self.old leaves.now }
        ensures leaves { IfOk result (λ ls. AreLeaves a_form self.new ls.items
            (map (made (relation_literal positive rel.0)) (map (terms_leaf self.old) leaves.now))) }
        ensures grows { Grows self.old self.new }
    {
        let mut all = Vec::with_capacity(alloc, leaves.len())?;
        for args in leaves {
            let leaf = self.relation_leaf(positive, rel, *args)?;
            all.push(leaf)?;
        }
        Ok(all)
    }

    /// The function of each leaf of its arguments.
    pub fn applications(&mut self, alloc: Global, fun: FunId, leaves: &[Leaf]) -> Mem<Vec<Leaf>>
        requires { AreTermsLeaves self.old leaves.now }
        ensures leaves { IfOk result (λ ls. AreLeaves a_term self.new ls.items
            (map (made (app fun.0)) (map (terms_leaf self.old) leaves.now))) }
        ensures grows { Grows self.old self.new }
    {
        let mut all = Vec::with_capacity(alloc, leaves.len())?;
        for args in leaves {
            let leaf = self.application_leaf(fun, *args)?;
            all.push(leaf)?;
        }
        Ok(all)
    }

    /// The leaves under one more condition.
    pub fn each_given(&mut self, alloc: Global, condition: Node, leaves: &[Leaf]) -> Mem<Vec<Leaf>>
        requires condition { HasForm self.old condition.0 }
        requires leaves { AreTermLeaves self.old leaves.now }
        ensures leaves { IfOk result (λ ls. AreLeaves a_term self.new ls.items
            (map (given (form_at self.old condition.0)) (map (term_leaf self.old) leaves.now))) }
        ensures grows { Grows self.old self.new }
    {
        let mut all = Vec::with_capacity(alloc, leaves.len())?;
        for leaf in leaves {
            let leaf = self.given_leaf(condition, *leaf)?;
            all.push(leaf)?;
        }
        Ok(all)
    }

    // The Or over the leaves, one And for each, from the last on.
    fn any_of(&mut self, leaves: &[Leaf]) -> Mem<Node>
        requires { AreAtomLeaves self.old leaves.now }
        ensures node { IfOk result
            (λ node. IsAt self.new node.0 (a_form (any_of (map (atom_leaf self.old) leaves.now)))) }
        ensures grows { Grows self.old self.new }
    {
        let mut row = self.add(Shape::NoForms)?;
        for i in (0..leaves.len()).rev() {
            let part = self.conjunction_of(leaves[i])?;
            row = self.add(Shape::FormThen(part, row))?;
        }
        let node = self.add(Shape::Or(row))?;
        Ok(node)
    }

    // The literal where there is one leaf, without conditions.
    fn sole_literal(&self, leaves: &[Leaf]) -> Option<Node>
        requires { AreAtomLeaves self.now leaves.now }
        ensures { MatchOption result
            (one_of (map (atom_leaf self.now) leaves.now) ≡ any_of (map (atom_leaf self.now) leaves.now))
            (λ node. IsAt self.now node.0 (a_form (one_of (map (atom_leaf self.now) leaves.now)))) }
    {
        match leaves {
            [leaf] => match self.shape(leaf.conditions) {
                Shape::NoForms => Some(leaf.node),
                _ => None,
            },
            _ => None,
        }
    }

    /// The Or over the leaves. A literal without `Ite` stays.
    pub fn one_of(&mut self, leaves: &[Leaf]) -> Mem<Node>
        requires { AreAtomLeaves self.old leaves.now }
        ensures node { IfOk result
            (λ node. IsAt self.new node.0 (a_form (one_of (map (atom_leaf self.old) leaves.now)))) }
        ensures grows { Grows self.old self.new }
    {
        if let Some(literal) = self.sole_literal(leaves) {
            return Ok(literal);
        }
        let node = self.any_of(leaves)?;
        Ok(node)
    }

    /// The relation over the leaves of its arguments, or its negation, as one formula.
    pub fn relation_of(
        &mut self,
        alloc: Global,
        positive: bool,
        rel: RelId,
        leaves: &[Leaf],
    ) -> Mem<Node>
        requires { AreTermsLeaves self.old leaves.now }
        ensures node { IfOk result (λ node. IsAt self.new node.0 (a_form
            (one_of (map (made (relation_literal positive rel.0)) (map (terms_leaf self.old) leaves.now))))) }
        ensures grows { Grows self.old self.new }
    {
        let literals = self.relations(alloc, positive, rel, leaves)?;
        let node = self.one_of(&literals)?;
        Ok(node)
    }

    /// The equation over the leaves of two terms, or its negation, as one formula.
    pub fn equation_of(
        &mut self,
        alloc: Global,
        positive: bool,
        first: &[Leaf],
        second: &[Leaf],
    ) -> Mem<Node>
        requires first { AreTermLeaves self.old first.now }
        requires second { AreTermLeaves self.old second.now }
        ensures node { IfOk result (λ node. IsAt self.new node.0 (a_form (one_of (joined (equal_literal positive)
            (map (term_leaf self.old) first.now) (map (term_leaf self.old) second.now))))) }
        ensures grows { Grows self.old self.new }
    {
        let literals = self.joined_equations(alloc, positive, first, second)?;
        let node = self.one_of(&literals)?;
        Ok(node)
    }

    /// The leaves of a choice: the first under the one condition, the second under the other.
    pub fn choice(
        &mut self,
        alloc: Global,
        yes: Node,
        first: &[Leaf],
        no: Node,
        second: &[Leaf],
    ) -> Mem<Vec<Leaf>>
        requires yes { HasForm self.old yes.0 }
        requires first { AreTermLeaves self.old first.now }
        requires no { HasForm self.old no.0 }
        requires second { AreTermLeaves self.old second.now }
        ensures leaves { IfOk result (λ ls. AreLeaves a_term self.new ls.items
            (map (given (form_at self.old yes.0)) (map (term_leaf self.old) first.now)
            ++ map (given (form_at self.old no.0)) (map (term_leaf self.old) second.now))) }
        ensures grows { Grows self.old self.new }
    {
        let mut all = self.each_given(alloc, yes, first)?;
        let mut more = self.each_given(alloc, no, second)?;
        all.append(&mut more)?;
        Ok(all)
    }
}
