// What a normal form is made of, a step each: constants, literals, rows and quantified formulas, from the nodes of
// their parts. Each contract says the tree by the trees of the parts as the call begins, so a walk needs no more of it.
ghost use Rattle.std.specs.Prelude.{◌++◌, IfOk};
ghost use Rattle.fol_formula.specs.Syntax.{disjunction, forms_of, list_of_forms};
ghost use Rattle.fol_formula.specs.NormalForms.{both};
ghost use Rattle.fol_nnf.specs.Normal.{constant, gathered, quantified, literal, relation_literal, equal_literal, two};
ghost use Rattle.fol_pool.specs.Trees.{IsAt, Grows, HasForm, HasForms, HasTerm, HasTerms, a_form, some_forms, form_at};
ghost use Rattle.fol_pool.specs.Trees.{forms_at, term_at, terms_at};

use crate::normals::Normals;
use base::Mem;
use fol_pool::{Node, Shape};
use fol_sig::{RelId, Sort};

impl Normals {
    /// The formula that is always true, or the one that never is.
    pub fn constant(&mut self, positive: bool) -> Mem<Node>
        ensures node { IfOk result (λ node. IsAt self.new node.0 (a_form (constant positive))) }
        ensures grows { Grows self.old self.new }
    {
        let shape = if positive { Shape::True } else { Shape::False };
        let node = self.add(shape)?;
        Ok(node)
    }

    /// The And of these, or their Or.
    pub fn gathered(&mut self, positive: bool, row: Node) -> Mem<Node>
        requires { HasForms self.old row.0 }
        ensures node { IfOk result
            (λ node. IsAt self.new node.0 (a_form (gathered positive (forms_at self.old row.0)))) }
        ensures grows { Grows self.old self.new }
    {
        let shape = if positive {
            Shape::And(row)
        } else {
            Shape::Or(row)
        };
        let node = self.add(shape)?;
        Ok(node)
    }

    /// Forall over the sort, or Exists.
    pub fn quantified(&mut self, positive: bool, sort: Sort, body: Node) -> Mem<Node>
        requires { HasForm self.old body.0 }
        ensures node { IfOk result
            (λ node. IsAt self.new node.0 (a_form (quantified positive sort.0 (form_at self.old body.0)))) }
        ensures grows { Grows self.old self.new }
    {
        let shape = if positive {
            Shape::Forall(sort, body)
        } else {
            Shape::Exists(sort, body)
        };
        let node = self.add(shape)?;
        Ok(node)
    }

    /// The atom or its negation.
    pub fn literal(&mut self, positive: bool, atom: Node) -> Mem<Node>
        requires { HasForm self.old atom.0 }
        ensures node { IfOk result
            (λ node. IsAt self.new node.0 (a_form (literal positive (form_at self.old atom.0)))) }
        ensures grows { Grows self.old self.new }
    {
        if positive {
            return Ok(atom);
        }
        let node = self.add(Shape::Not(atom))?;
        Ok(node)
    }

    /// A relation before a row of arguments, or its negation.
    pub fn relation(&mut self, positive: bool, rel: RelId, args: Node) -> Mem<Node>
        requires { HasTerms self.old args.0 }
        ensures node { IfOk result
            (λ node. IsAt self.new node.0 (a_form (relation_literal positive rel.0 (terms_at self.old args.0)))) }
        ensures grows { Grows self.old self.new }
    {
        let atom = self.add(Shape::Rel(rel, args))?;
        let node = self.literal(positive, atom)?;
        Ok(node)
    }

    /// An equation, or its negation.
    pub fn equation(&mut self, positive: bool, a: Node, b: Node) -> Mem<Node>
        requires first { HasTerm self.old a.0 }
        requires second { HasTerm self.old b.0 }
        ensures node { IfOk result (λ node. IsAt self.new node.0
            (a_form (equal_literal positive (term_at self.old a.0) (term_at self.old b.0)))) }
        ensures grows { Grows self.old self.new }
    {
        let atom = self.add(Shape::Eq(a, b))?;
        let node = self.literal(positive, atom)?;
        Ok(node)
    }

    /// A row of two formulas.
    pub fn two(&mut self, p: Node, q: Node) -> Mem<Node>
        requires first { HasForm self.old p.0 }
        requires second { HasForm self.old q.0 }
        ensures node { IfOk result (λ node. IsAt self.new node.0
            (some_forms (two (form_at self.old p.0) (form_at self.old q.0)))) }
        ensures grows { Grows self.old self.new }
    {
        let none = self.add(Shape::NoForms)?;
        let last = self.add(Shape::FormThen(q, none))?;
        let row = self.add(Shape::FormThen(p, last))?;
        Ok(row)
    }

    /// The And or the Or of two formulas.
    pub fn gathered_two(&mut self, positive: bool, p: Node, q: Node) -> Mem<Node>
        requires first { HasForm self.old p.0 }
        requires second { HasForm self.old q.0 }
        ensures node { IfOk result (λ node. IsAt self.new node.0
            (a_form (gathered positive (two (form_at self.old p.0) (form_at self.old q.0))))) }
        ensures grows { Grows self.old self.new }
    {
        let row = self.two(p, q)?;
        let node = self.gathered(positive, row)?;
        Ok(node)
    }

    /// The first two, or the second two.
    pub fn either_two(&mut self, p: Node, q: Node, r: Node, s: Node) -> Mem<Node>
        requires p { HasForm self.old p.0 }
        requires q { HasForm self.old q.0 }
        requires r { HasForm self.old r.0 }
        requires s { HasForm self.old s.0 }
        ensures node { IfOk result (λ node. IsAt self.new node.0
            (a_form (disjunction (two (both (form_at self.old p.0) (form_at self.old q.0))
            (both (form_at self.old r.0) (form_at self.old s.0)))))) }
        ensures grows { Grows self.old self.new }
    {
        let first = self.gathered_two(true, p, q)?;
        let second = self.gathered_two(true, r, s)?;
        let node = self.gathered_two(false, first, second)?;
        Ok(node)
    }

    /// One row before another. The first is walked by calls, and is as long as `Ite` is nested.
    #[tactic(auto, using(crate::proofs::Rows::forms_listed))]
    pub fn row_before(&mut self, front: Node, behind: Node) -> Mem<Node>
        requires front { HasForms self.old front.0 }
        requires behind { HasForms self.old behind.0 }
        ensures node { IfOk result (λ node. IsAt self.new node.0
            (some_forms (forms_of (list_of_forms (forms_at self.old front.0)
            ++ list_of_forms (forms_at self.old behind.0))))) }
        ensures grows { Grows self.old self.new }
    {
        match self.shape(front) {
            Shape::NoForms => Ok(behind),
            Shape::FormThen(first, rest) => {
                let row = self.row_before(rest, behind)?;
                let node = self.add(Shape::FormThen(first, row))?;
                Ok(node)
            }
            _ => unreachable!(),
        }
    }
}
