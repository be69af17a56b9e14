// Along the formula, node by node: negations are pushed down to the atoms, and each atom becomes the Or over its
// leaves. Calls go as deep as formulas are nested; a row of formulas is walked by a loop, since it may be long.
ghost use Rattle.std.specs.Prelude.{IfOk};
ghost use Rattle.fol_nnf.specs.Normal.{normal, normals, leaves, leaves_of_terms};
ghost use Rattle.fol_nnf.specs.Atoms.{IsAtom};
ghost use Rattle.fol_pool.specs.Trees.{IsAt, Grows, HasForm, HasForms, HasTerm, HasTerms, a_form, some_forms, a_term};
ghost use Rattle.fol_pool.specs.Trees.{some_terms, form_at, forms_at, term_at, terms_at};
ghost use Rattle.pool_nnf.specs.Leaves.{AreLeaves};

use crate::leaf::Leaf;
use crate::normals::Normals;
use base::Mem;
use fol_pool::{Node, Shape};
use std::alloc::Global;

impl Normals {
    /// The normal form of a formula, or of its negation. Err: out of memory, and each node is as before.
    #[cycle(normal)]
    pub fn normal_node(&mut self, alloc: Global, at: Node, positive: bool) -> Mem<Node>
        requires { HasForm self.old at.0 }
        ensures node { IfOk result
            (λ node. IsAt self.new node.0 (a_form (normal positive (form_at self.old at.0)))) }
        ensures grows { Grows self.old self.new }
    {
        if let Some(made) = self.known(at, positive) {
            return Ok(made);
        }
        let made = self.made_anew(alloc, at, positive)?;
        self.note(at, positive, made)?;
        Ok(made)
    }

    // The same where it was not made yet.
    #[cycle(normal)]
    fn made_anew(&mut self, alloc: Global, at: Node, positive: bool) -> Mem<Node>
        requires { HasForm self.old at.0 }
        ensures node { IfOk result
            (λ node. IsAt self.new node.0 (a_form (normal positive (form_at self.old at.0)))) }
        ensures grows { Grows self.old self.new }
    {
        match self.shape(at) {
            Shape::True => self.constant(positive),
            Shape::False => self.constant(!positive),
            Shape::Rel(_, _) => self.normal_atom(alloc, at, positive),
            Shape::Eq(_, _) => self.normal_atom(alloc, at, positive),
            Shape::Not(p) => self.normal_node(alloc, p, !positive),
            Shape::And(ps) => {
                let row = self.normal_row(alloc, ps, positive)?;
                self.gathered(positive, row)
            }
            Shape::Or(ps) => {
                let row = self.normal_row(alloc, ps, positive)?;
                self.gathered(!positive, row)
            }
            Shape::Implies(p, q) => {
                let first = self.normal_node(alloc, p, !positive)?;
                let second = self.normal_node(alloc, q, positive)?;
                self.gathered_two(!positive, first, second)
            }
            Shape::Iff(p, q) => {
                let yes = self.normal_node(alloc, p, true)?;
                let same = self.normal_node(alloc, q, positive)?;
                let no = self.normal_node(alloc, p, false)?;
                let other = self.normal_node(alloc, q, !positive)?;
                self.either_two(yes, same, no, other)
            }
            Shape::Forall(k, p) => {
                let body = self.normal_node(alloc, p, positive)?;
                self.quantified(positive, k, body)
            }
            Shape::Exists(k, p) => {
                let body = self.normal_node(alloc, p, positive)?;
                self.quantified(!positive, k, body)
            }
            _ => unreachable!(),
        }
    }

    // The normal forms of the formulas of a row.
    #[cycle(normal)]
    fn normal_row(&mut self, alloc: Global, row: Node, positive: bool) -> Mem<Node>
        requires { HasForms self.old row.0 }
        ensures node { IfOk result
            (λ node. IsAt self.new node.0 (some_forms (normals positive (forms_at self.old row.0)))) }
        ensures grows { Grows self.old self.new }
    {
        let mut parts = Vec::new(alloc);
        let mut rest = row;
        while let Shape::FormThen(first, after) = self.shape(rest) {
            let part = self.normal_node(alloc, first, positive)?;
            parts.push(part)?;
            rest = after;
        }
        let node = self.row_of(&parts)?;
        Ok(node)
    }

    // A relation or an equation. Without `Ite` it stays.
    #[cycle(normal)]
    fn normal_atom(&mut self, alloc: Global, at: Node, positive: bool) -> Mem<Node>
        requires form { HasForm self.old at.0 }
        requires atom { IsAtom (form_at self.old at.0) }
        ensures node { IfOk result
            (λ node. IsAt self.new node.0 (a_form (normal positive (form_at self.old at.0)))) }
        ensures grows { Grows self.old self.new }
    {
        let plain = self.is_plain_atom(at)?;
        if plain {
            return self.plain_literal(positive, at);
        }
        self.lifted_atom(alloc, at, positive)
    }

    // The Or over the leaves of an atom.
    #[cycle(normal)]
    fn lifted_atom(&mut self, alloc: Global, at: Node, positive: bool) -> Mem<Node>
        requires form { HasForm self.old at.0 }
        requires atom { IsAtom (form_at self.old at.0) }
        ensures node { IfOk result
            (λ node. IsAt self.new node.0 (a_form (normal positive (form_at self.old at.0)))) }
        ensures grows { Grows self.old self.new }
    {
        match self.shape(at) {
            Shape::Rel(r, args) => {
                let leaves = self.leaves_of_row(alloc, args)?;
                self.relation_of(alloc, positive, r, &leaves)
            }
            Shape::Eq(a, b) => {
                let first = self.leaves_of(alloc, a)?;
                let second = self.leaves_of(alloc, b)?;
                self.equation_of(alloc, positive, &first, &second)
            }
            _ => unreachable!(),
        }
    }

    // What a term may be. Without `Ite` it is itself.
    #[cycle(normal)]
    fn leaves_of(&mut self, alloc: Global, at: Node) -> Mem<Vec<Leaf>>
        requires { HasTerm self.old at.0 }
        ensures leaves { IfOk result (λ ls. AreLeaves a_term self.new ls.items (leaves (term_at self.old at.0))) }
        ensures grows { Grows self.old self.new }
    {
        let plain = self.is_plain_term(at)?;
        if plain {
            return self.plain_leaves(alloc, at);
        }
        self.lifted_leaves(alloc, at)
    }

    // Each way through the choices in a term.
    #[cycle(normal)]
    fn lifted_leaves(&mut self, alloc: Global, at: Node) -> Mem<Vec<Leaf>>
        requires { HasTerm self.old at.0 }
        ensures leaves { IfOk result (λ ls. AreLeaves a_term self.new ls.items (leaves (term_at self.old at.0))) }
        ensures grows { Grows self.old self.new }
    {
        match self.shape(at) {
            Shape::Bound(_) => self.bare(alloc, at),
            Shape::App(f, args) => {
                let leaves = self.leaves_of_row(alloc, args)?;
                self.applications(alloc, f, &leaves)
            }
            Shape::Ite(p, a, b) => {
                let yes = self.normal_node(alloc, p, true)?;
                let first = self.leaves_of(alloc, a)?;
                let no = self.normal_node(alloc, p, false)?;
                let second = self.leaves_of(alloc, b)?;
                self.choice(alloc, yes, &first, no, &second)
            }
            _ => unreachable!(),
        }
    }

    // What a row of terms may be: each way through the choices in one with each way through those in the others.
    #[cycle(normal)]
    fn leaves_of_row(&mut self, alloc: Global, row: Node) -> Mem<Vec<Leaf>>
        requires { HasTerms self.old row.0 }
        ensures leaves { IfOk result
            (λ ls. AreLeaves some_terms self.new ls.items (leaves_of_terms (terms_at self.old row.0))) }
        ensures grows { Grows self.old self.new }
    {
        match self.shape(row) {
            Shape::NoTerms => self.bare(alloc, row),
            Shape::TermThen(t, rest) => {
                let first = self.leaves_of(alloc, t)?;
                let behind = self.leaves_of_row(alloc, rest)?;
                self.joined_terms(alloc, &first, &behind)
            }
            _ => unreachable!(),
        }
    }
}
