// The nodes of formulas and terms that are given as trees.
ghost use Rattle.std.specs.Prelude.{◌≡◌, IfOk};
ghost use Rattle.fol_formula.specs.View.{form, forms, term, terms};
ghost use Rattle.fol_pool.specs.Trees.{IsAt, Grows, a_form, some_forms, a_term, some_terms};
ghost use Rattle.fol_pool.specs.Shapes.{tree_of, IsOver};

use crate::pool::Pool;
use crate::shape::{Node, Shape};
use base::Mem;
use fol_formula::{Formula, Term};

impl Pool {
    /// The node of a formula, which is added with its parts where they are not there. Err: out of memory; some parts
    /// may have been added, and each node that was there is as before.
    #[cycle(taking)]
    pub fn take_in(&mut self, formula: &Formula) -> Mem<Node>
        ensures node { IfOk result (λ node. IsAt self.new node.0 (a_form (form formula.now))) }
        ensures grows { Grows self.old self.new }
    {
        let shape = self.take_parts(formula)?;
        let node = self.add(shape)?;
        Ok(node)
    }

    // What stands at the node of a formula.
    #[cycle(taking)]
    fn take_parts(&mut self, formula: &Formula) -> Mem<Shape>
        ensures over { IfOk result (λ shape. IsOver self.new shape) }
        ensures tree { IfOk result (λ shape. tree_of self.new shape ≡ a_form (form formula.now)) }
        ensures grows { Grows self.old self.new }
    {
        match formula {
            Formula::True => Ok(Shape::True),
            Formula::False => Ok(Shape::False),
            Formula::Rel(r, args) => Ok(Shape::Rel(*r, self.take_terms(args)?)),
            Formula::Eq(a, b) => Ok(Shape::Eq(self.take_term(a)?, self.take_term(b)?)),
            Formula::Not(p) => Ok(Shape::Not(self.take_in(p)?)),
            Formula::And(ps) => Ok(Shape::And(self.take_formulas(ps)?)),
            Formula::Or(ps) => Ok(Shape::Or(self.take_formulas(ps)?)),
            Formula::Implies(p, q) => Ok(Shape::Implies(self.take_in(p)?, self.take_in(q)?)),
            Formula::Iff(p, q) => Ok(Shape::Iff(self.take_in(p)?, self.take_in(q)?)),
            Formula::Forall(k, p) => Ok(Shape::Forall(*k, self.take_in(p)?)),
            Formula::Exists(k, p) => Ok(Shape::Exists(*k, self.take_in(p)?)),
        }
    }

    /// The node of a term, which is added likewise.
    #[cycle(taking)]
    pub fn take_term(&mut self, t: &Term) -> Mem<Node>
        ensures node { IfOk result (λ node. IsAt self.new node.0 (a_term (term t.now))) }
        ensures grows { Grows self.old self.new }
    {
        let shape = self.take_term_parts(t)?;
        let node = self.add(shape)?;
        Ok(node)
    }

    // What stands at the node of a term.
    #[cycle(taking)]
    fn take_term_parts(&mut self, t: &Term) -> Mem<Shape>
        ensures over { IfOk result (λ shape. IsOver self.new shape) }
        ensures tree { IfOk result (λ shape. tree_of self.new shape ≡ a_term (term t.now)) }
        ensures grows { Grows self.old self.new }
    {
        match t {
            Term::Bound(i) => Ok(Shape::Bound(*i)),
            Term::App(f, args) => Ok(Shape::App(*f, self.take_terms(args)?)),
            Term::Ite(p, a, b) => Ok(Shape::Ite(
                self.take_in(p)?,
                self.take_term(a)?,
                self.take_term(b)?,
            )),
        }
    }

    #[cycle(taking)]
    fn take_formulas(&mut self, formulas: &[Formula]) -> Mem<Node>
        ensures node { IfOk result (λ node. IsAt self.new node.0 (some_forms (forms formulas.now))) }
        ensures grows { Grows self.old self.new }
    {
        fol_formula::lists();
        let mut row = self.add(Shape::NoForms)?;
        for i in (0..formulas.len()).rev() {
            let first = self.take_in(&formulas[i])?;
            row = self.add(Shape::FormThen(first, row))?;
        }
        Ok(row)
    }

    #[cycle(taking)]
    fn take_terms(&mut self, ts: &[Term]) -> Mem<Node>
        ensures node { IfOk result (λ node. IsAt self.new node.0 (some_terms (terms ts.now))) }
        ensures grows { Grows self.old self.new }
    {
        fol_formula::lists();
        let mut row = self.add(Shape::NoTerms)?;
        for i in (0..ts.len()).rev() {
            let first = self.take_term(&ts[i])?;
            row = self.add(Shape::TermThen(first, row))?;
        }
        Ok(row)
    }
}
