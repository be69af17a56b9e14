// The formulas and terms that nodes stand for, written out.
ghost use Rattle.std.specs.Prelude.{◌≡◌, IfOk};
ghost use Rattle.fol_formula.specs.View.{form, forms, term as term_view, terms as terms_view};
ghost use Rattle.fol_pool.specs.Trees.{HasForm, HasForms, HasTerm, HasTerms, form_at, forms_at, term_at, terms_at};

use crate::pool::Pool;
use crate::shape::{Node, Shape};
use base::Mem;
use fol_formula::{Formula, Term};
use std::alloc::Global;

impl Pool {
    /// The formula that a node stands for, written out.
    #[cycle(unfolding)]
    pub fn formula(&self, alloc: Global, node: Node) -> Mem<Formula>
        requires { HasForm self.now node.0 }
        ensures { IfOk result (λ f. form f ≡ form_at self.now node.0) }
    {
        match self.shape(node) {
            Shape::True => Ok(Formula::True),
            Shape::False => Ok(Formula::False),
            Shape::Rel(r, args) => Ok(Formula::Rel(r, self.terms(alloc, args)?)),
            Shape::Eq(a, b) => {
                let a = self.term(alloc, a)?;
                Ok(Formula::Eq(a, self.term(alloc, b)?))
            }
            Shape::Not(p) => Ok(Formula::Not(self.boxed(alloc, p)?)),
            Shape::And(ps) => Ok(Formula::And(self.formulas(alloc, ps)?)),
            Shape::Or(ps) => Ok(Formula::Or(self.formulas(alloc, ps)?)),
            Shape::Implies(p, q) => {
                let p = self.boxed(alloc, p)?;
                Ok(Formula::Implies(p, self.boxed(alloc, q)?))
            }
            Shape::Iff(p, q) => {
                let p = self.boxed(alloc, p)?;
                Ok(Formula::Iff(p, self.boxed(alloc, q)?))
            }
            Shape::Forall(k, p) => Ok(Formula::Forall(k, self.boxed(alloc, p)?)),
            Shape::Exists(k, p) => Ok(Formula::Exists(k, self.boxed(alloc, p)?)),
            _ => unreachable!(),
        }
    }

    #[cycle(unfolding)]
    fn boxed(&self, alloc: Global, node: Node) -> Mem<Box<Formula>>
        requires { HasForm self.now node.0 }
        ensures { IfOk result (λ f. form f.value ≡ form_at self.now node.0) }
    {
        let p = self.formula(alloc, node)?;
        Ok(Box::new(alloc, p)?)
    }

    #[cycle(unfolding)]
    fn formulas(&self, alloc: Global, row: Node) -> Mem<Vec<Formula>>
        requires { HasForms self.now row.0 }
        ensures { IfOk result (λ ps. forms ps.items ≡ forms_at self.now row.0) }
    {
        fol_formula::lists();
        let mut all = Vec::new(alloc);
        let mut rest = row;
        while let Shape::FormThen(first, after) = self.shape(rest) {
            all.push(self.formula(alloc, first)?)?;
            rest = after;
        }
        Ok(all)
    }

    #[cycle(unfolding)]
    fn term(&self, alloc: Global, node: Node) -> Mem<Term>
        requires { HasTerm self.now node.0 }
        ensures { IfOk result (λ t. term_view t ≡ term_at self.now node.0) }
    {
        match self.shape(node) {
            Shape::Bound(i) => Ok(Term::Bound(i)),
            Shape::App(f, args) => Ok(Term::App(f, self.terms(alloc, args)?)),
            Shape::Ite(p, a, b) => {
                let p = self.boxed(alloc, p)?;
                let a = self.boxed_term(alloc, a)?;
                Ok(Term::Ite(p, a, self.boxed_term(alloc, b)?))
            }
            _ => unreachable!(),
        }
    }

    #[cycle(unfolding)]
    fn boxed_term(&self, alloc: Global, node: Node) -> Mem<Box<Term>>
        requires { HasTerm self.now node.0 }
        ensures { IfOk result (λ t. term_view t.value ≡ term_at self.now node.0) }
    {
        let t = self.term(alloc, node)?;
        Ok(Box::new(alloc, t)?)
    }

    #[cycle(unfolding)]
    fn terms(&self, alloc: Global, row: Node) -> Mem<Vec<Term>>
        requires { HasTerms self.now row.0 }
        ensures { IfOk result (λ ts. terms_view ts.items ≡ terms_at self.now row.0) }
    {
        fol_formula::lists();
        let mut all = Vec::new(alloc);
        let mut rest = row;
        while let Shape::TermThen(first, after) = self.shape(rest) {
            all.push(self.term(alloc, first)?)?;
            rest = after;
        }
        Ok(all)
    }
}
