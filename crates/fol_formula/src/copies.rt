// Second formulas and terms, with the same trees.
ghost use Rattle.std.specs.Prelude.{◌≡◌, map, IfOk};
ghost use Rattle.fol_formula.specs.View.{form, term};

use crate::{Formula, Term};
use base::Mem;
use std::alloc::Global;

impl Term {
    /// A second term with the same tree.
    #[cycle(copy)]
    pub fn copy(&self, alloc: Global) -> Mem<Term>
        ensures { IfOk result (λ t. term t ≡ term self.now) }
    {
        Ok(match self {
            Term::Bound(i) => Term::Bound(*i),
            Term::App(f, args) => Term::App(*f, copy_terms(alloc, args)?),
            Term::Ite(p, a, b) => Term::Ite(
                boxed_copy(alloc, p)?,
                Box::new(alloc, a.copy(alloc)?)?,
                Box::new(alloc, b.copy(alloc)?)?,
            ),
        })
    }
}

impl Formula {
    /// A second formula with the same tree.
    #[cycle(copy)]
    pub fn copy(&self, alloc: Global) -> Mem<Formula>
        ensures { IfOk result (λ p. form p ≡ form self.now) }
    {
        Ok(match self {
            Formula::True => Formula::True,
            Formula::False => Formula::False,
            Formula::Rel(r, args) => Formula::Rel(*r, copy_terms(alloc, args)?),
            Formula::Eq(a, b) => Formula::Eq(a.copy(alloc)?, b.copy(alloc)?),
            Formula::Not(p) => Formula::Not(boxed_copy(alloc, p)?),
            Formula::And(ps) => Formula::And(copy_formulas(alloc, ps)?),
            Formula::Or(ps) => Formula::Or(copy_formulas(alloc, ps)?),
            Formula::Implies(p, q) => Formula::Implies(
                boxed_copy(alloc, p)?,
                boxed_copy(alloc, q)?,
            ),
            Formula::Iff(p, q) => Formula::Iff(boxed_copy(alloc, p)?, boxed_copy(alloc, q)?),
            Formula::Forall(k, p) => Formula::Forall(*k, boxed_copy(alloc, p)?),
            Formula::Exists(k, p) => Formula::Exists(*k, boxed_copy(alloc, p)?),
        })
    }
}

// A copy of a formula that stands below another one. It stands apart so that a copy has less room to clear.
#[cycle(copy)]
#[inline(never)]
fn boxed_copy(alloc: Global, p: &Formula) -> Mem<Box<Formula>>
    ensures { IfOk result (λ b. form b.value ≡ form p.now) }
{
    let copy = p.copy(alloc)?;
    let boxed = Box::new(alloc, copy)?;
    Ok(boxed)
}

/// A copy of each term.
#[cycle(copy)]
pub fn copy_terms(alloc: Global, terms: &[Term]) -> Mem<Vec<Term>>
    ensures { IfOk result (λ ts. map term ts.items ≡ map term terms.now) }
{
    let mut all = Vec::with_capacity(alloc, terms.len())?;
    for t in terms {
        all.push(t.copy(alloc)?)?;
    }
    Ok(all)
}

/// A copy of each formula.
#[cycle(copy)]
pub fn copy_formulas(alloc: Global, formulas: &[Formula]) -> Mem<Vec<Formula>>
    ensures { IfOk result (λ ps. map form ps.items ≡ map form formulas.now) }
{
    let mut all = Vec::with_capacity(alloc, formulas.len())?;
    for p in formulas {
        all.push(p.copy(alloc)?)?;
    }
    Ok(all)
}
