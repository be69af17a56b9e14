// A formula is copied, and its indices are changed on the way: they are shifted, or arguments stand in
// their places. What an index becomes is all in which the two differ, so they share one walk. The walk of
// a replacement (`change`) is another one: it changes its formula in place, begins with arguments and not
// with indices, and passes its measure along. An index that four bytes do not hold is taken for want of memory.
ghost use Rattle.std.specs.Prelude.{◌≡◌, ℕ, suc, IfOk, map};
ghost use Rattle.fol_formula.specs.View.{form, forms, term as term_view, terms as terms_view};
ghost use Rattle.fol_formula.specs.Syntax.{TermTree, bound};
ghost use Rattle.fol_subst.specs.Rules.{of_indices, form_by, forms_by, term_by, terms_by};
ghost use Rattle.fol_subst.specs.Shift.{raised};
ghost use Rattle.fol_subst.specs.Replace.{picked};

use base::Mem;
use fol_formula::{Formula, Term};
use std::alloc::{AllocError, Global};

// What an index under so many binders becomes.
pub trait Indices {
    ghost becomes: { Self → ℕ → ℕ → TermTree };

    fn index(&self, alloc: Global, i: u32, depth: u64) -> Mem<Term>
        ensures { IfOk result (λ t. term_view t ≡ becomes self.now depth i) };
}

// Each index that is bound outside is raised by so much.
#[derive(Clone, Copy)]
pub struct Shift {
    pub by: u64,
}

impl Indices for Shift {
    ghost becomes = { λ s depth i. bound (raised depth s.by i) };

    fn index(&self, _alloc: Global, i: u32, depth: u64) -> Mem<Term> {
        if (i as u64) < depth {
            return Ok(Term::Bound(i));
        }
        index_term((i as u64).saturating_add(self.by))
    }
}

// The arguments stand in the place of the indices that are bound outside, the nearest first. Each is taken
// under the binders there.
#[derive(Clone, Copy)]
pub struct Put<'a> {
    pub args: &'a [Term],
}

impl<'a> Indices for Put<'a> {
    ghost becomes = { λ s depth i. picked depth (map term_view s.args.now) i };

    fn index(&self, alloc: Global, i: u32, depth: u64) -> Mem<Term> {
        let index = i as u64;
        if index < depth {
            return Ok(Term::Bound(i));
        }
        let place = (index - depth) as usize;
        if place < self.args.len() {
            let t = copy_term(alloc, &self.args[place], &Shift { by: depth }, 0)?;
            return Ok(t);
        }
        let outside = index_term(index - self.args.len() as u64)?;
        Ok(outside)
    }
}

fn index_term(index: u64) -> Mem<Term>
    ensures { IfOk result (λ t. term_view t ≡ bound index) }
{
    if index > u32::MAX as u64 {
        return Err(AllocError);
    }
    Ok(Term::Bound(index as u32))
}

#[cycle(copy)]
pub fn copy_formula<R: Indices>(alloc: Global, p: &Formula, rule: &R, depth: u64) -> Mem<Formula>
    ensures { IfOk result (λ f. form f ≡ form_by (of_indices (R.becomes rule.now)) depth (form p.now)) }
{
    match p {
        Formula::True => Ok(Formula::True),
        Formula::False => Ok(Formula::False),
        Formula::Rel(q, args) => Ok(Formula::Rel(*q, copy_terms(alloc, args, rule, depth)?)),
        Formula::Eq(a, b) => {
            let a = copy_term(alloc, a, rule, depth)?;
            Ok(Formula::Eq(a, copy_term(alloc, b, rule, depth)?))
        }
        Formula::Not(p) => Ok(Formula::Not(copy_boxed(alloc, p, rule, depth)?)),
        Formula::And(ps) => Ok(Formula::And(copy_formulas(alloc, ps, rule, depth)?)),
        Formula::Or(ps) => Ok(Formula::Or(copy_formulas(alloc, ps, rule, depth)?)),
        Formula::Implies(p, q) => {
            let p = copy_boxed(alloc, p, rule, depth)?;
            Ok(Formula::Implies(p, copy_boxed(alloc, q, rule, depth)?))
        }
        Formula::Iff(p, q) => {
            let p = copy_boxed(alloc, p, rule, depth)?;
            Ok(Formula::Iff(p, copy_boxed(alloc, q, rule, depth)?))
        }
        Formula::Forall(k, p) => Ok(Formula::Forall(*k, copy_inside(alloc, p, rule, depth)?)),
        Formula::Exists(k, p) => Ok(Formula::Exists(*k, copy_inside(alloc, p, rule, depth)?)),
    }
}

#[cycle(copy)]
fn copy_boxed<R: Indices>(alloc: Global, p: &Formula, rule: &R, depth: u64) -> Mem<Box<Formula>>
    ensures { IfOk result (λ f. form f.value ≡ form_by (of_indices (R.becomes rule.now)) depth (form p.now)) }
{
    let p = copy_formula(alloc, p, rule, depth)?;
    Ok(Box::new(alloc, p)?)
}

// Under a binder.
#[cycle(copy)]
fn copy_inside<R: Indices>(alloc: Global, p: &Formula, rule: &R, depth: u64) -> Mem<Box<Formula>>
    ensures { IfOk result (λ f. form f.value ≡ form_by (of_indices (R.becomes rule.now)) (suc depth) (form p.now)) }
{
    let Some(inside) = depth.checked_add(1) else {
        return Err(AllocError);
    };
    let p = copy_boxed(alloc, p, rule, inside)?;
    Ok(p)
}

#[cycle(copy)]
fn copy_formulas<R: Indices>(
    alloc: Global,
    ps: &[Formula],
    rule: &R,
    depth: u64,
) -> Mem<Vec<Formula>>
    ensures { IfOk result (λ fs. forms fs.items ≡ forms_by (of_indices (R.becomes rule.now)) depth (forms ps.now)) }
{
    fol_formula::lists();
    let mut all = Vec::with_capacity(alloc, ps.len())?;
    for p in ps {
        all.push(copy_formula(alloc, p, rule, depth)?)?;
    }
    Ok(all)
}

#[cycle(copy)]
pub fn copy_term<R: Indices>(alloc: Global, t: &Term, rule: &R, depth: u64) -> Mem<Term>
    ensures { IfOk result (λ f. term_view f ≡ term_by (of_indices (R.becomes rule.now)) depth (term_view t.now)) }
{
    match t {
        Term::Bound(i) => rule.index(alloc, *i, depth),
        Term::App(f, args) => Ok(Term::App(*f, copy_terms(alloc, args, rule, depth)?)),
        Term::Ite(p, a, b) => {
            let p = copy_boxed(alloc, p, rule, depth)?;
            let a = copy_boxed_term(alloc, a, rule, depth)?;
            Ok(Term::Ite(p, a, copy_boxed_term(alloc, b, rule, depth)?))
        }
    }
}

#[cycle(copy)]
fn copy_boxed_term<R: Indices>(alloc: Global, t: &Term, rule: &R, depth: u64) -> Mem<Box<Term>>
    ensures { IfOk result (λ f. term_view f.value ≡ term_by (of_indices (R.becomes rule.now)) depth (term_view t.now)) }
{
    let t = copy_term(alloc, t, rule, depth)?;
    Ok(Box::new(alloc, t)?)
}

#[cycle(copy)]
fn copy_terms<R: Indices>(alloc: Global, ts: &[Term], rule: &R, depth: u64) -> Mem<Vec<Term>>
    ensures { IfOk result
        (λ fs. terms_view fs.items ≡ terms_by (of_indices (R.becomes rule.now)) depth (terms_view ts.now)) }
{
    fol_formula::lists();
    let mut all = Vec::with_capacity(alloc, ts.len())?;
    for t in ts {
        all.push(copy_term(alloc, t, rule, depth)?)?;
    }
    Ok(all)
}
