// The symbol is replaced, in the boxes and lists of the formula itself: what does not mention it is neither
// copied nor allocated anew. While a part is changed, `True` or the index 0 lies in its place.
ghost use Rattle.std.specs.Prelude.{◌≡◌, ◌+◌, ◌<◌, ◌≤◌, ◌^◌, suc, IfOk, length};
ghost use Rattle.fol_formula.specs.View.{form, forms, term as term_view, terms as terms_view};
ghost use Rattle.fol_formula.specs.Syntax.{rel as rel_tree, app as app_tree, size_of};
ghost use Rattle.fol_subst.specs.Replace.{changed_form, changed_forms, changed_term, changed_terms};
ghost use Rattle.fol_subst.specs.Room.{ReadyForm, ReadyForms, ReadyTerm, ReadyTerms, RoomForm, RoomForms, RoomTerm};
ghost use Rattle.fol_subst.specs.Room.{RoomTerms};
ghost use Rattle.fol_subst.specs.Changes.{change_of};
ghost use Rattle.fol_subst.specs.Measured.{Measures};
ghost use Rattle.fol_subst.specs.Kept.{kept, kept_one};
ghost use Rattle.fol_sig.specs.Arguments.{max_arguments};

use crate::indices::{Put, copy_formula, copy_term};
use crate::measure::Measure;
use crate::replacement::Replacement;
use base::Mem;
use fol_formula::{Formula, Term};
use fol_sig::{FunId, RelId};
use std::alloc::Global;
use std::mem::replace;

#[cycle(change)]
pub fn change_formula(
    alloc: Global,
    p: Formula,
    c: &Replacement,
    m: &Measure,
    depth: u64,
) -> Mem<Formula>
    requires measures { Measures m.now (change_of c.now) }
    requires ready { ReadyForm (change_of c.now) (form p) }
    requires room { RoomForm depth (changed_form (change_of c.now) depth (form p)) }
    ensures { IfOk result (λ f. form f ≡ changed_form (change_of c.now) depth (form p)) }
{
    match p {
        Formula::True => Ok(Formula::True),
        Formula::False => Ok(Formula::False),
        Formula::Rel(q, args) => change_atom(alloc, q, args, c, m, depth),
        Formula::Eq(a, b) => {
            let a = change_term(alloc, a, c, m, depth)?;
            Ok(Formula::Eq(a, change_term(alloc, b, c, m, depth)?))
        }
        Formula::Not(p) => Ok(Formula::Not(change_boxed(alloc, p, c, m, depth)?)),
        Formula::And(ps) => Ok(Formula::And(change_formulas(alloc, ps, c, m, depth)?)),
        Formula::Or(ps) => Ok(Formula::Or(change_formulas(alloc, ps, c, m, depth)?)),
        Formula::Implies(p, q) => {
            let p = change_boxed(alloc, p, c, m, depth)?;
            Ok(Formula::Implies(p, change_boxed(alloc, q, c, m, depth)?))
        }
        Formula::Iff(p, q) => {
            let p = change_boxed(alloc, p, c, m, depth)?;
            Ok(Formula::Iff(p, change_boxed(alloc, q, c, m, depth)?))
        }
        Formula::Forall(k, p) => Ok(Formula::Forall(k, change_boxed(alloc, p, c, m, depth + 1)?)),
        Formula::Exists(k, p) => Ok(Formula::Exists(k, change_boxed(alloc, p, c, m, depth + 1)?)),
    }
}

#[cycle(change)]
fn change_atom(
    alloc: Global,
    q: RelId,
    args: Vec<Term>,
    c: &Replacement,
    m: &Measure,
    depth: u64,
) -> Mem<Formula>
    requires measures { Measures m.now (change_of c.now) }
    requires ready { ReadyForm (change_of c.now) (rel_tree q.0 (terms_view args.items)) }
    requires room { RoomForm depth (changed_form (change_of c.now) depth (rel_tree q.0 (terms_view args.items))) }
    ensures { IfOk result (λ f. form f ≡ changed_form (change_of c.now) depth (rel_tree q.0 (terms_view args.items))) }
{
    fol_formula::lists();
    match c {
        Replacement::Rel(r, by) => {
            if q.0 == r.0 {
                let mut all = change_kept(alloc, args, c, m, depth)?;
                all.reverse();
                let f = copy_formula(alloc, by, &Put { args: &all }, 0)?;
                Ok(f)
            } else {
                Ok(Formula::Rel(q, change_terms(alloc, args, c, m, depth)?))
            }
        }
        Replacement::Fun(_, _) => Ok(Formula::Rel(q, change_terms(alloc, args, c, m, depth)?)),
        Replacement::Const(_, _) => Ok(Formula::Rel(q, change_terms(alloc, args, c, m, depth)?)),
    }
}

#[cycle(change)]
fn change_application(
    alloc: Global,
    f: FunId,
    args: Vec<Term>,
    c: &Replacement,
    m: &Measure,
    depth: u64,
) -> Mem<Term>
    requires measures { Measures m.now (change_of c.now) }
    requires ready { ReadyTerm (change_of c.now) (app_tree f.0 (terms_view args.items)) }
    requires room { RoomTerm depth (changed_term (change_of c.now) depth (app_tree f.0 (terms_view args.items))) }
    ensures { IfOk result
        (λ t. term_view t ≡ changed_term (change_of c.now) depth (app_tree f.0 (terms_view args.items))) }
{
    fol_formula::lists();
    match c {
        Replacement::Rel(_, _) => Ok(Term::App(f, change_terms(alloc, args, c, m, depth)?)),
        Replacement::Fun(g, by) => {
            if f.0 == g.0 {
                let mut kept = change_kept(alloc, args, c, m, depth)?;
                kept.reverse();
                let t = copy_term(alloc, by, &Put { args: &kept }, 0)?;
                Ok(t)
            } else {
                Ok(Term::App(f, change_terms(alloc, args, c, m, depth)?))
            }
        }
        Replacement::Const(g, index) => {
            if f.0 == g.0 {
                Ok(Term::Bound((depth + *index as u64) as u32))
            } else {
                Ok(Term::App(f, change_terms(alloc, args, c, m, depth)?))
            }
        }
    }
}

#[cycle(change)]
fn change_boxed(
    alloc: Global,
    mut p: Box<Formula>,
    c: &Replacement,
    m: &Measure,
    depth: u64,
) -> Mem<Box<Formula>>
    requires measures { Measures m.now (change_of c.now) }
    requires ready { ReadyForm (change_of c.now) (form p.value) }
    requires room { RoomForm depth (changed_form (change_of c.now) depth (form p.value)) }
    ensures { IfOk result (λ f. form f.value ≡ changed_form (change_of c.now) depth (form p.value)) }
{
    let inside = replace(&mut *p, Formula::True);
    *p = change_formula(alloc, inside, c, m, depth)?;
    Ok(p)
}

#[cycle(change)]
fn change_formulas(
    alloc: Global,
    mut ps: Vec<Formula>,
    c: &Replacement,
    m: &Measure,
    depth: u64,
) -> Mem<Vec<Formula>>
    requires measures { Measures m.now (change_of c.now) }
    requires ready { ReadyForms (change_of c.now) (forms ps.items) }
    requires room { RoomForms depth (changed_forms (change_of c.now) depth (forms ps.items)) }
    ensures { IfOk result (λ fs. forms fs.items ≡ changed_forms (change_of c.now) depth (forms ps.items)) }
{
    fol_formula::lists();
    for i in 0..ps.len() {
        let part = replace(&mut ps[i], Formula::True);
        ps[i] = change_formula(alloc, part, c, m, depth)?;
    }
    Ok(ps)
}

#[cycle(change)]
fn change_term(alloc: Global, t: Term, c: &Replacement, m: &Measure, depth: u64) -> Mem<Term>
    requires measures { Measures m.now (change_of c.now) }
    requires ready { ReadyTerm (change_of c.now) (term_view t) }
    requires room { RoomTerm depth (changed_term (change_of c.now) depth (term_view t)) }
    ensures { IfOk result (λ f. term_view f ≡ changed_term (change_of c.now) depth (term_view t)) }
{
    match t {
        Term::Bound(i) => Ok(Term::Bound(i)),
        Term::App(f, args) => change_application(alloc, f, args, c, m, depth),
        Term::Ite(p, a, b) => {
            let p = change_boxed(alloc, p, c, m, depth)?;
            let a = change_boxed_term(alloc, a, c, m, depth)?;
            Ok(Term::Ite(p, a, change_boxed_term(alloc, b, c, m, depth)?))
        }
    }
}

#[cycle(change)]
fn change_boxed_term(
    alloc: Global,
    mut t: Box<Term>,
    c: &Replacement,
    m: &Measure,
    depth: u64,
) -> Mem<Box<Term>>
    requires measures { Measures m.now (change_of c.now) }
    requires ready { ReadyTerm (change_of c.now) (term_view t.value) }
    requires room { RoomTerm depth (changed_term (change_of c.now) depth (term_view t.value)) }
    ensures { IfOk result (λ f. term_view f.value ≡ changed_term (change_of c.now) depth (term_view t.value)) }
{
    let inside = replace(&mut *t, Term::Bound(0));
    *t = change_term(alloc, inside, c, m, depth)?;
    Ok(t)
}

#[cycle(change)]
fn change_terms(
    alloc: Global,
    mut ts: Vec<Term>,
    c: &Replacement,
    m: &Measure,
    depth: u64,
) -> Mem<Vec<Term>>
    requires measures { Measures m.now (change_of c.now) }
    requires ready { ReadyTerms (change_of c.now) (terms_view ts.items) }
    requires room { RoomTerms depth (changed_terms (change_of c.now) depth (terms_view ts.items)) }
    ensures { IfOk result (λ fs. terms_view fs.items ≡ changed_terms (change_of c.now) depth (terms_view ts.items)) }
{
    fol_formula::lists();
    for i in 0..ts.len() {
        let part = replace(&mut ts[i], Term::Bound(0));
        ts[i] = change_term(alloc, part, c, m, depth)?;
    }
    Ok(ts)
}

// The arguments that stand in what replaces the symbol. One that does not stand there is not changed.
#[cycle(change)]
fn change_kept(
    alloc: Global,
    mut ts: Vec<Term>,
    c: &Replacement,
    m: &Measure,
    depth: u64,
) -> Mem<Vec<Term>>
    requires measures { Measures m.now (change_of c.now) }
    requires few { size_of (terms_view ts.items) ≤ max_arguments }
    requires ready { ReadyTerms (change_of c.now) (terms_view ts.items) }
    requires room { RoomTerms depth
        (kept (change_of c.now) (changed_terms (change_of c.now) depth (terms_view ts.items))) }
    ensures { IfOk result
        (λ fs. terms_view fs.items
        ≡ kept (change_of c.now) (changed_terms (change_of c.now) depth (terms_view ts.items))) }
{
    fol_formula::lists();
    let mut index = ts.len();
    for i in 0..ts.len() {
        index -= 1;
        let part = replace(&mut ts[i], Term::Bound(0));
        ts[i] = change_one(alloc, part, c, m, depth, index)?;
    }
    Ok(ts)
}

// The argument of the parameter with this index, if it stands in what replaces the symbol.
#[cycle(change)]
fn change_one(
    alloc: Global,
    t: Term,
    c: &Replacement,
    m: &Measure,
    depth: u64,
    index: usize,
) -> Mem<Term>
    requires measures { Measures m.now (change_of c.now) }
    requires few { index < max_arguments }
    requires ready { ReadyTerm (change_of c.now) (term_view t) }
    requires room { RoomTerm depth
        (kept_one (change_of c.now) index (changed_term (change_of c.now) depth (term_view t))) }
    ensures { IfOk result
        (λ f. term_view f ≡ kept_one (change_of c.now) index (changed_term (change_of c.now) depth (term_view t))) }
{
    if m.places[index].depth == 0 {
        Ok(Term::Bound(0))
    } else {
        change_term(alloc, t, c, m, depth)
    }
}
