// Replacement of a symbol, and shifting. Over one sort, with a relation r, a variable v and a function f.
ghost use Rattle.std.specs.Prelude.{◌≡◌, IfOk};
ghost use Rattle.fol_formula.specs.View.{form, term as term_view};
ghost use Rattle.show_replacing.specs.Samples.{grown, shadowed, image, image_twice, fixed_point};

use base::{Mem, Refused};
use fol_formula::{Formula, Term};
use fol_sig::{FunId, RelId, Sort};
use fol_subst::{Counted, FormulaLimit, replace_const, replace_fun, replace_rel, shift};
use std::alloc::Global;
use std::io;

const SORT: Sort = Sort(0);

pub const R: RelId = RelId(0);

pub const V: FunId = FunId(0);

pub const F: FunId = FunId(1);

// r(x) or x = v, for the nearest variable x
pub fn grown(alloc: Global) -> Mem<Formula>
    ensures { IfOk result (λ p. form p ≡ grown) }
{
    let mut args = Vec::new(alloc);
    args.push(Term::Bound(0))?;
    let mut parts = Vec::new(alloc);
    parts.push(Formula::Rel(R, args))?;
    parts.push(Formula::Eq(Term::Bound(0), Term::App(V, Vec::new(alloc))))?;
    Ok(Formula::Or(parts))
}

// forall x. exists x. r(x) or x = v
pub fn shadowed(alloc: Global) -> Mem<Formula>
    ensures { IfOk result (λ p. form p ≡ shadowed) }
{
    let inner = Box::new(alloc, grown(alloc)?)?;
    let exists = Box::new(alloc, Formula::Exists(SORT, inner))?;
    Ok(Formula::Forall(SORT, exists))
}

// f(x)
pub fn image(alloc: Global) -> Mem<Term>
    ensures { IfOk result (λ t. term_view t ≡ image) }
{
    let mut args = Vec::new(alloc);
    args.push(Term::Bound(0))?;
    Ok(Term::App(F, args))
}

// f(x) = x
pub fn fixed_point(alloc: Global) -> Mem<Formula>
    ensures { IfOk result (λ p. form p ≡ fixed_point) }
{
    Ok(Formula::Eq(image(alloc)?, Term::Bound(0)))
}

// f(f(x))
pub fn twice(alloc: Global) -> Mem<Term>
    ensures { IfOk result (λ t. term_view t ≡ image_twice) }
{
    let mut args = Vec::new(alloc);
    args.push(image(alloc)?)?;
    Ok(Term::App(F, args))
}

fn tell_replaced<P: Print>(
    rt: &P,
    call: &str,
    replaced: Result<Counted, Refused<FormulaLimit>>,
) -> io::Result<()> {
    match replaced {
        Ok(counted) => {
            let told = println!(rt; "{call}: {:?}", counted.formula);
            drop(counted);
            told
        }
        Err(refused) => println!(rt; "{call}: {refused:?}"),
    }
}

fn tell_variable<P: Print>(rt: &P, alloc: Global) -> io::Result<()> {
    let replaced = replace_const(alloc, shadowed(alloc)?, V, 0);
    tell_replaced(rt, "replace_const", replaced)
}

fn tell_relation<P: Print>(rt: &P, alloc: Global, change: &Formula) -> io::Result<()>
    requires { form change.now ≡ grown }
{
    let replaced = replace_rel(alloc, grown(alloc)?, R, change);
    tell_replaced(rt, "replace_rel", replaced)
}

fn tell_function<P: Print>(rt: &P, alloc: Global, change: &Term) -> io::Result<()>
    requires { term_view change.now ≡ image_twice }
{
    let replaced = replace_fun(alloc, fixed_point(alloc)?, F, change);
    tell_replaced(rt, "replace_fun", replaced)
}

fn tell_shift<P: Print>(rt: &P, alloc: Global, formula: &Formula) -> io::Result<()>
    requires { form formula.now ≡ grown }
{
    match shift(alloc, formula, 0, 2) {
        Ok(formula) => {
            let told = println!(rt; "shift: {formula:?}");
            drop(formula);
            told
        }
        Err(refused) => println!(rt; "shift: {refused:?}"),
    }
}

fn tell_of_formula<P: Print>(rt: &P, alloc: Global, formula: &Formula) -> io::Result<()>
    requires { form formula.now ≡ grown }
{
    tell_relation(rt, alloc, formula)?;
    tell_shift(rt, alloc, formula)
}

pub fn tell<P: Print>(rt: &P, alloc: Global) -> io::Result<()> {
    tell_variable(rt, alloc)?;
    let twice = twice(alloc)?;
    let told = tell_function(rt, alloc, &twice);
    drop(twice);
    told?;
    let formula = grown(alloc)?;
    let told = tell_of_formula(rt, alloc, &formula);
    drop(formula);
    told
}
