// The same in a pool: each formula is taken in, changed there, and written out again. Here also the normal form, of a
// negation and of an atom with `Ite`.
ghost use Rattle.fol_pool.specs.Trees.{HasForm};

use crate::replacing::{F, R, V, fixed_point, grown, image, shadowed, twice};
use base::Mem;
use fol_formula::{Formula, Term};
use fol_pool::{Node, Pool};
use pool_nnf::normal;
use pool_subst::{Replacement, replace, shift};
use std::alloc::Global;
use std::io;

// not forall x. exists x. r(x) or x = v
fn never_shadowed(alloc: Global) -> Mem<Formula> {
    let inner = Box::new(alloc, shadowed(alloc)?)?;
    Ok(Formula::Not(inner))
}

// (f(x) if r(x), else x) = v
fn chosen(alloc: Global) -> Mem<Formula> {
    let mut args = Vec::new(alloc);
    args.push(Term::Bound(0))?;
    let condition = Box::new(alloc, Formula::Rel(R, args))?;
    let first = Box::new(alloc, image(alloc)?)?;
    let second = Box::new(alloc, Term::Bound(0))?;
    Ok(Formula::Eq(
        Term::Ite(condition, first, second),
        Term::App(V, Vec::new(alloc)),
    ))
}

/// Prints the formula of a node behind the name of a call.
pub fn tell_node<P: Print>(
    rt: &P,
    alloc: Global,
    call: &str,
    pool: &Pool,
    node: Node,
) -> io::Result<()>
    requires { HasForm pool.now node.0 }
{
    let formula = pool.formula(alloc, node)?;
    let told = println!(rt; "{call} in a pool: {formula:?}");
    drop(formula);
    told
}

fn tell_variable<P: Print>(
    rt: &P,
    alloc: Global,
    pool: &mut Pool,
    formula: &Formula,
) -> io::Result<()> {
    let within = pool.take_in(formula)?;
    let node = replace(alloc, pool, within, Replacement::Const(V, 0))?;
    tell_node(rt, alloc, "replace_const", pool, node)
}

fn tell_function<P: Print>(
    rt: &P,
    alloc: Global,
    pool: &mut Pool,
    formula: &Formula,
    by: &Term,
) -> io::Result<()> {
    let by = pool.take_term(by)?;
    let within = pool.take_in(formula)?;
    let node = replace(alloc, pool, within, Replacement::Fun(F, by))?;
    tell_node(rt, alloc, "replace_fun", pool, node)
}

fn tell_relation<P: Print>(
    rt: &P,
    alloc: Global,
    pool: &mut Pool,
    formula: &Formula,
) -> io::Result<()> {
    let within = pool.take_in(formula)?;
    let node = replace(alloc, pool, within, Replacement::Rel(R, within))?;
    tell_node(rt, alloc, "replace_rel", pool, node)
}

fn tell_shift<P: Print>(
    rt: &P,
    alloc: Global,
    pool: &mut Pool,
    formula: &Formula,
) -> io::Result<()> {
    let within = pool.take_in(formula)?;
    let node = shift(alloc, pool, within, 0, 2)?;
    tell_node(rt, alloc, "shift", pool, node)
}

fn tell_normal<P: Print>(
    rt: &P,
    alloc: Global,
    pool: &mut Pool,
    formula: &Formula,
) -> io::Result<()> {
    let at = pool.take_in(formula)?;
    let node = normal(alloc, pool, at)?;
    tell_node(rt, alloc, "normal", pool, node)
}

// A formula that a call is told of, and ends behind it.
fn tell_of<P: Print>(
    rt: &P,
    alloc: Global,
    pool: &mut Pool,
    formula: Mem<Formula>,
    tell: Told,
) -> io::Result<()> {
    let formula = formula?;
    let told = match tell {
        Told::Variable => tell_variable(rt, alloc, pool, &formula),
        Told::Relation => tell_relation(rt, alloc, pool, &formula),
        Told::Shift => tell_shift(rt, alloc, pool, &formula),
        Told::Normal => tell_normal(rt, alloc, pool, &formula),
    };
    drop(formula);
    told
}

// What is told of a formula.
#[derive(Clone, Copy)]
enum Told {
    Variable,
    Relation,
    Shift,
    Normal,
}

fn tell_image<P: Print>(rt: &P, alloc: Global, pool: &mut Pool, by: &Term) -> io::Result<()> {
    let formula = fixed_point(alloc)?;
    let told = tell_function(rt, alloc, pool, &formula, by);
    drop(formula);
    told
}

fn tell_all<P: Print>(rt: &P, alloc: Global, pool: &mut Pool) -> io::Result<()> {
    tell_of(rt, alloc, pool, shadowed(alloc), Told::Variable)?;
    let twice = twice(alloc)?;
    let told = tell_image(rt, alloc, pool, &twice);
    drop(twice);
    told?;
    tell_of(rt, alloc, pool, grown(alloc), Told::Relation)?;
    tell_of(rt, alloc, pool, grown(alloc), Told::Shift)?;
    tell_of(rt, alloc, pool, never_shadowed(alloc), Told::Normal)?;
    tell_of(rt, alloc, pool, chosen(alloc), Told::Normal)
}

pub fn tell<P: Print>(rt: &P, alloc: Global) -> io::Result<()> {
    let mut pool = Pool::new(alloc);
    let told = tell_all(rt, alloc, &mut pool);
    drop(pool);
    told
}
