// Constants in the place of existential quantifiers: two side by side, one above a universal one.
ghost use Rattle.std.specs.Prelude.{◌≡◌, IfOk};
ghost use Rattle.fol_formula.specs.View.{form};
ghost use Rattle.show_replacing.specs.Samples.{one_relation, two_constants};

use crate::pooled::tell_node;
use base::Mem;
use fol_formula::{Formula, Normal, Sentence, Term};
use fol_pool::Pool;
use fol_sig::{RelId, Signature, Sort, Sorts};
use skolem::constants;
use std::alloc::Global;
use std::io;

// (exists x. r(x)) and (exists x. forall y. y = x)
fn sentence(alloc: Global) -> Mem<Formula>
    ensures { IfOk result (λ p. form p ≡ two_constants) }
{
    let mut args = Vec::new(alloc);
    args.push(Term::Bound(0))?;
    let left = Box::new(alloc, Formula::Rel(RelId(0), args))?;
    let equation = Box::new(alloc, Formula::Eq(Term::Bound(0), Term::Bound(1)))?;
    let right = Box::new(alloc, Formula::Forall(Sort(0), equation))?;
    let mut parts = Vec::new(alloc);
    parts.push(Formula::Exists(Sort(0), left))?;
    parts.push(Formula::Exists(Sort(0), right))?;
    Ok(Formula::And(parts))
}

// A sort, and a relation over it.
fn signature(alloc: Global) -> Mem<Signature>
    ensures { IfOk result (λ s. s ≡ one_relation) }
{
    let mut signature = Signature::empty(alloc);
    let sort = signature.add_sort();
    let mut args = Sorts::new(alloc);
    args.push(sort);
    match signature.add_relation(args) {
        Ok(_) => Ok(signature),
        Err(wanting) => {
            drop(signature);
            Err(wanting)
        }
    }
}

fn tell_made<R: Print>(rt: &R, alloc: Global, signature: &Signature) -> io::Result<()>
    requires { signature.now ≡ one_relation }
{
    let normal = Normal::new(Sentence::of(sentence(alloc)?));
    let made = constants(alloc, signature, &normal);
    drop(normal);
    let made = made?;
    let sorts = made.constants.as_slice();
    let functions = made.signature.function_count();
    let formula = made.sentence.sentence().formula();
    let told = println!(rt; "constants: of {sorts:?}, {functions} functions, {formula:?}");
    drop(made);
    told
}

// The same in a pool.
fn tell_pooled<R: Print>(
    rt: &R,
    alloc: Global,
    signature: &Signature,
    pool: &mut Pool,
) -> io::Result<()>
    requires { signature.now ≡ one_relation }
{
    let sentence = sentence(alloc)?;
    let taken = pool.take_in(&sentence);
    drop(sentence);
    let made = pool_skolem::constants(alloc, pool, signature, taken?)?;
    let told = tell_node(rt, alloc, "constants", pool, made.sentence);
    drop(made);
    told
}

fn tell_both<R: Print>(rt: &R, alloc: Global, signature: &Signature) -> io::Result<()>
    requires { signature.now ≡ one_relation }
{
    tell_made(rt, alloc, signature)?;
    let mut pool = Pool::new(alloc);
    let told = tell_pooled(rt, alloc, signature, &mut pool);
    drop(pool);
    told
}

pub fn tell<R: Print>(rt: &R, alloc: Global) -> io::Result<()> {
    let signature = signature(alloc)?;
    let told = tell_both(rt, alloc, &signature);
    drop(signature);
    told
}
