// Signatures, structures, the order of sorts, and ground terms.
ghost use Rattle.std.specs.Prelude.{◌≡◌, IfOk, OnOk};
ghost use Rattle.show_symbols.specs.Samples.{no_symbols, one_sort, two_sorts};

use base::{Mem, Refused};
use fol_sig::{
    FunId, RelId, Signature, Sort, Sorts, Structure, count_tuples, number_of_tuple, strata,
    tuple_of_number,
};
use ground_terms::Terms;
use std::alloc::Global;
use std::io;

fn declare(alloc: Global, signature: &mut Signature) -> Mem<()>
    requires { signature.old ≡ no_symbols }
    ensures { OnOk result (signature.new ≡ two_sorts) }
{
    let first = signature.add_sort();
    let second = signature.add_sort();
    let mut both = Sorts::new(alloc);
    both.push(first);
    both.push(second);
    signature.add_relation(both)?;
    let mut one = Sorts::new(alloc);
    one.push(first);
    signature.add_function(one, second)?;
    signature.add_function(Sorts::new(alloc), first)?;
    Ok(())
}

// Two sorts, a relation over both, a function from the first to the second, and a variable.
fn signature(alloc: Global) -> Mem<Signature>
    ensures { IfOk result (λ s. s ≡ two_sorts) }
{
    let mut signature = Signature::empty(alloc);
    match declare(alloc, &mut signature) {
        Ok(()) => Ok(signature),
        Err(wanting) => {
            drop(signature);
            Err(wanting)
        }
    }
}

fn signature_told<R: Print>(rt: &R, signature: &Signature) -> io::Result<()>
    requires { signature.now ≡ two_sorts }
{
    let (sorts, relations, functions) = (
        signature.sorts(),
        signature.relation_count(),
        signature.function_count(),
    );
    println!(rt; "Signature: {sorts} sorts, {relations} relation, {functions} functions")?;
    let over = signature.sorts_of(RelId(0));
    let from = signature.from_of(FunId(0));
    let into = signature.into_of(FunId(1));
    println!(rt; "  relation 0 over {over:?}, function 0 from {from:?}, function 1 into {into:?}")
}

fn tell_signature<R: Print>(rt: &R, alloc: Global, signature: &Signature) -> io::Result<()>
    requires { signature.now ≡ two_sorts }
{
    let copy = signature.copy(alloc)?;
    let told = signature_told(rt, &copy);
    drop(copy);
    told
}

fn tell_cells<R: Print>(rt: &R, alloc: Global, signature: &Signature) -> io::Result<()>
    requires { signature.now ≡ two_sorts }
{
    let mut structure = Structure::new(alloc, signature, &[2, 3])?;
    structure.set_rel(RelId(0), &[1, 2], true);
    structure.set_fun(FunId(0), &[1], 2);
    let copy = structure.copy(alloc);
    drop(structure);
    let structure = copy?;
    let size = structure.size(Sort(1));
    let (set, other) = (
        structure.rel(RelId(0), &[1, 2]),
        structure.rel(RelId(0), &[1, 1]),
    );
    let (value, blank) = (structure.fun(FunId(0), &[1]), structure.fun(FunId(0), &[0]));
    drop(structure);
    println!(rt;
        "Structure: size {size}; relation set {set}, elsewhere {other}; function set {value}, elsewhere {blank}"
    )
}

fn tell_tables<R: Print>(rt: &R, alloc: Global, signature: &Signature) -> io::Result<()>
    requires { signature.now ≡ two_sorts }
{
    let relation = vec![in alloc; false, false, true, false, false, false]?;
    let function = vec![in alloc; 2, 1]?;
    let mut structure = Structure::new(alloc, signature, &[2, 3])?;
    structure.set_relation_cells(RelId(0), relation);
    structure.set_function_cells(FunId(0), function);
    let third = structure.rel(RelId(0), &[0, 2]);
    let second = structure.fun(FunId(0), &[1]);
    drop(structure);
    println!(rt;
        "  in lexicographic order: the third cell at (0, 2) {third}, the second at (1) {second}"
    )
}

fn tell_strata<R: Print>(rt: &R, alloc: Global, signature: &Signature) -> io::Result<()> {
    match strata(alloc, signature) {
        Ok(strata) => {
            let order = strata.order();
            println!(rt; "strata: {order:?}")
        }
        Err(refused) => println!(rt; "strata: {refused:?}"),
    }
}

// A function from the second sort to the first closes a cycle, and so does one from the second to itself.
fn close_cycles(alloc: Global, signature: &mut Signature) -> Mem<()>
    requires { signature.old ≡ two_sorts }
{
    let mut one = Sorts::new(alloc);
    one.push(Sort(1));
    signature.add_function(one.copy(), Sort(0))?;
    signature.add_function(one, Sort(1))?;
    Ok(())
}

fn tell_cycle<R: Print>(rt: &R, alloc: Global, signature: &Signature) -> io::Result<()> {
    match strata(alloc, signature) {
        Err(Refused::For(cycle)) => println!(rt; "  with two more functions: {cycle:?}"),
        _ => println!(rt; "  with two more functions: no cycle"),
    }
}

// Over 3 terms of the first sort and 4 of the second.
fn tell_tuples<R: Print>(rt: &R, alloc: Global) -> io::Result<()> {
    let sorts = [Sort(0), Sort(1), Sort(0)];
    let count = count_tuples(&[3, 4], &sorts);
    let number = number_of_tuple(&[3, 4], &sorts, &[2, 1, 0]);
    let tuple = tuple_of_number(alloc, &[3, 4], &sorts, 27);
    let tuple = tuple.as_slice();
    println!(rt; "tuples: {count} in all, [2, 1, 0] is number {number}, number 27 is {tuple:?}")
}

// The terms of a sort without symbols.
fn tell_terms<R: Print>(rt: &R, alloc: Global, signature: &Signature) -> io::Result<()>
    requires { signature.now ≡ one_sort }
{
    let Ok(strata) = strata(alloc, signature) else {
        return Ok(());
    };
    let terms = Terms::new(alloc, signature, &strata);
    drop(strata);
    let terms = terms?;
    let counts = terms.counts();
    let of_sort = terms.of_sort(Sort(0)).len();
    let told = println!(rt; "Terms of a sort without symbols: counts {counts:?}, {of_sort} listed");
    drop(terms);
    told
}

fn tell_of<R: Print>(rt: &R, alloc: Global, signature: &Signature) -> io::Result<()>
    requires { signature.now ≡ two_sorts }
{
    tell_signature(rt, alloc, signature)?;
    tell_cells(rt, alloc, signature)?;
    tell_tables(rt, alloc, signature)?;
    tell_strata(rt, alloc, signature)
}

// What is told of the signature, and then of the same with two functions more.
fn tell_growing<R: Print>(rt: &R, alloc: Global, signature: &mut Signature) -> io::Result<()>
    requires { signature.old ≡ two_sorts }
{
    tell_of(rt, alloc, signature)?;
    close_cycles(alloc, signature)?;
    tell_cycle(rt, alloc, signature)
}

pub fn tell<R: Print>(rt: &R, alloc: Global) -> io::Result<()> {
    let mut signature = signature(alloc)?;
    let told = tell_growing(rt, alloc, &mut signature);
    drop(signature);
    told?;
    tell_tuples(rt, alloc)?;
    let mut lone = Signature::empty(alloc);
    lone.add_sort();
    let told = tell_terms(rt, alloc, &lone);
    drop(lone);
    told
}
