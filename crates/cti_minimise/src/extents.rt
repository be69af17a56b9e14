// What counterexamples are compared by: the sizes of the sorts, and then of how many tuples each relation is true.
ghost use Rattle.std.specs.Prelude.{◌≡◌, ℕ, ◌<◌, ◌≤◌, ◌++◌, true, length, map, slice_index, IfOk, OnOk};
ghost use Rattle.fol_sig.specs.Tables.{relation_at};
ghost use Rattle.fol_sig.specs.Symbols.{FitsStructure, symbols};
ghost use Rattle.cti_minimise.specs.Extents.{true_tuples, extent, places, bound_place, HasBound};
ghost use Rattle.cti_minimise.specs.Extents.{lowest};
ghost use Rattle.cti_minimise.specs.Within.{numbers_within, AreAtMost};

use crate::bounds::Bounds;
use base::Mem;
use fol_sig::{RelId, Signature, Sort, Structure, table_len, tuple_laws, tuple_of_number};
use rml_report::Bound;
use std::alloc::Global;

/// The sizes of a structure's sorts, and then of how many tuples each of its relations is true.
pub fn extent(alloc: Global, signature: &Signature, structure: &Structure) -> Mem<Vec<u64>>
    requires { FitsStructure (symbols signature.now) structure.now }
    ensures { IfOk result (λ numbers. numbers.items ≡ extent structure.now) }
{
    let sizes = sizes(alloc, signature, structure)?;
    let mut numbers = Vec::new(alloc);
    for size in &sizes {
        numbers.push(*size as u64)?;
    }
    push_true_tuples(alloc, signature, structure, &sizes, &mut numbers)?;
    Ok(numbers)
}

// The sizes of the sorts.
fn sizes(alloc: Global, signature: &Signature, structure: &Structure) -> Mem<Vec<u32>>
    requires { FitsStructure (symbols signature.now) structure.now }
    ensures { IfOk result (λ sizes. sizes.items ≡ structure.now.sizes) }
{
    let mut sizes = Vec::new(alloc);
    for k in 0..signature.sorts() {
        sizes.push(structure.size(Sort(k)))?;
    }
    Ok(sizes)
}

// Pushes of how many tuples each relation is true.
fn push_true_tuples(
    alloc: Global,
    signature: &Signature,
    structure: &Structure,
    sizes: &[u32],
    numbers: &mut Vec<u64>,
) -> Mem<()>
    requires fits { FitsStructure (symbols signature.now) structure.now }
    requires sizes { sizes.now ≡ structure.now.sizes }
    ensures { OnOk result (numbers.new.items
        ≡ numbers.old.items ++ map (true_tuples structure.now.sizes) structure.now.relations) }
{
    for r in 0..signature.relation_count() {
        numbers.push(true_tuples(alloc, signature, structure, sizes, RelId(r))?)?;
    }
    Ok(())
}

// Of how many tuples a relation is true. They are taken by their numbers.
fn true_tuples(
    alloc: Global,
    signature: &Signature,
    structure: &Structure,
    sizes: &[u32],
    rel: RelId,
) -> Mem<u64>
    requires fits { FitsStructure (symbols signature.now) structure.now }
    requires sizes { sizes.now ≡ structure.now.sizes }
    requires rel { rel.0 < length signature.now.relations }
    ensures { IfOk result (λ n. n ≡ true_tuples structure.now.sizes (relation_at structure.now rel.0)) }
{
    tuple_laws();
    let sorts = signature.sorts_of(rel);
    let mut count = 0u64;
    for number in 0..table_len(sizes, sorts)? {
        let tuple = tuple_of_number(alloc, sizes, sorts, number);
        if structure.rel(rel, tuple.as_slice()) {
            count += 1;
        }
    }
    Ok(count)
}

/// How many numbers there are in an extent.
pub fn places(signature: &Signature) -> usize
    ensures { result ≡ places signature.now }
{
    signature.sorts() as usize + signature.relation_count() as usize
}

/// The least number that a structure may have at a place: a sort has an element, and a relation may be false.
pub fn lowest(signature: &Signature, place: usize) -> u64
    ensures { result ≡ lowest signature.now place }
{
    if place < signature.sorts() as usize {
        1
    } else {
        0
    }
}

/// What stands at a place.
pub fn bound_of(signature: &Signature, place: usize) -> Bound
    requires { place < places signature.now }
    ensures place { bound_place signature.now result ≡ place }
    ensures known { HasBound signature.now result }
{
    let sorts = signature.sorts() as usize;
    if place < sorts {
        Bound::Sort(Sort(place as u32))
    } else {
        Bound::Rel(RelId((place - sorts) as u32))
    }
}

/// Whether the first numbers of an extent are within bounds.
pub fn is_within(found: &[u64], bounds: &Bounds) -> bool
    requires { bounds.now.place ≤ length bounds.now.numbers.now }
    ensures { (result ≡ true) → AreAtMost found.now (numbers_within bounds.now) }
{
    if bounds.place >= found.len() || found[bounds.place] > bounds.most {
        return false;
    }
    let within = are_at_most(found, bounds.numbers, bounds.place);
    within
}

// Whether each of the first numbers is at most the other in its place.
fn are_at_most(found: &[u64], most: &[u64], count: usize) -> bool
    requires found { count ≤ length found.now }
    requires most { count ≤ length most.now }
    ensures { (result ≡ true) → (k : ℕ) → k < count → slice_index found.now k ≤ slice_index most.now k }
{
    for i in 0..count {
        if found[i] > most[i] {
            return false;
        }
    }
    true
}
