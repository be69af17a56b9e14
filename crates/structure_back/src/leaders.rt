// The leader of each term: the least term that the assignment calls equal to it. Since the true equations are an
// equivalence, the least left side of the true equations of a term is the least term of its class.
ghost use Rattle.std.specs.Prelude.{◌≡◌, ◌<◌, IfOk, length, map};
ghost use Rattle.ground_terms.specs.Same.{holds_in};
ghost use Rattle.ground_terms.specs.declared.atom.Atom.TheVariants.{Eq};
ghost use Rattle.structure_back.specs.Leaders.{IsOwn, AreOwn, AreReflexive, Lowers, AreLeaders};

use crate::per_sort::PerSort;
use base::Mem;
use fol_sig::Sort;
use ground_terms::{Assignment, Atom, atom_laws};
use std::alloc::Global;

/// The leaders of the terms, of which each sort has so many.
pub fn find_leaders(
    alloc: Global,
    sorts: u32,
    counts: &[u32],
    assignment: &Assignment,
) -> Mem<PerSort>
    requires sorts { length counts.now ≡ sorts }
    requires reflexive { AreReflexive counts.now (holds_in assignment.now) }
    ensures { IfOk result (AreLeaders counts.now (holds_in assignment.now)) }
{
    atom_laws();
    let mut leaders = own_leaders(alloc, sorts, counts)?;
    for atom in assignment.as_slice() {
        lower(counts, atom, &mut leaders);
    }
    Ok(leaders)
}

// Each term leads itself.
fn own_leaders(alloc: Global, sorts: u32, counts: &[u32]) -> Mem<PerSort>
    requires { length counts.now ≡ sorts }
    ensures { IfOk result (AreOwn counts.now) }
{
    let mut leaders = PerSort::new(alloc);
    for k in 0..sorts {
        leaders.push(own_row(alloc, counts[k as usize])?)?;
    }
    Ok(leaders)
}

fn own_row(alloc: Global, count: u32) -> Mem<Vec<u32>>
    ensures { IfOk result (λ row. IsOwn count row.items) }
{
    let mut row = Vec::new(alloc);
    for x in 0..count {
        row.push(x)?;
    }
    Ok(row)
}

// A true equation of a term with a lower one than its leader lowers the leader.
fn lower(counts: &[u32], atom: &Atom, leaders: &mut PerSort)
    requires { map length leaders.old ≡ counts.now }
    ensures { Lowers counts.now atom.now leaders.old leaders.new }
{
    if let Atom::Eq(sort, left, right) = atom {
        lower_one(counts, *sort, *left, *right, leaders);
    }
}

fn lower_one(counts: &[u32], sort: Sort, left: u32, right: u32, leaders: &mut PerSort)
    requires { map length leaders.old ≡ counts.now }
    ensures { Lowers counts.now (Eq sort left right) leaders.old leaders.new }
{
    if sort.0 as usize >= counts.len() {
        return;
    }
    if right >= counts[sort.0 as usize] {
        return;
    }
    if left < leaders.get(sort, right) {
        leaders.set(sort, right, left);
    }
}
