// The classes of equal terms, which are numbered in the order of their leaders.
ghost use Rattle.std.specs.Prelude.{◌≡◌, ◌<◌, ◌+◌, IfOk, OnOk, length, map, slice_index};
ghost use Rattle.structure_back.specs.Rows.{row_of};
ghost use Rattle.structure_back.specs.Classes.{IsLed, AreLed, IsNumbered, AreNumbered};

use crate::per_sort::PerSort;
use base::Mem;
use fol_sig::Sort;
use std::alloc::Global;

/// The class of each term, a member of each class, and how many classes each sort has.
#[derive(Drop)]
pub struct TermClasses {
    pub numbers: PerSort,
    pub members: PerSort,
    pub sizes: Vec<u32>,
}

/// The classes of the terms that have these leaders.
pub fn number_classes(
    alloc: Global,
    sorts: u32,
    counts: &[u32],
    leaders: &PerSort,
) -> Mem<TermClasses>
    requires sorts { length counts.now ≡ sorts }
    requires rows { map length leaders.now ≡ counts.now }
    requires led { AreLed leaders.now }
    ensures { IfOk result (λ made. AreNumbered leaders.now sorts made.sizes.items made.numbers made.members) }
{
    let mut numbers = PerSort::new(alloc);
    let mut members = PerSort::new(alloc);
    let mut sizes = Vec::new(alloc);
    for k in 0..sorts {
        let (row, led) = number_row(alloc, counts[k as usize], leaders.row(Sort(k)))?;
        sizes.push(led.len() as u32)?;
        numbers.push(row)?;
        members.push(led)?;
    }
    Ok(TermClasses {
        numbers,
        members,
        sizes,
    })
}

// The classes of a sort's terms, and the leader of each class.
fn number_row(alloc: Global, count: u32, leaders: &[u32]) -> Mem<(Vec<u32>, Vec<u32>)>
    requires count { length leaders.now ≡ count }
    requires led { IsLed leaders.now }
    ensures { IfOk result (λ made. IsNumbered leaders.now count made.0.items made.1.items) }
{
    let mut numbers = Vec::new(alloc);
    let mut members = Vec::new(alloc);
    for x in 0..count {
        number_term(x, leaders[x as usize], leaders, &mut numbers, &mut members)?;
    }
    Ok((numbers, members))
}

// A term that leads itself begins a class, and another is in the class of its leader.
fn number_term(
    x: u32,
    leader: u32,
    leaders: &[u32],
    numbers: &mut Vec<u32>,
    members: &mut Vec<u32>,
) -> Mem<()>
    requires within { x < length leaders.now }
    requires leader { leader ≡ slice_index leaders.now x }
    requires led { IsLed leaders.now }
    requires before { IsNumbered leaders.now x numbers.old.items members.old.items }
    ensures { OnOk result (IsNumbered leaders.now (x + 1) numbers.new.items members.new.items) }
{
    if leader == x {
        numbers.push(members.len() as u32)?;
        members.push(x)?;
    } else {
        let class = numbers[leader as usize];
        numbers.push(class)?;
    }
    Ok(())
}
