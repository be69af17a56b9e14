// Sets of conjectures, told by their numbers.
ghost use Rattle.std.specs.Prelude.{◌≡◌, ◌==◌, not, true, length, IfOk};
ghost use Rattle.std.specs.List.{filter};
ghost use Rattle.base.specs.Lists.{count_from};
ghost use Rattle.rml_command.specs.InductiveSets.{IsWithin};

use base::Mem;
use rml_command::Checked;
use std::alloc::Global;

/// All conjectures of a model, by their numbers.
pub fn all_conjectures(alloc: Global, checked: &Checked) -> Mem<Vec<u32>>
    ensures { IfOk result (λ all. all.items ≡ count_from 0 (length checked.now.conjectures)) }
{
    let count = checked.model().conjectures().len() as u32;
    let mut all = Vec::with_capacity(alloc, count as usize)?;
    for k in 0..count {
        all.push(k)?;
    }
    Ok(all)
}

/// The numbers but this one.
pub fn without(alloc: Global, numbers: &[u32], number: u32) -> Mem<Vec<u32>>
    ensures { IfOk result (λ left. left.items ≡ filter (λ k. not (number == k)) numbers.now) }
{
    let mut left = Vec::with_capacity(alloc, numbers.len())?;
    for k in numbers {
        if number != *k {
            left.push(*k)?;
        }
    }
    Ok(left)
}

/// Whether each of the numbers is one of the others.
pub fn are_within(numbers: &[u32], others: &[u32]) -> bool
    ensures { result ≡ true → IsWithin numbers.now others.now }
{
    for number in numbers {
        if !others.contains(number) {
            return false;
        }
    }
    true
}

/// Those of the others that are among the numbers.
pub fn common(alloc: Global, numbers: &[u32], others: &[u32]) -> Mem<Vec<u32>>
    ensures { IfOk result (λ both. IsWithin both.items others.now) }
{
    let mut both = Vec::new(alloc);
    for number in others {
        if numbers.contains(number) {
            both.push(*number)?;
        }
    }
    Ok(both)
}
