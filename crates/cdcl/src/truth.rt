// The truth values that a trail gives.
ghost use Rattle.std.specs.Prelude.{◌≡◌, ℕ, ◌*◌, ◌<◌, ◌≤◌, length, IfOk};
ghost use Rattle.cnf_base.specs.Formulas.{value_of};
ghost use Rattle.cdcl.specs.Trail.{is_set};

use crate::trail::Trail;
use base::Mem;
use cnf_base::Values;
use std::alloc::Global;

/// The truth value of each variable from 1 on; one that has no place is false.
pub fn truth_values(alloc: Global, trail: &Trail, variables: u32) -> Mem<Values>
    ensures len { IfOk result (λ v. length v ≡ variables) }
    ensures values { IfOk result (λ v. (i : ℕ) → 0 < i → i ≤ variables → 2 * i < trail.now.size
        → value_of v i ≡ is_set trail.now.steps (2 * i)) }
{
    let mut values = Values::all_false(alloc, variables);
    for index in 0..variables.min(trail.greatest()) {
        values.set(index + 1, trail.value(index + 1))?;
    }
    Ok(values)
}
