// The beginnings of walks. Walks share them, and most go on from one that no run takes: it is found once, as a walk of
// a lesser length, and of what begins with it nothing is decided any more.
ghost use Rattle.std.specs.Prelude.{◌≡◌, ◌++◌, true, List, IfOk};
ghost use Rattle.base.specs.Lists.{SomeOf};
ghost use Rattle.rml_command.specs.Paths.{has_abort};
ghost use Rattle.walks.specs.declared.leg.Leg.{Leg};
ghost use Rattle.walks.specs.Walks.{joined};
ghost use Rattle.walks.specs.Laws.{AreLegs, IsLeg};
ghost use Rattle.std.specs.List.{AllByRecursion};
ghost use Rattle.walk_model.specs.Laws.{HasNoOutcome};
ghost use Rattle.rml_bmc.specs.Infeasible.{AreInfeasible, IsKnown};

use crate::deciding::{Known, is_infeasible};
use base::{Mem, Row};
use lean_decide::Counted;
use limits::Limits;
use rml_command::Checked;
use std::alloc::Global;
use walk_model::path_of;
use walks::Leg;

/// Whether the joined paths end in abort.
pub fn aborts(checked: &Checked, legs: &[Leg]) -> bool
    requires { AllByRecursion (IsLeg checked.now) legs.now }
    ensures { result ≡ has_abort (joined checked.now legs.now) }
{
    let mut rest = legs;
    while let [leg, after @ ..] = rest {
        if path_of(checked, leg).has_abort() {
            return true;
        }
        rest = after;
    }
    false
}

// Whether a walk begins with one of these.
fn begins_with_one(walks: &[Row<Leg>], legs: &[Leg]) -> bool
    ensures { result ≡ true → SomeOf (λ walk. (more : List Leg) × (legs.now ≡ walk ++ more)) walks.now }
{
    let mut rest = walks;
    while let [walk, after @ ..] = rest {
        if legs.starts_with(walk.as_slice()) {
            return true;
        }
        rest = after;
    }
    false
}

/// What is known of a walk: that it begins with one of those that were found to be infeasible, or is found to be, and
/// is one of them from now on; or nothing.
pub fn look_at(
    alloc: Global,
    checked: &Checked,
    legs: &[Leg],
    counted: Counted,
    limits: &Limits,
    infeasible: &mut Row<Row<Leg>>,
) -> Mem<Known>
    requires legs { AreLegs checked.now legs.now }
    requires before { AreInfeasible checked.now infeasible.old }
    ensures known { IfOk result (IsKnown checked.now legs.now) }
    ensures after { AreInfeasible checked.now infeasible.new }
{
    if begins_with_one(infeasible.as_slice(), legs) {
        return Ok(Known::Infeasible);
    }
    if aborts(checked, legs) || !is_infeasible(alloc, checked, legs, counted, limits)? {
        return Ok(Known::Nothing);
    }
    let walk = legs.to_vec(alloc)?;
    infeasible.push(Row::from_vec(walk))?;
    Ok(Known::Infeasible)
}
