// The groups of a model in order, each with what carries it.
ghost use Rattle.std.specs.Prelude.{◌≡◌, map, IfOk};
ghost use Rattle.std.specs.List.{AllByRecursion};
ghost use Rattle.rml_command.specs.Goals.{HasAbout};
ghost use Rattle.limits.specs.Ceilings.{ceilings};
ghost use Rattle.model_reasons.specs.Reasons.{head_of, IsCarriedSo, AreReasons};

use crate::reason::Reason;
use base::{Mem, Row};
use limits::Limits;
use progress::{Progress, Work};
use rml_command::{Checked, Head, goal_law, heads};
use rml_reasons::carried_by;
use std::alloc::Global;

// A group with what carries it.
fn reason(alloc: Global, checked: &Checked, limits: &Limits, head: Head) -> Mem<Reason>
    requires { HasAbout checked.now head.stage head.about }
    ensures head { IfOk result (λ r. head_of r ≡ head) }
    ensures carried { IfOk result (IsCarriedSo (ceilings limits.now) checked.now) }
{
    let Head { stage, about } = head;
    let carried = carried_by(alloc, checked, stage, about, limits)?;
    Ok(Reason {
        stage,
        about,
        carried,
    })
}

// The groups of these heads, each with what carries it.
fn all_reasons<P: Progress>(
    alloc: Global,
    checked: &Checked,
    limits: &Limits,
    heads: &[Head],
    progress: &mut P,
) -> Mem<Vec<Reason>>
    requires { AllByRecursion (λ h. HasAbout checked.now h.stage h.about) heads.now }
    ensures heads { IfOk result (λ rs. map head_of rs.items ≡ heads.now) }
    ensures carried { IfOk result (λ rs. AllByRecursion (IsCarriedSo (ceilings limits.now) checked.now) rs.items) }
{
    let mut reasons = Vec::new(alloc);
    for head in heads {
        reasons.push(reason(alloc, checked, limits, *head)?)?;
        progress.tell(Work::Groups, reasons.len() as u64, heads.len() as u64);
    }
    Ok(reasons)
}

/// Which conjectures carry each group of the model, none of which can be left out, or what it lacks even where all are
/// held. The listener is told how many groups are done, behind each.
pub fn reasons<P: Progress>(
    alloc: Global,
    checked: &Checked,
    limits: &Limits,
    progress: &mut P,
) -> Mem<Row<Reason>>
    ensures { IfOk result (AreReasons (ceilings limits.now) checked.now) }
{
    goal_law();
    let heads = heads(alloc, checked)?;
    let reasons = all_reasons(alloc, checked, limits, &heads, progress)?;
    Ok(Row::from_vec(reasons))
}
