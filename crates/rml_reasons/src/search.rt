// Conjectures are left out one after another. What is tried first only saves time: that none of the rest can be left
// out is decided at the end.
ghost use Rattle.std.specs.Prelude.{IfOk, IfSome};
ghost use Rattle.rml_command.specs.Goals.{HasAbout};
ghost use Rattle.limits.specs.Ceilings.{ceilings};
ghost use Rattle.rml_reasons.specs.Reasons.{IsCarried};
ghost use Rattle.rml_reasons.specs.Shrinking.{Carry};

use crate::needs::{Judged, carries, judge, lack_of};
use crate::reason::Carried;
use base::Mem;
use limits::Limits;
use rml_command::{About, Checked, Stage};
use rml_houdini::{all_conjectures, without};
use std::alloc::Global;

// No conjecture, or the group's own, where this carries the group: so it is where the stage leaves alone what the
// conjecture speaks of.
fn short_list(
    alloc: Global,
    checked: &Checked,
    stage: Stage,
    about: About,
    limits: &Limits,
) -> Mem<Option<Vec<u32>>>
    requires { HasAbout checked.now stage about }
    ensures { IfOk result (λ found. IfSome found (λ held.
        Carry (ceilings limits.now) checked.now (record { stage = stage; about = about }) held.items)) }
{
    let mut held = Vec::new(alloc);
    if carries(alloc, checked, stage, about, &held, limits)? {
        return Ok(Some(held));
    }
    if let About::Conjecture(own) = about {
        held.push(own)?;
        if carries(alloc, checked, stage, about, &held, limits)? {
            return Ok(Some(held));
        }
    }
    Ok(None)
}

// Leaves out this one, where the rest carries the group.
fn try_without(
    alloc: Global,
    checked: &Checked,
    stage: Stage,
    about: About,
    held: Vec<u32>,
    conjecture: u32,
    limits: &Limits,
) -> Mem<Vec<u32>>
    requires about { HasAbout checked.now stage about }
    requires held { Carry (ceilings limits.now) checked.now (record { stage = stage; about = about }) held.items }
    ensures { IfOk result (λ left.
        Carry (ceilings limits.now) checked.now (record { stage = stage; about = about }) left.items) }
{
    let fewer = without(alloc, &held, conjecture)?;
    if carries(alloc, checked, stage, about, &fewer, limits)? {
        Ok(fewer)
    } else {
        Ok(held)
    }
}

// Leaves out one after another where the rest carries the group.
fn shrink(
    alloc: Global,
    checked: &Checked,
    stage: Stage,
    about: About,
    held: &[u32],
    limits: &Limits,
) -> Mem<Vec<u32>>
    requires about { HasAbout checked.now stage about }
    requires held { Carry (ceilings limits.now) checked.now (record { stage = stage; about = about }) held.now }
    ensures { IfOk result (λ left.
        Carry (ceilings limits.now) checked.now (record { stage = stage; about = about }) left.items) }
{
    let mut left = Vec::with_capacity(alloc, held.len())?;
    left.extend_from_slice(held)?;
    for conjecture in held {
        left = try_without(alloc, checked, stage, about, left, *conjecture, limits)?;
    }
    Ok(left)
}

// Leaves out what can be, until nothing can.
fn least_list(
    alloc: Global,
    checked: &Checked,
    stage: Stage,
    about: About,
    held: &[u32],
    limits: &Limits,
) -> Mem<Carried>
    requires about { HasAbout checked.now stage about }
    requires held { Carry (ceilings limits.now) checked.now (record { stage = stage; about = about }) held.now }
    ensures { IfOk result (IsCarried (ceilings limits.now) checked.now (record { stage = stage; about = about })) }
{
    let mut held = shrink(alloc, checked, stage, about, held, limits)?;
    loop {
        match judge(alloc, checked, stage, about, &held, limits)? {
            Judged::Needed(needs) => return Ok(Carried::By(needs)),
            Judged::Superfluous(conjecture) => {
                let left = without(alloc, &held, conjecture)?;
                held = left;
            }
        }
    }
}

// The same, where no short list was found.
fn carried_by_all(
    alloc: Global,
    checked: &Checked,
    stage: Stage,
    about: About,
    limits: &Limits,
) -> Mem<Carried>
    requires { HasAbout checked.now stage about }
    ensures { IfOk result (IsCarried (ceilings limits.now) checked.now (record { stage = stage; about = about })) }
{
    let all = all_conjectures(alloc, checked)?;
    match lack_of(alloc, checked, stage, about, &all, limits)? {
        Some(lack) => Ok(Carried::Not(lack)),
        None => least_list(alloc, checked, stage, about, &all, limits),
    }
}

/// Which conjectures carry a group of the model, none of which can be left out, or what the group lacks even where all
/// are held. Of several such lists one is told.
pub fn carried_by(
    alloc: Global,
    checked: &Checked,
    stage: Stage,
    about: About,
    limits: &Limits,
) -> Mem<Carried>
    requires { HasAbout checked.now stage about }
    ensures { IfOk result (IsCarried (ceilings limits.now) checked.now (record { stage = stage; about = about })) }
{
    match short_list(alloc, checked, stage, about, limits)? {
        Some(held) => least_list(alloc, checked, stage, about, &held, limits),
        None => carried_by_all(alloc, checked, stage, about, limits),
    }
}
