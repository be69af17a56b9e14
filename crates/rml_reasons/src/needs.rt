// What a group lacks where some conjectures are held, and without each one of them.
ghost use Rattle.std.specs.Prelude.{◌≡◌, ◌<◌, length, true, All, IfOk};
ghost use Rattle.rml_command.specs.Goals.{HasAbout};
ghost use Rattle.limits.specs.Ceilings.{ceilings};
ghost use Rattle.rml_reasons.specs.Reasons.{IsReason};
ghost use Rattle.rml_reasons.specs.Shrinking.{HasLack, IsJudged};

use crate::reason::{Lack, Need};
use base::{Mem, Row};
use lean_decide::Counted;
use limits::Limits;
use rml_command::{About, Checked, Stage};
use rml_houdini::{Round, decide_group, without};
use std::alloc::Global;

/// What is found where each of some conjectures is left out by itself.
#[derive(Drop)]
pub enum Judged {
    /// None can be.
    Needed(Row<Need>),
    /// The others carry the group without this one.
    Superfluous(u32),
}

/// What the group lacks where these are held; where they carry it, nothing.
pub fn lack_of(
    alloc: Global,
    checked: &Checked,
    stage: Stage,
    about: About,
    held: &[u32],
    limits: &Limits,
) -> Mem<Option<Lack>>
    requires held { All (λ k. k < length checked.now.conjectures) held.now }
    requires about { HasAbout checked.now stage about }
    ensures { IfOk result
        (HasLack (ceilings limits.now) checked.now (record { stage = stage; about = about }) held.now) }
{
    match decide_group(alloc, checked, Counted::Whole, held, limits, stage, about)? {
        Round::Fails(shown) => Ok(Some(Lack::Fails(shown))),
        Round::Passes(None) => Ok(None),
        Round::Passes(Some((goal, cause))) => Ok(Some(Lack::Open(goal, cause))),
    }
}

/// Whether these carry the group. What it lacks is not told.
pub fn carries(
    alloc: Global,
    checked: &Checked,
    stage: Stage,
    about: About,
    held: &[u32],
    limits: &Limits,
) -> Mem<bool>
    requires held { All (λ k. k < length checked.now.conjectures) held.now }
    requires about { HasAbout checked.now stage about }
    ensures { IfOk result (λ yes. yes ≡ true
        → IsReason (ceilings limits.now) checked.now (record { stage = stage; about = about }) held.now) }
{
    match lack_of(alloc, checked, stage, about, held, limits)? {
        None => Ok(true),
        Some(_) => Ok(false),
    }
}

/// What the group lacks without each of these, up to the first that can be left out.
pub fn judge(
    alloc: Global,
    checked: &Checked,
    stage: Stage,
    about: About,
    held: &[u32],
    limits: &Limits,
) -> Mem<Judged>
    requires held { All (λ k. k < length checked.now.conjectures) held.now }
    requires about { HasAbout checked.now stage about }
    ensures { IfOk result
        (IsJudged (ceilings limits.now) checked.now (record { stage = stage; about = about }) held.now) }
{
    let mut needs = Vec::new(alloc);
    for k in held {
        let conjecture = *k;
        let fewer = without(alloc, held, conjecture)?;
        match lack_of(alloc, checked, stage, about, &fewer, limits)? {
            None => return Ok(Judged::Superfluous(conjecture)),
            Some(lack) => needs.push(Need { conjecture, lack })?,
        }
    }
    Ok(Judged::Needed(Row::from_vec(needs)))
}
