// The groups of a model, in order.
ghost use Rattle.std.specs.Prelude.{◌≡◌, ◌<◌, ℕ, length};
ghost use Rattle.rml_command.specs.Goals.{HasAbout};

use crate::telling::push_carried;
use base::{Mem, push_text};
use limits::Limits;
use rml_command::{About, Checked, Stage};
use rml_reasons::carried_by;
use rml_report::push_head;
use std::alloc::Global;

fn conjecture_count(checked: &Checked) -> u32
    ensures { result ≡ length checked.now.conjectures }
{
    checked.model().conjectures().len() as u32
}

// The first line stands behind two blanks already.
fn begin_line(out: &mut Vec<u8>) -> Mem<()> {
    if out.is_empty() {
        Ok(())
    } else {
        push_text(out, "\n  ")
    }
}

fn push_group(
    alloc: Global,
    out: &mut Vec<u8>,
    checked: &Checked,
    stage: Stage,
    about: About,
    limits: &Limits,
) -> Mem<()>
    requires { HasAbout checked.now stage about }
{
    let names = checked.model().names();
    begin_line(out)?;
    push_head(out, names, stage, about)?;
    let carried = carried_by(alloc, checked, stage, about, limits)?;
    let pushed = push_carried(out, names, &carried);
    drop(carried);
    pushed
}

// The groups of init or an action.
fn push_stage(
    alloc: Global,
    out: &mut Vec<u8>,
    checked: &Checked,
    stage: Stage,
    limits: &Limits,
) -> Mem<()>
    requires abort { HasAbout checked.now stage About.Abort }
    requires conjectures { (k : ℕ) → k < length checked.now.conjectures
        → HasAbout checked.now stage (About.Conjecture k) }
{
    push_group(alloc, out, checked, stage, About::Abort, limits)?;
    for k in 0..conjecture_count(checked) {
        push_group(alloc, out, checked, stage, About::Conjecture(k), limits)?;
    }
    Ok(())
}

/// What carries each group, on lines of its own.
pub fn told(alloc: Global, checked: &Checked, limits: &Limits) -> Mem<Vec<u8>> {
    let mut out = Vec::new(alloc);
    push_stage(alloc, &mut out, checked, Stage::Init, limits)?;
    for a in 0..checked.model().actions().len() as u32 {
        push_stage(alloc, &mut out, checked, Stage::Action(a), limits)?;
    }
    push_group(alloc, &mut out, checked, Stage::Final, About::Abort, limits)?;
    Ok(out)
}
