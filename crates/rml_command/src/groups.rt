// The groups of a model's goals in order, each by its head, and which paths are goals of a group. Whoever goes through
// all groups goes along this list.
ghost use Rattle.std.specs.Prelude.{◌≡◌, ◌++◌, IfOk, OnOk};
ghost use Rattle.rml_command.specs.Goals.{is_for, stage_groups, groups_of};

use crate::checked::Checked;
use crate::goal::{About, Head, Stage};
use crate::path::Path;
use base::Mem;
use std::alloc::Global;

/// Whether a path is a goal of what is forbidden: of an abort, if it ends in one, else of a conjecture.
pub fn is_for(about: About, path: &Path) -> bool
    ensures { result ≡ is_for about path.now }
{
    match about {
        About::Abort => path.has_abort(),
        About::Conjecture(_) => !path.has_abort(),
    }
}

// Adds the groups of init or an action: abort, and each conjecture.
fn push_stage(heads: &mut Vec<Head>, checked: &Checked, stage: Stage) -> Mem<()>
    ensures { OnOk result (heads.new.items ≡ heads.old.items ++ stage_groups checked.now stage) }
{
    heads.push(Head {
        stage,
        about: About::Abort,
    })?;
    let count = checked.model().conjectures().len() as u32;
    for k in 0..count {
        let about = About::Conjecture(k);
        heads.push(Head { stage, about })?;
    }
    Ok(())
}

/// The groups of the model's goals: those of init, those of each action, and that of final.
pub fn heads(alloc: Global, checked: &Checked) -> Mem<Vec<Head>>
    ensures { IfOk result (λ hs. hs.items ≡ groups_of checked.now) }
{
    let mut heads = Vec::new(alloc);
    push_stage(&mut heads, checked, Stage::Init)?;
    let count = checked.model().actions().len() as u32;
    for a in 0..count {
        push_stage(&mut heads, checked, Stage::Action(a))?;
    }
    heads.push(Head {
        stage: Stage::Final,
        about: About::Abort,
    })?;
    Ok(heads)
}
