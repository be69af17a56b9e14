// The lines of the groups, and of the conjectures that carry no other.
ghost use Rattle.std.specs.Prelude.{◌≡◌, IfOk};
ghost use Rattle.std.specs.List.{flat_map};
ghost use Rattle.told_text.specs.Written.{Wrote};
ghost use Rattle.told_answers.specs.ReasonsText.{needs_text, carried_text, idle_words, idle_line};
ghost use Rattle.told_answers.specs.ReasonsText.{more_names, more_needs, reason_line, reasons_text};

use base::Mem;
use model_reasons::{Reason, are_carried, idle};
use rml_command::{Checked, Name, Names};
use rml_reasons::{Carried, Lack, Need};
use std::alloc::Global;
use told_report::push_open_at;
use told_states::{push_head, push_name};
use told_text::Text;

#[tactic(auto, using(std::proofs::Common::append_assoc), unfolding(crate::specs::ReasonsText::next_name))]
fn push_more_needs(out: &mut Text, names: &[Name], needs: &[Need])
    ensures { Wrote out.old out.new (more_needs names.now needs.now) }
{
    let mut rest = needs;
    while let [need, after @ ..] = rest {
        out.push_str(", ");
        push_name(out, names, need.conjecture);
        rest = after;
    }
}

#[tactic(auto, using(std::proofs::Common::append_assoc))]
fn push_needs(out: &mut Text, names: &[Name], needs: &[Need])
    ensures { Wrote out.old out.new (needs_text names.now needs.now) }
{
    match needs.split_first() {
        None => out.push_str("no conjecture"),
        Some((need, others)) => {
            push_name(out, names, need.conjecture);
            push_more_needs(out, names, others);
        }
    }
}

#[tactic(auto, using(std::proofs::Common::append_assoc))]
fn push_carried(out: &mut Text, names: &[Name], carried: &Carried)
    ensures { Wrote out.old out.new (carried_text names.now carried.now) }
{
    match carried {
        Carried::By(needs) => {
            out.push_str("by ");
            push_needs(out, names, needs.as_slice());
        }
        Carried::Not(Lack::Fails(_)) => out.push_str("fails"),
        Carried::Not(Lack::Open(goal, cause)) => {
            push_open_at(out, "left open at path ", goal.path, cause, "")
        }
    }
}

#[tactic(auto, using(std::proofs::Common::append_assoc), unfolding(crate::specs::ReasonsText::reason_line))]
fn push_reasons(out: &mut Text, names: &Names, reasons: &[Reason])
    ensures { Wrote out.old out.new (flat_map (reason_line names.now) reasons.now) }
{
    let conjectures = names.conjectures.as_slice();
    let mut rest = reasons;
    while let [reason, after @ ..] = rest {
        push_head(out, names, reason.stage, reason.about);
        out.push_str(": ");
        push_carried(out, conjectures, &reason.carried);
        out.push_str("\n");
        rest = after;
    }
}

#[tactic(auto, using(std::proofs::Common::append_assoc), unfolding(crate::specs::ReasonsText::next_name))]
fn push_more_names(out: &mut Text, names: &[Name], conjectures: &[u32])
    ensures { Wrote out.old out.new (more_names names.now conjectures.now) }
{
    let mut rest = conjectures;
    while let [conjecture, after @ ..] = rest {
        out.push_str(", ");
        push_name(out, names, *conjecture);
        rest = after;
    }
}

fn push_idle_words(out: &mut Text, all: bool)
    ensures { Wrote out.old out.new (idle_words all) }
{
    if all {
        out.push_str("no other group needs: ");
    } else {
        out.push_str("of the groups that hold, no other needs: ");
    }
}

#[tactic(auto, using(std::proofs::Common::append_assoc))]
fn push_idle(out: &mut Text, all: bool, names: &[Name], conjectures: &[u32])
    ensures { Wrote out.old out.new (idle_line all names.now conjectures.now) }
{
    if let Some((conjecture, others)) = conjectures.split_first() {
        push_idle_words(out, all);
        push_name(out, names, *conjecture);
        push_more_names(out, names, others);
        out.push_str("\n");
    }
}

/// The text of the reasons of a model's groups.
#[tactic(auto, using(std::proofs::Common::append_assoc), unfolding(crate::specs::ReasonsText::reasons_text))]
pub fn tell_reasons(alloc: Global, checked: &Checked, reasons: &[Reason]) -> Mem<Vec<u8>>
    ensures { IfOk result (λ text. text.items ≡ reasons_text checked.now reasons.now) }
{
    let names = checked.model().names();
    let idle = idle(alloc, checked, reasons)?;
    let mut out = Text::new(alloc);
    push_reasons(&mut out, names, reasons);
    let all = are_carried(reasons);
    push_idle(&mut out, all, names.conjectures.as_slice(), idle.as_slice());
    let text = out.into_bytes()?;
    Ok(text)
}
