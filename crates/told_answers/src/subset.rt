// What is found, as it is told.
ghost use Rattle.std.specs.Prelude.{◌≡◌, IfOk};
ghost use Rattle.std.specs.List.{AllByRecursion, flat_map};
ghost use Rattle.fol_sig.specs.Symbols.{symbols};
ghost use Rattle.rml_houdini.specs.HoudiniText.{CanRender};
ghost use Rattle.told_text.specs.Written.{Wrote};
ghost use Rattle.told_answers.specs.SubsetText.{verdict_line, keep_line, open_line, subset_text};

use crate::drops::push_drops;
use base::Mem;
use limits::Cause;
use rml_command::{Checked, Goal, Names};
use rml_houdini::Houdini;
use std::alloc::Global;
use told_report::{InText, push_two_numbered, push_undecided};
use told_states::push_labelled;
use told_text::Text;

fn push_verdict(out: &mut Text, kept: u64, all: u64, unsettled: Option<(Goal, Cause)>)
    ensures { Wrote out.old out.new (verdict_line kept all unsettled) }
{
    match unsettled {
        None => {
            let behind = " conjectures, the greatest inductive set of them\n";
            push_two_numbered(out, "keeps ", kept, " of ", all, behind)
        }
        Some(_) => {
            push_two_numbered(
                out,
                "undecided: keeps ",
                kept,
                " of ",
                all,
                " conjectures\n",
            )
        }
    }
}

#[tactic(auto, using(std::proofs::Common::append_assoc))]
fn push_kept(out: &mut Text, names: &Names, kept: &[u32])
    ensures { Wrote out.old out.new (flat_map (keep_line names.now) kept.now) }
{
    let conjectures = names.conjectures.as_slice();
    let mut rest = kept;
    while let [conjecture, after @ ..] = rest {
        push_labelled(out, "keeps ", conjectures, *conjecture, "\n");
        rest = after;
    }
}

fn push_open(out: &mut Text, names: &Names, unsettled: Option<(Goal, Cause)>)
    ensures { Wrote out.old out.new (open_line names.now unsettled) }
{
    if let Some((goal, cause)) = unsettled {
        push_undecided(out, names, goal.stage, goal.about, goal.path, &cause);
    }
}

/// The text of what is found, for a person: how many conjectures are kept, the drops with the branches that each
/// execution takes, the conjectures that are kept, and the goal that is left open, if one is.
#[tactic(auto, using(std::proofs::Common::append_assoc), unfolding(crate::specs::SubsetText::subset_text))]
pub fn tell_subset<T: InText>(
    alloc: Global,
    checked: &Checked,
    source: &T,
    houdini: &Houdini,
) -> Mem<Vec<u8>>
    requires source { T.is_over source.now (symbols checked.now.signature) }
    requires dropped { AllByRecursion (CanRender checked.now) houdini.now.dropped }
    ensures { IfOk result (λ text. text.items ≡ subset_text checked.now (T.told source.now) houdini.now) }
{
    let model = checked.model();
    let kept = houdini.kept.as_slice();
    let all = model.conjectures().len() as u64;
    let mut out = Text::new(alloc);
    push_verdict(&mut out, kept.len() as u64, all, houdini.unsettled);
    push_drops(alloc, &mut out, checked, source, houdini.dropped.as_slice());
    out.push_str("\n");
    push_kept(&mut out, model.names(), kept);
    push_open(&mut out, model.names(), houdini.unsettled);
    let text = out.into_bytes()?;
    Ok(text)
}
