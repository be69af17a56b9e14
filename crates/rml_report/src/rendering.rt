// The text of a report.
ghost use Rattle.std.specs.Prelude.{◌≡◌, ◌++◌, OnOk, IfOk};
ghost use Rattle.std.specs.List.{AllByRecursion, flat_map};
ghost use Rattle.rml_report.specs.Reports.{ShowsRefutation, CanRender};
ghost use Rattle.rml_report.specs.ReportText.{stage_text, about_text, head_text, undecided_text, answer_text};
ghost use Rattle.rml_report.specs.ReportText.{group_text, open_text, axioms_text, verdict_text, report_text};

use crate::block::push_block;
use crate::report::{Answer, Axioms, Group, Report, Verdict};
use crate::words::{push_cause, push_name};
use base::{Mem, push_number, push_text};
use limits::Cause;
use rml_command::{About, Checked, Names, Stage};
use std::alloc::Global;

#[tactic(auto, using(std::proofs::Common::append_assoc))]
fn push_action(out: &mut Vec<u8>, names: &Names, action: u32) -> Mem<()>
    ensures { OnOk result (out.new.items ≡ out.old.items ++ stage_text names.now (Stage.Action action)) }
{
    push_text(out, "action ")?;
    push_name(out, names.actions.as_slice(), action)?;
    Ok(())
}

/// Adds `init`, `action NAME` or `final`.
pub fn push_stage(out: &mut Vec<u8>, names: &Names, stage: Stage) -> Mem<()>
    ensures { OnOk result (out.new.items ≡ out.old.items ++ stage_text names.now stage) }
{
    match stage {
        Stage::Init => push_text(out, "init"),
        Stage::Action(action) => push_action(out, names, action),
        Stage::Final => push_text(out, "final"),
    }
}

#[tactic(auto, using(std::proofs::Common::append_assoc))]
fn push_conjecture(out: &mut Vec<u8>, names: &Names, conjecture: u32) -> Mem<()>
    ensures { OnOk result (out.new.items ≡ out.old.items ++ about_text names.now (About.Conjecture conjecture)) }
{
    push_text(out, " ")?;
    push_name(out, names.conjectures.as_slice(), conjecture)?;
    Ok(())
}

fn push_about(out: &mut Vec<u8>, names: &Names, about: About) -> Mem<()>
    ensures { OnOk result (out.new.items ≡ out.old.items ++ about_text names.now about) }
{
    match about {
        About::Abort => push_text(out, " abort"),
        About::Conjecture(conjecture) => push_conjecture(out, names, conjecture),
    }
}

/// Adds the head of a group: its stage, and what is forbidden there.
#[tactic(auto, using(std::proofs::Common::append_assoc), unfolding(crate::specs::ReportText::head_text))]
pub fn push_head(out: &mut Vec<u8>, names: &Names, stage: Stage, about: About) -> Mem<()>
    ensures { OnOk result (out.new.items ≡ out.old.items ++ head_text names.now stage about) }
{
    push_stage(out, names, stage)?;
    push_about(out, names, about)?;
    Ok(())
}

#[tactic(auto, using(std::proofs::Common::append_assoc), unfolding(crate::specs::ReportText::undecided_text))]
fn push_undecided(out: &mut Vec<u8>, path: u32, cause: &Cause) -> Mem<()>
    ensures { OnOk result (out.new.items ≡ out.old.items ++ undecided_text path cause.now) }
{
    push_text(out, ": undecided path ")?;
    push_number(out, path as u64)?;
    push_text(out, " ")?;
    push_cause(out, cause)?;
    push_text(out, "\n")?;
    Ok(())
}

fn push_answer(
    alloc: Global,
    out: &mut Vec<u8>,
    checked: &Checked,
    about: About,
    answer: &Answer,
) -> Mem<()>
    requires { ShowsRefutation checked.now answer.now }
    ensures { OnOk result (out.new.items ≡ out.old.items ++ answer_text checked.now about answer.now) }
{
    match answer {
        Answer::Holds => push_text(out, ": holds\n"),
        Answer::Fails {
            paths,
            least,
            shown,
        } => push_block(alloc, out, checked, about, *paths, least, shown),
        Answer::Undecided { path, cause } => push_undecided(out, *path, cause),
    }
}

#[tactic(auto, using(std::proofs::Common::append_assoc), unfolding(crate::specs::ReportText::group_text))]
fn push_group(alloc: Global, out: &mut Vec<u8>, checked: &Checked, group: &Group) -> Mem<()>
    requires { CanRender checked.now group.now }
    ensures { OnOk result (out.new.items ≡ out.old.items ++ group_text checked.now group.now) }
{
    push_head(out, checked.model().names(), group.stage, group.about)?;
    push_answer(alloc, out, checked, group.about, &group.answer)?;
    Ok(())
}

#[tactic(auto, using(std::proofs::Common::append_assoc))]
fn push_groups(alloc: Global, out: &mut Vec<u8>, checked: &Checked, groups: &[Group]) -> Mem<()>
    requires { AllByRecursion (CanRender checked.now) groups.now }
    ensures { OnOk result (out.new.items ≡ out.old.items ++ flat_map (group_text checked.now) groups.now) }
{
    let mut rest = groups;
    while let [group, after @ ..] = rest {
        push_group(alloc, out, checked, group)?;
        rest = after;
    }
    Ok(())
}

#[tactic(auto, using(std::proofs::Common::append_assoc), unfolding(crate::specs::ReportText::open_text))]
fn push_open(out: &mut Vec<u8>, cause: &Cause) -> Mem<()>
    ensures { OnOk result (out.new.items ≡ out.old.items ++ open_text cause.now) }
{
    push_text(out, "axioms: undecided ")?;
    push_cause(out, cause)?;
    push_text(out, "\n")?;
    Ok(())
}

fn push_axioms(out: &mut Vec<u8>, axioms: &Axioms) -> Mem<()>
    ensures { OnOk result (out.new.items ≡ out.old.items ++ axioms_text axioms.now) }
{
    match axioms {
        Axioms::Consistent => push_text(out, "axioms: consistent\n"),
        Axioms::Inconsistent => push_text(out, "axioms: inconsistent\n"),
        Axioms::Undecided(cause) => push_open(out, cause),
    }
}

fn push_verdict(out: &mut Vec<u8>, verdict: Verdict) -> Mem<()>
    ensures { OnOk result (out.new.items ≡ out.old.items ++ verdict_text verdict) }
{
    match verdict {
        Verdict::Inductive => push_text(out, "verdict: inductive\n"),
        Verdict::NotInductive => push_text(out, "verdict: not inductive\n"),
        Verdict::Undecided => push_text(out, "verdict: undecided\n"),
    }
}

/// The text of a report: the line of the axioms, the lines of each group, and the verdict.
#[tactic(auto, using(std::proofs::Common::append_assoc), unfolding(crate::specs::ReportText::report_text))]
pub fn render(alloc: Global, checked: &Checked, report: &Report) -> Mem<Vec<u8>>
    requires { AllByRecursion (CanRender checked.now) report.now.groups }
    ensures { IfOk result (λ text. text.items ≡ report_text checked.now report.now) }
{
    let mut out = Vec::new(alloc);
    push_axioms(&mut out, &report.axioms)?;
    push_groups(alloc, &mut out, checked, report.groups.as_slice())?;
    push_verdict(&mut out, report.verdict)?;
    Ok(out)
}
