// A report as it is told.
ghost use Rattle.std.specs.Prelude.{◌≡◌, ◌≤◌, IfOk};
ghost use Rattle.std.specs.List.{AllByRecursion, flat_map};
ghost use Rattle.fol_sig.specs.Symbols.{symbols};
ghost use Rattle.rml_report.specs.Reports.{CanRender};
ghost use Rattle.told_text.specs.Written.{Wrote};
ghost use Rattle.told_report.specs.ToldText.{group_failing, group_summary, held_by, held, count_line, verdict_line};
ghost use Rattle.told_report.specs.ToldText.{axioms_line, asked_line, told_text};

use crate::causes::push_cause_line;
use crate::groups::{push_failing, push_summary};
use crate::in_text::InText;
use crate::numbers::push_two_numbered;
use base::Mem;
use fol_formula::Sentence;
use rml_command::{Checked, Names};
use rml_report::{Answer, Axioms, Group, Report, Verdict};
use std::alloc::Global;
use told_text::Text;

fn push_verdict(out: &mut Text, verdict: Verdict)
    ensures { Wrote out.old out.new (verdict_line verdict) }
{
    match verdict {
        Verdict::Inductive => out.push_str("inductive\n"),
        Verdict::NotInductive => out.push_str("not inductive\n"),
        Verdict::Undecided => out.push_str("undecided\n"),
    }
}

fn push_axioms(out: &mut Text, axioms: &Axioms)
    ensures { Wrote out.old out.new (axioms_line axioms.now) }
{
    match axioms {
        Axioms::Consistent => {}
        Axioms::Inconsistent => {
            out.push_str("no structure satisfies the axioms, so everything holds\n")
        }
        Axioms::Undecided(cause) => {
            let open = "whether some structure satisfies the axioms is left open: ";
            push_cause_line(out, open, cause)
        }
    }
}

// Whether nothing but aborts is asked for.
fn push_asked(out: &mut Text, conjectures: &[Sentence])
    ensures { Wrote out.old out.new (asked_line conjectures.now) }
{
    if conjectures.is_empty() {
        out.push_str("the model has no conjectures, so only aborts are asked for\n");
    }
}

#[tactic(auto, using(std::proofs::Common::append_assoc))]
fn push_all_failing<T: InText>(
    alloc: Global,
    out: &mut Text,
    checked: &Checked,
    source: &T,
    groups: &[Group],
)
    requires source { T.is_over source.now (symbols checked.now.signature) }
    requires groups { AllByRecursion (CanRender checked.now) groups.now }
    ensures { Wrote out.old out.new (flat_map (group_failing checked.now (T.told source.now)) groups.now) }
{
    let mut rest = groups;
    while let [group, after @ ..] = rest {
        push_failing(alloc, out, checked, source, group);
        rest = after;
    }
}

#[tactic(auto, using(std::proofs::Common::append_assoc))]
fn push_summaries(out: &mut Text, names: &Names, groups: &[Group])
    ensures { Wrote out.old out.new (flat_map (group_summary names.now) groups.now) }
{
    let mut rest = groups;
    while let [group, after @ ..] = rest {
        push_summary(out, names, group);
        rest = after;
    }
}

fn held_by(answer: &Answer) -> u64
    ensures value { result ≡ held_by answer.now }
    ensures small { result ≤ 1 }
{
    match answer {
        Answer::Holds => 1,
        Answer::Fails { .. } | Answer::Undecided { .. } => 0,
    }
}

// How many groups hold.
fn held(groups: &[Group]) -> u64
    ensures { result ≡ held groups.now }
{
    // That their number is one of 64 bits is known where it is looked at.
    let _count = groups.len();
    let mut rest = groups;
    let mut count: u64 = 0;
    while let [group, after @ ..] = rest {
        count += held_by(&group.answer);
        rest = after;
    }
    count
}

#[tactic(auto, unfolding(crate::specs::ToldText::count_line))]
fn push_count(out: &mut Text, groups: &[Group])
    ensures { Wrote out.old out.new (count_line groups.now) }
{
    let all = groups.len() as u64;
    push_two_numbered(out, "", held(groups), " of ", all, " groups hold\n");
}

/// The text of a report for a person: the verdict, the axioms where they are in doubt, whether nothing but aborts is
/// asked for, each group that fails with its counterexample and the branches that it takes, a line for each that fails
/// or is left open, and how many hold.
#[tactic(auto, using(std::proofs::Common::append_assoc), unfolding(crate::specs::ToldText::told_text))]
pub fn tell<T: InText>(
    alloc: Global,
    checked: &Checked,
    source: &T,
    report: &Report,
) -> Mem<Vec<u8>>
    requires source { T.is_over source.now (symbols checked.now.signature) }
    requires groups { AllByRecursion (CanRender checked.now) report.now.groups }
    ensures { IfOk result (λ text. text.items ≡ told_text checked.now (T.told source.now) report.now) }
{
    let groups = report.groups.as_slice();
    let mut out = Text::new(alloc);
    push_verdict(&mut out, report.verdict);
    push_axioms(&mut out, &report.axioms);
    push_asked(&mut out, checked.model().conjectures());
    push_all_failing(alloc, &mut out, checked, source, groups);
    out.push_str("\n");
    push_summaries(&mut out, checked.model().names(), groups);
    push_count(&mut out, groups);
    let text = out.into_bytes()?;
    Ok(text)
}
