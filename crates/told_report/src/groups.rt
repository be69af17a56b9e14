// The groups that fail, and those that are left open: each with its counterexample, and in a line.
ghost use Rattle.fol_sig.specs.Symbols.{symbols};
ghost use Rattle.rml_report.specs.Reports.{CanRender};
ghost use Rattle.told_text.specs.Written.{Wrote};
ghost use Rattle.told_report.specs.ToldText.{fault_text, path_text, bound_text, least_text, group_failing};
ghost use Rattle.told_report.specs.ToldText.{undecided_text, group_summary};

use crate::causes::{push_cause_words, push_open_at};
use crate::execution::push_execution;
use crate::in_text::InText;
use crate::numbers::{push_numbered, push_two_numbered};
use limits::Cause;
use rml_command::{About, Checked, Names, Stage};
use rml_report::{Answer, Bound, Group, Least};
use std::alloc::Global;
use told_states::{push_head, push_labelled, push_name, push_stage};
use told_text::Text;

/// Adds what a block does that it must not.
#[tactic(auto, using(std::proofs::Common::append_assoc))]
pub fn push_fault(out: &mut Text, names: &Names, about: About)
    ensures { Wrote out.old out.new (fault_text names.now about) }
{
    match about {
        About::Abort => out.push_str(" aborts"),
        About::Conjecture(conjecture) => {
            out.push_str(" breaks ");
            push_name(out, names.conjectures.as_slice(), conjecture);
        }
    }
}

/// Adds which path of how many it is.
#[tactic(auto, unfolding(crate::specs::ToldText::path_text))]
pub fn push_path(out: &mut Text, path: u32, paths: u64)
    ensures { Wrote out.old out.new (path_text path paths) }
{
    push_two_numbered(out, " (path ", path as u64, " of ", paths, ")\n");
}

fn push_bound(out: &mut Text, names: &Names, at: Bound)
    ensures { Wrote out.old out.new (bound_text names.now at) }
{
    match at {
        Bound::Sort(sort) => {
            let before = "  there may be a smaller one (";
            push_labelled(out, before, names.sorts.as_slice(), sort.0, ": at most ")
        }
        Bound::Rel(relation) => {
            let before = "  there may be a smaller one (relation ";
            push_labelled(
                out,
                before,
                names.relations.as_slice(),
                relation.0,
                ": at most ",
            )
        }
    }
}

#[tactic(auto, using(std::proofs::Common::append_assoc))]
fn push_least(out: &mut Text, names: &Names, least: &Least)
    ensures { Wrote out.old out.new (least_text names.now least.now) }
{
    match least {
        Least::Yes => {}
        Least::Stopped { at, size, cause } => {
            push_bound(out, names, *at);
            push_numbered(out, "", *size, "): ");
            push_cause_words(out, cause);
            out.push_str("\n");
        }
    }
}

/// Adds a group that fails; nothing of another.
#[tactic(auto, using(std::proofs::Common::append_assoc), unfolding(crate::specs::ToldText::failure_text))]
pub fn push_failing<T: InText>(
    alloc: Global,
    out: &mut Text,
    checked: &Checked,
    source: &T,
    group: &Group,
)
    requires source { T.is_over source.now (symbols checked.now.signature) }
    requires group { CanRender checked.now group.now }
    ensures { Wrote out.old out.new (group_failing checked.now (T.told source.now) group.now) }
{
    match &group.answer {
        Answer::Holds | Answer::Undecided { .. } => {}
        Answer::Fails {
            paths,
            least,
            shown,
        } => {
            let names = checked.model().names();
            out.push_str("\n");
            push_stage(out, names, group.stage);
            push_fault(out, names, group.about);
            push_path(out, shown.trace.path, *paths as u64);
            push_least(out, names, least);
            push_execution(alloc, out, checked, source, group.about, shown);
        }
    }
}

/// Adds that a goal is left open, and the option to raise.
#[tactic(auto, using(std::proofs::Common::append_assoc), unfolding(crate::specs::ToldText::undecided_text))]
pub fn push_undecided(
    out: &mut Text,
    names: &Names,
    stage: Stage,
    about: About,
    path: u32,
    cause: &Cause,
)
    ensures { Wrote out.old out.new (undecided_text names.now stage about path cause.now) }
{
    push_head(out, names, stage, about);
    push_open_at(out, " is left open at path ", path, cause, "\n");
}

/// Adds a group that does not hold, in a line; nothing of another.
#[tactic(auto, using(std::proofs::Common::append_assoc), unfolding(crate::specs::ToldText::failed_line))]
pub fn push_summary(out: &mut Text, names: &Names, group: &Group)
    ensures { Wrote out.old out.new (group_summary names.now group.now) }
{
    match &group.answer {
        Answer::Holds => {}
        Answer::Fails { .. } => {
            push_stage(out, names, group.stage);
            push_fault(out, names, group.about);
            out.push_str("\n");
        }
        Answer::Undecided { path, cause } => {
            push_undecided(out, names, group.stage, group.about, *path, cause)
        }
    }
}
