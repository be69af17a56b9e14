// The graphs of what is answered: of a report, of what is dropped, and of a run.
ghost use Rattle.std.specs.Prelude.{◌≡◌, IfOk};
ghost use Rattle.std.specs.List.{AllByRecursion};
ghost use Rattle.fol_sig.specs.Symbols.{symbols};
ghost use Rattle.rml_report.specs.Reports.{CanRender};
ghost use Rattle.rml_houdini.specs.HoudiniText as dropping;
ghost use Rattle.told_text.specs.Written.{Wrote};
ghost use Rattle.rml_bmc.specs.Shown.{EndFits};
ghost use Rattle.bounded_text.specs.BoundedText.{CanShow};
ghost use Rattle.dot_graph.specs.AnswerGraphs.{group_graph, group_graphs, drop_graphs};
ghost use Rattle.dot_graph.specs.AnswerGraphs.{end_graph, part_graphs, run_graphs};

use crate::graphs::{push_counterexample_graph, push_state_graph};
use base::Mem;
use rml_bmc::{Part, Run};
use rml_command::Checked;
use rml_houdini::Dropped;
use rml_report::{Answer, Group};
use std::alloc::Global;
use told_states::push_stage;
use told_text::Text;

// A group that fails.
fn push_group(alloc: Global, out: &mut Text, number: u64, checked: &Checked, group: &Group)
    requires { CanRender checked.now group.now }
    ensures { Wrote out.old out.new (group_graph number checked.now group.now.answer) }
{
    match &group.answer {
        Answer::Holds | Answer::Undecided { .. } => {}
        Answer::Fails {
            paths: _,
            least: _,
            shown,
        } => push_counterexample_graph(alloc, out, number, checked, shown),
    }
}

/// The counterexamples of the groups of a report. Each has the number of its group, from 1.
#[tactic(auto, using(std::proofs::Common::append_assoc))]
pub fn report_graphs(alloc: Global, checked: &Checked, groups: &[Group]) -> Mem<Vec<u8>>
    requires { AllByRecursion (CanRender checked.now) groups.now }
    ensures { IfOk result (λ text. text.items ≡ group_graphs 1 checked.now groups.now) }
{
    // That their number is one of 63 bits is known where it is looked at.
    let _count = groups.len();
    let mut out = Text::new(alloc);
    let mut number: u64 = 1;
    let mut rest = groups;
    while let [group, after @ ..] = rest {
        push_group(alloc, &mut out, number, checked, group);
        number += 1;
        rest = after;
    }
    out.into_bytes()
}

/// The executions that break the conjectures that were dropped. Each has the number of its drop, from 1.
#[tactic(auto, using(std::proofs::Common::append_assoc))]
pub fn drops_graphs(alloc: Global, checked: &Checked, drops: &[Dropped]) -> Mem<Vec<u8>>
    requires { AllByRecursion (dropping.CanRender checked.now) drops.now }
    ensures { IfOk result (λ text. text.items ≡ drop_graphs 1 checked.now drops.now) }
{
    // That their number is one of 63 bits is known where it is looked at.
    let _count = drops.len();
    let mut out = Text::new(alloc);
    let mut number: u64 = 1;
    let mut rest = drops;
    while let [drop, after @ ..] = rest {
        push_counterexample_graph(alloc, &mut out, number, checked, &drop.shown);
        number += 1;
        rest = after;
    }
    out.into_bytes()
}

// Where a part ends.
fn push_end(alloc: Global, out: &mut Text, number: u64, checked: &Checked, part: &Part)
    requires { EndFits (symbols checked.now.signature) part.now.end }
    ensures { Wrote out.old out.new (end_graph number checked.now.names part.now.stage part.now.end) }
{
    match &part.end {
        None => {}
        Some(end) => {
            let mut title = Text::new(alloc);
            push_stage(&mut title, checked.model().names(), part.stage);
            out.needs(&title);
            push_state_graph(alloc, out, number, title.as_bytes(), checked.model(), end);
        }
    }
}

#[tactic(auto, using(std::proofs::Common::append_assoc))]
fn push_ends(alloc: Global, out: &mut Text, checked: &Checked, parts: &[Part])
    requires { AllByRecursion (λ part. EndFits (symbols checked.now.signature) part.end) parts.now }
    ensures { Wrote out.old out.new (part_graphs 1 checked.now parts.now) }
{
    // That their number is one of 63 bits is known where it is looked at.
    let _count = parts.len();
    let mut number: u64 = 1;
    let mut rest = parts;
    while let [part, after @ ..] = rest {
        push_end(alloc, out, number, checked, part);
        number += 1;
        rest = after;
    }
}

/// The states of a run: its start, and the end of each part under the stage that leads there.
#[tactic(auto, using(std::proofs::Common::append_assoc), unfolding(crate::specs::AnswerGraphs::run_graphs))]
pub fn run_graphs(alloc: Global, checked: &Checked, run: &Run) -> Mem<Vec<u8>>
    requires { CanShow checked.now run.now }
    ensures { IfOk result (λ text. text.items ≡ run_graphs checked.now run.now) }
{
    let model = checked.model();
    let mut out = Text::new(alloc);
    push_state_graph(alloc, &mut out, 0, "start".as_bytes(), model, &run.start);
    push_ends(alloc, &mut out, checked, run.parts.as_slice());
    out.into_bytes()
}
