// Whole pictures.
ghost use Rattle.std.specs.Prelude.{◌≡◌};
ghost use Rattle.fol_sig.specs.Symbols.{FitsStructure, symbols};
ghost use Rattle.rml_report.specs.Reports.{IsExecution};
ghost use Rattle.told_text.specs.Written.{Wrote};
ghost use Rattle.told_states.specs.Alike.{AreAlike};
ghost use Rattle.dot_graph.specs.GraphText.{side_head, side_text, graph_head, step_graph, state_graph};
ghost use Rattle.dot_graph.specs.GraphText.{execution_graph, counterexample_graph};

use crate::edges::push_edges;
use crate::nodes::push_frames;
use fol_sig::Structure;
use rml_command::{Checked, Model};
use rml_exec::{Counterexample, Followed, follow};
use std::alloc::Global;
use told_states::{end_law, push_head};
use told_text::Text;

// The frame of a structure and its title. The point in it is not seen, but a frame with nothing in it is not drawn.
#[tactic(auto, using(std::proofs::Common::append_assoc), unfolding(crate::specs::GraphText::side_head))]
fn push_side_head(out: &mut Text, letter: &str, title: &[u8])
    ensures { Wrote out.old out.new (side_head letter.now title.now) }
{
    out.push_str("  subgraph cluster_");
    out.push_str(letter);
    out.push_str(" {\n    label=<");
    out.push_bytes(title);
    out.push_str(">;\n    ");
    out.push_str(letter);
    out.push_str(" [shape=point, style=invis];\n");
}

// A structure, with what differs from the other one in red.
#[tactic(auto, using(std::proofs::Common::append_assoc), unfolding(crate::specs::GraphText::side_text))]
fn push_side(
    alloc: Global,
    out: &mut Text,
    letter: &str,
    title: &[u8],
    model: &Model,
    now: &Structure,
    other: &Structure,
)
    requires structure { FitsStructure (symbols model.now.signature) now.now }
    requires alike { AreAlike now.now other.now }
    ensures { Wrote out.old out.new (side_text letter.now title.now model.now.names now.now other.now) }
{
    push_side_head(out, letter, title);
    push_frames(alloc, out, letter, model, now, other);
    push_edges(alloc, out, letter, model, now, other);
    out.push_str("  }\n");
}

// The name of a graph.
#[tactic(auto, using(std::proofs::Common::append_assoc), unfolding(crate::specs::GraphText::graph_head))]
fn push_graph_head(out: &mut Text, word: &str, number: u64)
    ensures { Wrote out.old out.new (graph_head word.now number) }
{
    out.push_str("digraph ");
    out.push_str(word);
    out.push_number(number);
    out.push_str(" {\n");
}

/// Adds the picture of a step under a title: the structure before beside the one after.
#[tactic(auto, using(std::proofs::Common::append_assoc), unfolding(crate::specs::GraphText::step_graph))]
pub fn push_step_graph(
    alloc: Global,
    out: &mut Text,
    number: u64,
    title: &[u8],
    model: &Model,
    before: &Structure,
    after: &Structure,
)
    requires before { FitsStructure (symbols model.now.signature) before.now }
    requires after { FitsStructure (symbols model.now.signature) after.now }
    requires sizes { after.now.sizes ≡ before.now.sizes }
    ensures { Wrote out.old out.new (step_graph number title.now model.now.names before.now after.now) }
{
    push_graph_head(out, "step", number);
    out.push_str("  label=<");
    out.push_bytes(title);
    out.push_str(">;\n  labelloc=t;\n");
    push_side(alloc, out, "b", "before".as_bytes(), model, before, after);
    push_side(alloc, out, "a", "after".as_bytes(), model, after, before);
    out.push_str("}\n");
}

/// Adds the picture of a state, under a title.
#[tactic(auto, using(std::proofs::Common::append_assoc), unfolding(crate::specs::GraphText::state_graph))]
pub fn push_state_graph(
    alloc: Global,
    out: &mut Text,
    number: u64,
    title: &[u8],
    model: &Model,
    structure: &Structure,
)
    requires { FitsStructure (symbols model.now.signature) structure.now }
    ensures { Wrote out.old out.new (state_graph number title.now model.now.names structure.now) }
{
    push_graph_head(out, "state", number);
    push_side(alloc, out, "s", title, model, structure, structure);
    out.push_str("}\n");
}

// The picture of an execution under a title: its step, or where it aborts the state in which it begins.
fn push_execution_graph(
    alloc: Global,
    out: &mut Text,
    number: u64,
    title: &[u8],
    checked: &Checked,
    shown: &Counterexample,
)
    requires { IsExecution checked.now shown.now }
    ensures { Wrote out.old out.new (execution_graph number title.now checked.now shown.now) }
{
    end_law();
    let model = checked.model();
    let path = checked.path(&shown.goal);
    let before = &shown.structure;
    match follow(alloc, checked, &path, &shown.trace, before) {
        Err(_) => out.want(),
        Ok(Followed::Ended(end)) => {
            push_step_graph(alloc, out, number, title, model, before, &end);
            drop(end);
        }
        Ok(Followed::Aborted | Followed::Blocked) => {
            push_state_graph(alloc, out, number, title, model, before);
        }
    }
}

/// Adds the picture of a counterexample, under what it is one of: its step, or where it aborts the state in which it
/// begins.
pub fn push_counterexample_graph(
    alloc: Global,
    out: &mut Text,
    number: u64,
    checked: &Checked,
    shown: &Counterexample,
)
    requires { IsExecution checked.now shown.now }
    ensures { Wrote out.old out.new (counterexample_graph number checked.now shown.now) }
{
    let mut title = Text::new(alloc);
    let names = checked.model().names();
    push_head(&mut title, names, shown.goal.stage, shown.goal.about);
    out.needs(&title);
    push_execution_graph(alloc, out, number, title.as_bytes(), checked, shown);
}
