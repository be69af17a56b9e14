// An execution: what is true before it, which elements, tables and branches it takes, what it changes, and what is
// false after it.
ghost use Rattle.std.specs.Prelude.{slice_get, IfSome};
ghost use Rattle.fol_sig.specs.Symbols.{FitsStructure, symbols};
ghost use Rattle.rml_command.specs.View.{primitive as primitive_view};
ghost use Rattle.rml_command.specs.Models.{FitsPrimitive, FitsPath};
ghost use Rattle.rml_report.specs.Reports.{IsExecution};
ghost use Rattle.rml_report.specs.ReportText.{outcome_of};
ghost use Rattle.told_text.specs.Written.{Wrote};
ghost use Rattle.told_states.specs.Labels.{labels_of};
ghost use Rattle.told_states.specs.Alike.{AreAlike};
ghost use Rattle.told_report.specs.ExecutionText.{havoc_text, havocs_text, takes_along, step_text, state_text};
ghost use Rattle.told_report.specs.ExecutionText.{differences_text, changes_to, values_text, claim_text};
ghost use Rattle.told_report.specs.ExecutionText.{false_text, after_text, execution_text};

use crate::in_text::InText;
use fol_sig::Structure;
use rml_command::{About, Checked, Havoc, Model, Names, Path, Primitive, Stage};
use rml_exec::{Counterexample, Followed, follow, havocs_after};
use std::alloc::Global;
use told_states::{
    Labels, end_law, path_at, push_before, push_changes, push_label, push_labelled, push_line,
    push_table, push_values,
};
use told_text::Text;

// What is told of a step of the path: a comma, and a variable with the element or a relation with the table that it
// takes.
#[tactic(auto, using(std::proofs::Common::append_assoc))]
fn push_havoc(
    alloc: Global,
    out: &mut Text,
    model: &Model,
    labels: &Labels,
    structure: &Structure,
    primitive: &Primitive,
    havocs: &[Havoc],
)
    requires primitive { FitsPrimitive (symbols model.now.signature) (primitive_view primitive.now) }
    requires structure { FitsStructure (symbols model.now.signature) structure.now }
    ensures { Wrote out.old out.new
        (havoc_text labels.now structure.now (primitive_view primitive.now) havocs.now) }
{
    match primitive {
        Primitive::Havoc(variable) => {
            if let Some(Havoc::Element(element)) = havocs.first() {
                let sort = structure.function_into(*variable);
                let functions = labels.names().functions.as_slice();
                push_labelled(out, ", ", functions, variable.0, " := ");
                push_label(out, labels, sort, *element);
            }
        }
        Primitive::HavocRel(rel) => {
            if let Some(Havoc::Tuples(tuples)) = havocs.first() {
                let relations = labels.names().relations.as_slice();
                push_labelled(out, ", ", relations, rel.0, " := ");
                push_table(
                    alloc,
                    out,
                    model,
                    labels,
                    structure,
                    *rel,
                    tuples.as_slice(),
                );
            }
        }
        _ => {}
    }
}

// What is told of all of its steps.
#[tactic(auto, using(std::proofs::Common::append_assoc))]
fn push_havocs(
    alloc: Global,
    out: &mut Text,
    checked: &Checked,
    path: &Path,
    structure: &Structure,
    havocs: &[Havoc],
)
    requires path { FitsPath (symbols checked.now.signature) path.now }
    requires structure { FitsStructure (symbols checked.now.signature) structure.now }
    ensures { Wrote out.old out.new
        (havocs_text (labels_of checked.now structure.now) structure.now path.now havocs.now) }
{
    let model = checked.model();
    let Ok(labels) = Labels::of(alloc, model, structure) else {
        out.want();
        return;
    };
    let mut left = havocs;
    for primitive in path.primitives() {
        push_havoc(alloc, out, model, &labels, structure, primitive, left);
        left = havocs_after(primitive, left);
    }
}

// The line of the havocs.
fn push_takes(
    alloc: Global,
    out: &mut Text,
    checked: &Checked,
    path: Option<Path>,
    structure: &Structure,
    havocs: &[Havoc],
)
    requires path { IfSome path (FitsPath (symbols checked.now.signature)) }
    requires structure { FitsStructure (symbols checked.now.signature) structure.now }
    ensures { Wrote out.old out.new (takes_along checked.now structure.now havocs.now path.entry) }
{
    if let Some(path) = path {
        let mut pieces = Text::new(alloc);
        push_havocs(alloc, &mut pieces, checked, &path, structure, havocs);
        out.needs(&pieces);
        push_line(out, "  takes: ", pieces.as_bytes());
    }
}

/// Adds what the path of this number, from 1, of a stage's block takes from a structure, and the lines of the branches
/// that it takes.
#[tactic(auto, using(std::proofs::Common::append_assoc), unfolding(crate::specs::ExecutionText::step_text))]
pub fn push_step<T: InText>(
    alloc: Global,
    out: &mut Text,
    checked: &Checked,
    source: &T,
    stage: Stage,
    path: u32,
    structure: &Structure,
    havocs: &[Havoc],
)
    requires { FitsStructure (symbols checked.now.signature) structure.now }
    ensures { Wrote out.old out.new
        (step_text checked.now (T.told source.now).lines stage path structure.now havocs.now) }
{
    let taken = path_at(checked, stage, path);
    push_takes(alloc, out, checked, taken, structure, havocs);
    source.push_lines(out, stage, path);
}

/// Adds what is true in a structure of the model.
#[tactic(auto, using(std::proofs::Common::append_assoc), unfolding(crate::specs::ExecutionText::state_text))]
pub fn push_state<T: InText>(
    alloc: Global,
    out: &mut Text,
    model: &Model,
    source: &T,
    structure: &Structure,
)
    requires source { T.is_over source.now (symbols model.now.signature) }
    requires structure { FitsStructure (symbols model.now.signature) structure.now }
    ensures { Wrote out.old out.new (state_text model.now (T.told source.now) structure.now) }
{
    push_before(alloc, out, model, structure);
    source.push_facts(alloc, out, model, structure);
}

/// Adds what differs between two structures of the model.
#[tactic(auto, using(std::proofs::Common::append_assoc), unfolding(crate::specs::ExecutionText::differences_text))]
pub fn push_differences<T: InText>(
    alloc: Global,
    out: &mut Text,
    model: &Model,
    source: &T,
    before: &Structure,
    after: &Structure,
)
    requires source { T.is_over source.now (symbols model.now.signature) }
    requires before { FitsStructure (symbols model.now.signature) before.now }
    requires after { FitsStructure (symbols model.now.signature) after.now }
    requires alike { AreAlike before.now after.now }
    ensures { Wrote out.old out.new (differences_text model.now (T.told source.now) before.now after.now) }
{
    push_changes(alloc, out, model, before, after);
    source.push_changes(alloc, out, model, before, after);
}

// What the shown path changes where it ends.
fn push_changed<T: InText>(
    alloc: Global,
    out: &mut Text,
    checked: &Checked,
    source: &T,
    shown: &Counterexample,
)
    requires source { T.is_over source.now (symbols checked.now.signature) }
    requires shown { IsExecution checked.now shown.now }
    ensures { Wrote out.old out.new
        (changes_to checked.now (T.told source.now) shown.now.structure (outcome_of checked.now shown.now)) }
{
    end_law();
    let path = checked.path(&shown.goal);
    match follow(alloc, checked, &path, &shown.trace, &shown.structure) {
        Ok(Followed::Ended(end)) => {
            push_differences(alloc, out, checked.model(), source, &shown.structure, &end)
        }
        Ok(Followed::Aborted | Followed::Blocked) => {}
        Err(_) => out.want(),
    }
}

// The values under which a conjecture is false.
#[tactic(auto, unfolding(crate::specs::ExecutionText::values_text))]
fn push_given(out: &mut Text, model: &Model, labels: &Labels, conjecture: u32, values: &[u32])
    ensures { Wrote out.old out.new
        (values_text labels.now (slice_get model.now.conjectures conjecture) values.now) }
{
    if let Some(sentence) = model.conjectures().get(conjecture as usize) {
        push_values(out, labels, " of ", sentence.formula(), values);
    }
}

#[tactic(auto, unfolding(crate::specs::ExecutionText::claim_text))]
fn push_claim(out: &mut Text, names: &Names, conjecture: u32)
    ensures { Wrote out.old out.new (claim_text names.now conjecture) }
{
    let conjectures = names.conjectures.as_slice();
    push_labelled(out, "  after this ", conjectures, conjecture, " is false");
}

#[tactic(auto, using(std::proofs::Common::append_assoc), unfolding(crate::specs::ExecutionText::false_text))]
fn push_false(
    alloc: Global,
    out: &mut Text,
    model: &Model,
    structure: &Structure,
    conjecture: u32,
    values: &[u32],
)
    requires { FitsStructure (symbols model.now.signature) structure.now }
    ensures { Wrote out.old out.new (false_text model.now structure.now conjecture values.now) }
{
    let Ok(labels) = Labels::of(alloc, model, structure) else {
        out.want();
        return;
    };
    push_claim(out, model.names(), conjecture);
    push_given(out, model, &labels, conjecture, values);
    out.push_str("\n");
}

/// Adds what is so where an execution ends that begins in this structure.
pub fn push_after(
    alloc: Global,
    out: &mut Text,
    model: &Model,
    structure: &Structure,
    about: About,
    values: &[u32],
)
    requires { FitsStructure (symbols model.now.signature) structure.now }
    ensures { Wrote out.old out.new (after_text model.now structure.now about values.now) }
{
    match about {
        About::Abort => out.push_str("  after this it aborts\n"),
        About::Conjecture(conjecture) => push_false(
            alloc, out, model, structure, conjecture, values,
        ),
    }
}

/// Adds the lines of an execution.
#[tactic(auto, using(std::proofs::Common::append_assoc), unfolding(crate::specs::ExecutionText::execution_text))]
pub fn push_execution<T: InText>(
    alloc: Global,
    out: &mut Text,
    checked: &Checked,
    source: &T,
    about: About,
    shown: &Counterexample,
)
    requires source { T.is_over source.now (symbols checked.now.signature) }
    requires shown { IsExecution checked.now shown.now }
    ensures { Wrote out.old out.new (execution_text checked.now (T.told source.now) about shown.now) }
{
    let model = checked.model();
    let start = &shown.structure;
    let goal = &shown.goal;
    push_state(alloc, out, model, source, start);
    push_step(
        alloc,
        out,
        checked,
        source,
        goal.stage,
        goal.path,
        start,
        shown.trace.havoc.as_slice(),
    );
    push_changed(alloc, out, checked, source, shown);
    push_after(alloc, out, model, start, about, shown.values.as_slice());
}
