// Bounded runs.
ghost use Rattle.std.specs.Prelude.{◌≡◌, map, IfOk};
ghost use Rattle.std.specs.List.{AllByRecursion};
ghost use Rattle.fol_sig.specs.Symbols.{FitsStructure, symbols};
ghost use Rattle.rml_bmc.specs.Shown.{EndFits};
ghost use Rattle.bounded_text.specs.BoundedText.{CanShow, CanRender};
ghost use Rattle.json_values.specs.Values.{list_data};
ghost use Rattle.json_outcome.specs.ExecutionData.{takes_along};
ghost use Rattle.json_outcome.specs.BoundedData.{end_data, part_path, part_data, bound_cause_data};
ghost use Rattle.json_outcome.specs.BoundedData.{length_data, lengths_data, verdict_data, bounded_members};

use crate::execution::havocs_value;
use crate::group::{about_value, cause_value, stage_value};
use crate::structure::structure_value;
use base::Mem;
use fol_sig::Structure;
use json_values::{Json, JsonList, JsonObject, ObjectBuilder, counted, numbers};
use rml_bmc::{BoundCause, Bounded, Length, Part, Run, Verdict, verdict_for};
use rml_command::Checked;
use std::alloc::Global;
use told_states::path_at;

// The structure in which a part ends; null where it aborts.
fn end_value(alloc: Global, checked: &Checked, part: &Part) -> Mem<Json>
    requires { EndFits (symbols checked.now.signature) part.now.end }
    ensures { IfOk result (λ j. j ≡ end_data checked.now.names part.now.end) }
{
    match &part.end {
        None => Ok(Json::null()),
        Some(end) => structure_value(alloc, checked.model(), end),
    }
}

// What the havocs of the part's path take.
fn takes_value(alloc: Global, checked: &Checked, start: &Structure, part: &Part) -> Mem<Json>
    requires { FitsStructure (symbols checked.now.signature) start.now }
    ensures { IfOk result
        (λ j. j ≡ takes_along checked.now.names start.now (part_path checked.now part.now) part.now.trace.havoc) }
{
    match path_at(checked, part.stage, part.trace.path) {
        None => JsonList::new(alloc).into_json(),
        Some(path) => havocs_value(alloc, checked, start, &path, part.trace.havoc.as_slice()),
    }
}

#[tactic(auto, unfolding(crate::specs::BoundedData::part_data))]
fn part_value(alloc: Global, checked: &Checked, start: &Structure, part: &Part) -> Mem<Json>
    requires start { FitsStructure (symbols checked.now.signature) start.now }
    requires end { EndFits (symbols checked.now.signature) part.now.end }
    ensures { IfOk result (λ j. j ≡ part_data checked.now start.now part.now) }
{
    let paths = checked.stage_paths(part.stage).len();
    let stage = stage_value(alloc, checked.model().names(), part.stage);
    ObjectBuilder::new(alloc)
        .with("stage", stage)
        .with_number("path", part.trace.path as u64)
        .with_number("paths", paths as u64)
        .with("takes", takes_value(alloc, checked, start, part))
        .with("end", end_value(alloc, checked, part))
        .into_json()
}

#[tactic(auto, using(std::proofs::Common::append_assoc))]
fn part_values(alloc: Global, checked: &Checked, start: &Structure, parts: &[Part]) -> Mem<Json>
    requires start { FitsStructure (symbols checked.now.signature) start.now }
    requires ends { AllByRecursion (λ part. EndFits (symbols checked.now.signature) part.end) parts.now }
    ensures { IfOk result (λ j. j ≡ list_data (map (part_data checked.now start.now) parts.now)) }
{
    let mut list = JsonList::new(alloc);
    let mut rest = parts;
    while let [part, after @ ..] = rest {
        list.push(part_value(alloc, checked, start, part));
        rest = after;
    }
    list.into_json()
}

fn bound_cause_value(alloc: Global, cause: &BoundCause) -> Mem<Json>
    ensures { IfOk result (λ j. j ≡ bound_cause_data cause.now) }
{
    match cause {
        BoundCause::Paths(count) => counted(alloc, "paths", *count),
        BoundCause::Goal { place: _, cause } => cause_value(alloc, cause),
    }
}

#[tactic(auto, unfolding(crate::specs::BoundedData::length_data))]
fn safe_value(alloc: Global, checked: &Checked, steps: u64) -> Mem<Json>
    ensures { IfOk result (λ j. j ≡ length_data checked.now steps Length.Safe) }
{
    ObjectBuilder::new(alloc)
        .with_number("steps", steps)
        .with_word("answer", "safe")
        .into_json()
}

#[tactic(auto, unfolding(crate::specs::BoundedData::length_data))]
fn open_value(alloc: Global, checked: &Checked, steps: u64, cause: &BoundCause) -> Mem<Json>
    ensures { IfOk result (λ j. j ≡ length_data checked.now steps (Length.Undecided cause.now)) }
{
    ObjectBuilder::new(alloc)
        .with_number("steps", steps)
        .with_word("answer", "undecided")
        .with("cause", bound_cause_value(alloc, cause))
        .into_json()
}

#[tactic(auto, unfolding(crate::specs::BoundedData::length_data))]
fn run_value(alloc: Global, checked: &Checked, steps: u64, run: &Run) -> Mem<Json>
    requires { CanShow checked.now run.now }
    ensures { IfOk result (λ j. j ≡ length_data checked.now steps (Length.Broken run.now)) }
{
    let model = checked.model();
    ObjectBuilder::new(alloc)
        .with_number("steps", steps)
        .with_word("answer", "broken")
        .with("about", about_value(alloc, model.names(), run.about))
        .with("start", structure_value(alloc, model, &run.start))
        .with(
            "parts",
            part_values(alloc, checked, &run.start, run.parts.as_slice()),
        )
        .with("values", numbers(alloc, run.values.as_slice()))
        .into_json()
}

// How many steps, and what is said of runs of this length.
fn length_value(alloc: Global, checked: &Checked, steps: u64, answer: &Length) -> Mem<Json>
    requires { CanRender checked.now answer.now }
    ensures { IfOk result (λ j. j ≡ length_data checked.now steps answer.now) }
{
    match answer {
        Length::Safe => safe_value(alloc, checked, steps),
        Length::Undecided(cause) => open_value(alloc, checked, steps, cause),
        Length::Broken(run) => run_value(alloc, checked, steps, run),
    }
}

#[tactic(auto, using(std::proofs::Common::append_assoc))]
fn length_values(alloc: Global, checked: &Checked, lengths: &[Length]) -> Mem<Json>
    requires { AllByRecursion (CanRender checked.now) lengths.now }
    ensures { IfOk result (λ j. j ≡ list_data (lengths_data checked.now 0 lengths.now)) }
{
    // That their number is one of 64 bits is known where it is looked at.
    let _count = lengths.len();
    let mut list = JsonList::new(alloc);
    let mut rest = lengths;
    let mut steps: u64 = 0;
    while let [answer, after @ ..] = rest {
        list.push(length_value(alloc, checked, steps, answer));
        steps += 1;
        rest = after;
    }
    list.into_json()
}

fn verdict_value(alloc: Global, verdict: Verdict) -> Mem<Json>
    ensures { IfOk result (λ j. j ≡ verdict_data verdict) }
{
    match verdict {
        Verdict::Safe => Json::word(alloc, "safe"),
        Verdict::NotSafe => Json::word(alloc, "not safe"),
        Verdict::Undecided => Json::word(alloc, "undecided"),
    }
}

/// What is answered of bounded runs, as members to which others can be added.
#[tactic(auto, unfolding(crate::specs::BoundedData::bounded_members))]
pub fn bounded_object(alloc: Global, checked: &Checked, bounded: &Bounded) -> Mem<JsonObject>
    requires { AllByRecursion (CanRender checked.now) bounded.now.lengths }
    ensures { IfOk result (λ o. o ≡ bounded_members checked.now bounded.now) }
{
    let lengths = bounded.lengths.as_slice();
    ObjectBuilder::new(alloc)
        .with_word("command", "bmc")
        .with("verdict", verdict_value(alloc, verdict_for(lengths)))
        .with("lengths", length_values(alloc, checked, lengths))
        .build()
}
