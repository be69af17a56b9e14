// An execution.
ghost use Rattle.std.specs.Prelude.{◌≡◌, ◌<◌, drop, length, IfOk};
ghost use Rattle.fol_sig.specs.Symbols.{FitsStructure, symbols};
ghost use Rattle.rml_command.specs.View.{primitive as primitive_view};
ghost use Rattle.rml_command.specs.Models.{FitsPrimitive, FitsPath};
ghost use Rattle.rml_command.specs.Goals.{goal_path};
ghost use Rattle.rml_report.specs.Reports.{IsExecution};
ghost use Rattle.rml_report.specs.ReportText.{outcome_of};
ghost use Rattle.json_values.specs.Values.{IsBuiltBy, IsListedBy, list_data};
ghost use Rattle.json_outcome.specs.ExecutionData.{element_data, table_data, havoc_data, havocs_data, takes_along};
ghost use Rattle.json_outcome.specs.ExecutionData.{end_data, end_members, first_or_null, execution_data};

use crate::group::name_value;
use crate::structure::{members_value, structure_value};
use base::Mem;
use fol_sig::{FunId, RelId, Structure, Tuple};
use json_values::{Json, JsonList, ObjectBuilder, numbers};
use rml_command::{Checked, Havoc, Model, Names, Path, Primitive};
use rml_exec::{Counterexample, Followed, follow, havocs_after};
use std::alloc::Global;

// A variable, and the element that it takes.
#[tactic(auto, unfolding(crate::specs::ExecutionData::element_data))]
fn element_value(alloc: Global, names: &Names, variable: FunId, element: u32) -> Mem<Json>
    ensures { IfOk result (λ j. j ≡ element_data names.now variable.0 element) }
{
    let name = name_value(alloc, names.functions.as_slice(), variable.0);
    ObjectBuilder::new(alloc)
        .with("variable", name)
        .with_number("element", element as u64)
        .into_json()
}

// A relation, and the table that it takes.
#[tactic(auto, unfolding(crate::specs::ExecutionData::table_data))]
fn table_value(
    alloc: Global,
    model: &Model,
    structure: &Structure,
    rel: RelId,
    tuples: &[Tuple],
) -> Mem<Json>
    requires structure { FitsStructure (symbols model.now.signature) structure.now }
    requires known { rel.0 < length structure.now.relations }
    ensures { IfOk result (λ j. j ≡ table_data model.now.names structure.now rel.0 tuples.now) }
{
    let name = name_value(alloc, model.names().relations.as_slice(), rel.0);
    ObjectBuilder::new(alloc)
        .with("relation", name)
        .with(
            "tuples",
            members_value(alloc, model, structure, rel, tuples),
        )
        .into_json()
}

// Adds what is told of a step of the path.
fn push_havoc(
    alloc: Global,
    list: &mut JsonList,
    model: &Model,
    structure: &Structure,
    primitive: &Primitive,
    havocs: &[Havoc],
)
    requires primitive { FitsPrimitive (symbols model.now.signature) (primitive_view primitive.now) }
    requires structure { FitsStructure (symbols model.now.signature) structure.now }
    ensures { IsListedBy list.old
        (havoc_data model.now.names structure.now (primitive_view primitive.now) havocs.now) list.new }
{
    match primitive {
        Primitive::Havoc(variable) => match havocs.first() {
            Some(Havoc::Element(element)) => {
                list.push(element_value(alloc, model.names(), *variable, *element));
            }
            _ => {}
        },
        Primitive::HavocRel(rel) => match havocs.first() {
            Some(Havoc::Tuples(tuples)) => {
                list.push(table_value(alloc, model, structure, *rel, tuples.as_slice()));
            }
            _ => {}
        },
        _ => {}
    }
}

/// What is told of the steps of a path that is taken from a structure.
#[tactic(auto, using(std::proofs::Common::append_assoc))]
pub fn havocs_value(
    alloc: Global,
    checked: &Checked,
    structure: &Structure,
    path: &Path,
    havocs: &[Havoc],
) -> Mem<Json>
    requires path { FitsPath (symbols checked.now.signature) path.now }
    requires structure { FitsStructure (symbols checked.now.signature) structure.now }
    ensures { IfOk result (λ j. j ≡ list_data (havocs_data checked.now.names structure.now path.now havocs.now)) }
{
    let model = checked.model();
    let mut list = JsonList::new(alloc);
    let mut left = havocs;
    for primitive in path.primitives() {
        push_havoc(alloc, &mut list, model, structure, primitive, left);
        left = havocs_after(primitive, left);
    }
    list.into_json()
}

// What the havocs of the shown path take.
fn takes_value(alloc: Global, checked: &Checked, shown: &Counterexample) -> Mem<Json>
    requires { IsExecution checked.now shown.now }
    ensures { IfOk result (λ j. j ≡ takes_along checked.now.names shown.now.structure
        (goal_path checked.now shown.now.goal) shown.now.trace.havoc) }
{
    let path = checked.path(&shown.goal);
    let havocs = shown.trace.havoc.as_slice();
    havocs_value(alloc, checked, &shown.structure, &path, havocs)
}

// The structure in which the shown path ends; null where it aborts.
fn end_value(alloc: Global, checked: &Checked, shown: &Counterexample) -> Mem<Json>
    requires { IsExecution checked.now shown.now }
    ensures { IfOk result (λ j. j ≡ end_data checked.now.names (outcome_of checked.now shown.now)) }
{
    let path = checked.path(&shown.goal);
    match follow(alloc, checked, &path, &shown.trace, &shown.structure)? {
        Followed::Ended(end) => {
            let value = structure_value(alloc, checked.model(), &end);
            drop(end);
            value
        }
        Followed::Aborted | Followed::Blocked => Ok(Json::null()),
    }
}

// The first of them, or null.
fn first_given(given: &[Json]) -> Mem<Json>
    ensures { IfOk result (λ j. j ≡ first_or_null given.now) }
{
    match given.first() {
        None => Ok(Json::null()),
        Some(first) => first.copy(),
    }
}

/// Those behind the first.
pub fn behind_first(given: &[Json]) -> &[Json]
    ensures { result.now ≡ drop 1 given.now }
{
    match given.split_first() {
        None => given,
        Some((_, others)) => others,
    }
}

// Adds the structures in which the execution begins and ends.
fn with_ends(
    alloc: Global,
    object: ObjectBuilder,
    checked: &Checked,
    shown: &Counterexample,
) -> ObjectBuilder
    requires { IsExecution checked.now shown.now }
    ensures { IsBuiltBy object (end_members checked.now shown.now) result }
{
    let before = structure_value(alloc, checked.model(), &shown.structure);
    object
        .with("before", before)
        .with("after", end_value(alloc, checked, shown))
}

/// An execution. What else is told of it is the first that is given, or null, and stands under "branches".
#[tactic(auto, unfolding(crate::specs::ExecutionData::execution_data))]
pub fn execution_value(
    alloc: Global,
    checked: &Checked,
    shown: &Counterexample,
    branches: &[Json],
) -> Mem<Json>
    requires { IsExecution checked.now shown.now }
    ensures { IfOk result (λ j. j ≡ execution_data checked.now shown.now (first_or_null branches.now)) }
{
    let object = ObjectBuilder::new(alloc).with("branches", first_given(branches));
    with_ends(alloc, object, checked, shown)
        .with("takes", takes_value(alloc, checked, shown))
        .with("values", numbers(alloc, shown.values.as_slice()))
        .into_json()
}
