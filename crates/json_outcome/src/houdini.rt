// The greatest inductive set.
ghost use Rattle.std.specs.Prelude.{◌≡◌, IfOk};
ghost use Rattle.std.specs.List.{AllByRecursion};
ghost use Rattle.rml_houdini.specs.HoudiniText.{CanRender};
ghost use Rattle.json_values.specs.Values.{list_data};
ghost use Rattle.json_outcome.specs.ExecutionData.{first_or_null};
ghost use Rattle.json_outcome.specs.HoudiniData.{names_data, dropped_data, drops_data, open_data, unsettled_data};
ghost use Rattle.json_outcome.specs.HoudiniData.{verdict_data, houdini_members};

use crate::execution::{behind_first, execution_value};
use crate::group::{cause_value, name_value, with_group};
use base::Mem;
use json_values::{Json, JsonList, JsonObject, ObjectBuilder};
use limits::Cause;
use rml_command::{Checked, Goal, Names};
use rml_houdini::{Dropped, Houdini};
use std::alloc::Global;

/// The names of conjectures.
#[tactic(auto, using(std::proofs::Common::append_assoc), unfolding(crate::specs::HoudiniData::names_data))]
pub fn names_value(alloc: Global, names: &Names, conjectures: &[u32]) -> Mem<Json>
    ensures { IfOk result (λ j. j ≡ names_data names.now conjectures.now) }
{
    let mut list = JsonList::new(alloc);
    let mut rest = conjectures;
    while let [conjecture, after @ ..] = rest {
        list.push(name_value(alloc, names.conjectures.as_slice(), *conjecture));
        rest = after;
    }
    list.into_json()
}

// A dropped conjecture, and the execution that breaks it, with the first of what is told of executions.
#[tactic(auto, unfolding(crate::specs::HoudiniData::dropped_data))]
fn dropped_value(
    alloc: Global,
    checked: &Checked,
    dropped: &Dropped,
    branches: &[Json],
) -> Mem<Json>
    requires { CanRender checked.now dropped.now }
    ensures { IfOk result (λ j. j ≡ dropped_data checked.now dropped.now (first_or_null branches.now)) }
{
    let names = checked.model().names();
    let goal = dropped.shown.goal;
    let paths = checked.stage_paths(goal.stage).len();
    let conjecture = name_value(alloc, names.conjectures.as_slice(), dropped.conjecture);
    let execution = execution_value(alloc, checked, &dropped.shown, branches);
    let object = ObjectBuilder::new(alloc)
        .with("execution", execution)
        .with("conjecture", conjecture)
        .with("held", names_value(alloc, names, dropped.held.as_slice()));
    with_group(alloc, object, names, goal.stage, goal.about)
        .with_number("path", dropped.shown.trace.path as u64)
        .with_number("paths", paths as u64)
        .into_json()
}

// The drops, each with what is told of its execution.
#[tactic(auto, using(std::proofs::Common::append_assoc))]
fn drop_values(alloc: Global, checked: &Checked, drops: &[Dropped], branches: &[Json]) -> Mem<Json>
    requires { AllByRecursion (CanRender checked.now) drops.now }
    ensures { IfOk result (λ j. j ≡ list_data (drops_data checked.now drops.now branches.now)) }
{
    let mut list = JsonList::new(alloc);
    let mut rest = drops;
    let mut given = branches;
    while let [dropped, after @ ..] = rest {
        list.push(dropped_value(alloc, checked, dropped, given));
        rest = after;
        given = behind_first(given);
    }
    list.into_json()
}

// The goal that is left open.
#[tactic(auto, unfolding(crate::specs::HoudiniData::open_data))]
fn open_value(alloc: Global, names: &Names, goal: &Goal, cause: &Cause) -> Mem<Json>
    ensures { IfOk result (λ j. j ≡ open_data names.now goal.now cause.now) }
{
    let object = ObjectBuilder::new(alloc);
    with_group(alloc, object, names, goal.stage, goal.about)
        .with_number("path", goal.path as u64)
        .with("cause", cause_value(alloc, cause))
        .into_json()
}

fn unsettled_value(alloc: Global, names: &Names, unsettled: Option<(Goal, Cause)>) -> Mem<Json>
    ensures { IfOk result (λ j. j ≡ unsettled_data names.now unsettled) }
{
    match unsettled {
        None => Ok(Json::null()),
        Some((goal, cause)) => open_value(alloc, names, &goal, &cause),
    }
}

fn verdict_value(alloc: Global, unsettled: Option<(Goal, Cause)>) -> Mem<Json>
    ensures { IfOk result (λ j. j ≡ verdict_data unsettled) }
{
    match unsettled {
        None => Json::word(alloc, "greatest"),
        Some(_) => Json::word(alloc, "undecided"),
    }
}

/// What is found, as members to which others can be added. `branches` has, for each drop in order, what is told of its
/// execution; where it is shorter, null is.
#[tactic(auto, unfolding(crate::specs::HoudiniData::houdini_members))]
pub fn houdini_object(
    alloc: Global,
    checked: &Checked,
    houdini: &Houdini,
    branches: &[Json],
) -> Mem<JsonObject>
    requires { AllByRecursion (CanRender checked.now) houdini.now.dropped }
    ensures { IfOk result (λ o. o ≡ houdini_members checked.now houdini.now branches.now) }
{
    let names = checked.model().names();
    let dropped = drop_values(alloc, checked, houdini.dropped.as_slice(), branches);
    ObjectBuilder::new(alloc)
        .with_word("command", "houdini")
        .with("verdict", verdict_value(alloc, houdini.unsettled))
        .with("dropped", dropped)
        .with("kept", names_value(alloc, names, houdini.kept.as_slice()))
        .with("open", unsettled_value(alloc, names, houdini.unsettled))
        .build()
}
