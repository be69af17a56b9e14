// Which conjectures carry which group, as JSON.
ghost use Rattle.std.specs.Prelude.{◌≡◌, map, IfOk};
ghost use Rattle.std.specs.List.{AllByRecursion};
ghost use Rattle.rml_report.specs.Reports.{IsExecution};
ghost use Rattle.model_reasons.specs.Laws.{LackIsShown, CarriedIsShown};
ghost use Rattle.json_values.specs.Values.{IsBuiltBy, list_data};
ghost use Rattle.json_outcome.specs.HoudiniData.{names_data};
ghost use Rattle.json_outcome.specs.ReasonsData.{lack_data, need_data, carried_members, reason_data, idle_members};
ghost use Rattle.json_outcome.specs.ReasonsData.{reasons_members};

use crate::execution::execution_value;
use crate::group::{cause_value, name_value, with_group};
use crate::houdini::names_value;
use base::Mem;
use json_values::{Json, JsonList, JsonObject, ObjectBuilder};
use limits::Cause;
use model_reasons::{Reason, are_carried, idle};
use rml_command::{Checked, Goal, Names};
use rml_exec::Counterexample;
use rml_reasons::{Carried, Lack, Need};
use std::alloc::Global;

#[tactic(auto, unfolding(crate::specs::ReasonsData::lack_data))]
fn open_value(alloc: Global, checked: &Checked, goal: &Goal, cause: &Cause) -> Mem<Json>
    ensures { IfOk result (λ j. j ≡ lack_data checked.now (Lack.Open goal.now cause.now)) }
{
    ObjectBuilder::new(alloc)
        .with_word("answer", "undecided")
        .with_number("path", goal.path as u64)
        .with("cause", cause_value(alloc, cause))
        .into_json()
}

#[tactic(auto, unfolding(crate::specs::ReasonsData::lack_data))]
fn failing_value(alloc: Global, checked: &Checked, shown: &Counterexample) -> Mem<Json>
    requires { IsExecution checked.now shown.now }
    ensures { IfOk result (λ j. j ≡ lack_data checked.now (Lack.Fails shown.now)) }
{
    let execution = execution_value(alloc, checked, shown, &[]);
    ObjectBuilder::new(alloc)
        .with("execution", execution)
        .with_word("answer", "fails")
        .with_number("path", shown.goal.path as u64)
        .into_json()
}

// What a group lacks.
fn lack_value(alloc: Global, checked: &Checked, lack: &Lack) -> Mem<Json>
    requires { LackIsShown checked.now lack.now }
    ensures { IfOk result (λ j. j ≡ lack_data checked.now lack.now) }
{
    match lack {
        Lack::Fails(shown) => failing_value(alloc, checked, shown),
        Lack::Open(goal, cause) => open_value(alloc, checked, goal, cause),
    }
}

#[tactic(auto, unfolding(crate::specs::ReasonsData::need_data))]
fn need_value(alloc: Global, checked: &Checked, need: &Need) -> Mem<Json>
    requires { LackIsShown checked.now need.now.lack }
    ensures { IfOk result (λ j. j ≡ need_data checked.now need.now) }
{
    let conjectures = checked.model().names().conjectures.as_slice();
    ObjectBuilder::new(alloc)
        .with(
            "conjecture",
            name_value(alloc, conjectures, need.conjecture),
        )
        .with("without", lack_value(alloc, checked, &need.lack))
        .into_json()
}

#[tactic(auto, using(std::proofs::Common::append_assoc))]
fn need_values(alloc: Global, checked: &Checked, needs: &[Need]) -> Mem<Json>
    requires { AllByRecursion (λ n. LackIsShown checked.now n.lack) needs.now }
    ensures { IfOk result (λ j. j ≡ list_data (map (need_data checked.now) needs.now)) }
{
    let mut list = JsonList::new(alloc);
    let mut rest = needs;
    while let [need, after @ ..] = rest {
        list.push(need_value(alloc, checked, need));
        rest = after;
    }
    list.into_json()
}

fn with_carried(
    alloc: Global,
    object: ObjectBuilder,
    checked: &Checked,
    carried: &Carried,
) -> ObjectBuilder
    requires { CarriedIsShown checked.now carried.now }
    ensures { IsBuiltBy object (carried_members checked.now carried.now) result }
{
    match carried {
        Carried::By(needs) => object
            .with("carried", Ok(Json::truth(true)))
            .with("needs", need_values(alloc, checked, needs.as_slice())),
        Carried::Not(lack) => object
            .with("carried", Ok(Json::truth(false)))
            .with("lack", lack_value(alloc, checked, lack)),
    }
}

#[tactic(auto, unfolding(crate::specs::ReasonsData::reason_data))]
fn reason_value(alloc: Global, checked: &Checked, reason: &Reason) -> Mem<Json>
    requires { CarriedIsShown checked.now reason.now.carried }
    ensures { IfOk result (λ j. j ≡ reason_data checked.now reason.now) }
{
    let names = checked.model().names();
    let object = ObjectBuilder::new(alloc);
    let object = with_group(alloc, object, names, reason.stage, reason.about);
    with_carried(alloc, object, checked, &reason.carried).into_json()
}

#[tactic(auto, using(std::proofs::Common::append_assoc))]
fn reason_values(alloc: Global, checked: &Checked, reasons: &[Reason]) -> Mem<Json>
    requires { AllByRecursion (λ r. CarriedIsShown checked.now r.carried) reasons.now }
    ensures { IfOk result (λ j. j ≡ list_data (map (reason_data checked.now) reasons.now)) }
{
    let mut list = JsonList::new(alloc);
    let mut rest = reasons;
    while let [reason, after @ ..] = rest {
        list.push(reason_value(alloc, checked, reason));
        rest = after;
    }
    list.into_json()
}

fn with_idle(
    alloc: Global,
    object: ObjectBuilder,
    names: &Names,
    all: bool,
    idle: &[u32],
) -> ObjectBuilder
    ensures { IsBuiltBy object (idle_members all (names_data names.now idle.now)) result }
{
    let key = if all { "idle" } else { "idle_so_far" };
    object.with(key, names_value(alloc, names, idle))
}

/// What carries the groups of a model, and which conjectures carry no group but their own.
#[tactic(auto, unfolding(crate::specs::ReasonsData::reasons_members))]
pub fn reasons_object(alloc: Global, checked: &Checked, reasons: &[Reason]) -> Mem<JsonObject>
    requires { AllByRecursion (λ r. CarriedIsShown checked.now r.carried) reasons.now }
    ensures { IfOk result (λ o. o ≡ reasons_members checked.now reasons.now) }
{
    let names = checked.model().names();
    let idle = idle(alloc, checked, reasons)?;
    let object = ObjectBuilder::new(alloc)
        .with_word("command", "why")
        .with("groups", reason_values(alloc, checked, reasons));
    let all = are_carried(reasons);
    with_idle(alloc, object, names, all, idle.as_slice()).build()
}
