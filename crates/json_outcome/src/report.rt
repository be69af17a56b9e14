// The report of a check.
ghost use Rattle.std.specs.Prelude.{◌≡◌, IfOk};
ghost use Rattle.std.specs.List.{AllByRecursion};
ghost use Rattle.rml_report.specs.Reports.{IsRefutation, ShowsRefutation, CanRender};
ghost use Rattle.json_values.specs.Values.{IsBuiltBy, list_data};
ghost use Rattle.json_outcome.specs.ExecutionData.{first_or_null};
ghost use Rattle.json_outcome.specs.ReportData.{failing_members, undecided_members, answer_members, group_data};
ghost use Rattle.json_outcome.specs.ReportData.{groups_data, open_data};
ghost use Rattle.json_outcome.specs.ReportData.{settled_data, axioms_data, verdict_data, report_members};

use crate::execution::{behind_first, execution_value};
use crate::group::{cause_value, least_value, with_group};
use base::Mem;
use json_values::{Json, JsonList, JsonObject, ObjectBuilder};
use limits::Cause;
use rml_command::Checked;
use rml_exec::Counterexample;
use rml_report::{Answer, Axioms, Group, Least, Report, Verdict};
use std::alloc::Global;

fn with_failing(
    alloc: Global,
    object: ObjectBuilder,
    checked: &Checked,
    paths: u32,
    least: &Least,
    shown: &Counterexample,
    branches: &[Json],
) -> ObjectBuilder
    requires { IsRefutation checked.now shown.now }
    ensures { IsBuiltBy object
        (failing_members checked.now paths least.now shown.now (first_or_null branches.now)) result }
{
    object
        .with(
            "execution",
            execution_value(alloc, checked, shown, branches),
        )
        .with_word("answer", "fails")
        .with_number("path", shown.trace.path as u64)
        .with_number("paths", paths as u64)
        .with("least", least_value(alloc, checked.model().names(), least))
}

fn with_open(alloc: Global, object: ObjectBuilder, path: u32, cause: &Cause) -> ObjectBuilder
    ensures { IsBuiltBy object (undecided_members path cause.now) result }
{
    object
        .with_word("answer", "undecided")
        .with_number("path", path as u64)
        .with("cause", cause_value(alloc, cause))
}

// Adds what is said of a group.
fn with_answer(
    alloc: Global,
    object: ObjectBuilder,
    checked: &Checked,
    answer: &Answer,
    branches: &[Json],
) -> ObjectBuilder
    requires { ShowsRefutation checked.now answer.now }
    ensures { IsBuiltBy object (answer_members checked.now answer.now (first_or_null branches.now)) result }
{
    match answer {
        Answer::Holds => object.with_word("answer", "holds"),
        Answer::Fails {
            paths,
            least,
            shown,
        } => with_failing(alloc, object, checked, *paths, least, shown, branches),
        Answer::Undecided { path, cause } => with_open(alloc, object, *path, cause),
    }
}

// A group, with the first of what is told of executions.
#[tactic(auto, unfolding(crate::specs::ReportData::group_data))]
fn group_value(alloc: Global, checked: &Checked, group: &Group, branches: &[Json]) -> Mem<Json>
    requires { CanRender checked.now group.now }
    ensures { IfOk result (λ j. j ≡ group_data checked.now group.now (first_or_null branches.now)) }
{
    let names = checked.model().names();
    let object = ObjectBuilder::new(alloc);
    let object = with_group(alloc, object, names, group.stage, group.about);
    with_answer(alloc, object, checked, &group.answer, branches).into_json()
}

#[tactic(auto, using(std::proofs::Common::append_assoc))]
fn group_values(alloc: Global, checked: &Checked, groups: &[Group], branches: &[Json]) -> Mem<Json>
    requires { AllByRecursion (CanRender checked.now) groups.now }
    ensures { IfOk result (λ j. j ≡ list_data (groups_data checked.now groups.now branches.now)) }
{
    let mut list = JsonList::new(alloc);
    let mut rest = groups;
    let mut given = branches;
    while let [group, after @ ..] = rest {
        list.push(group_value(alloc, checked, group, given));
        rest = after;
        given = behind_first(given);
    }
    list.into_json()
}

#[tactic(auto, unfolding(crate::specs::ReportData::settled_data))]
fn settled_value(alloc: Global, answer: &str) -> Mem<Json>
    ensures { IfOk result (λ j. j ≡ settled_data answer.now) }
{
    ObjectBuilder::new(alloc)
        .with_word("answer", answer)
        .into_json()
}

#[tactic(auto, unfolding(crate::specs::ReportData::open_data))]
fn open_value(alloc: Global, cause: &Cause) -> Mem<Json>
    ensures { IfOk result (λ j. j ≡ open_data cause.now) }
{
    ObjectBuilder::new(alloc)
        .with_word("answer", "undecided")
        .with("cause", cause_value(alloc, cause))
        .into_json()
}

fn axioms_value(alloc: Global, axioms: &Axioms) -> Mem<Json>
    ensures { IfOk result (λ j. j ≡ axioms_data axioms.now) }
{
    match axioms {
        Axioms::Consistent => settled_value(alloc, "consistent"),
        Axioms::Inconsistent => settled_value(alloc, "inconsistent"),
        Axioms::Undecided(cause) => open_value(alloc, cause),
    }
}

fn verdict_value(alloc: Global, verdict: Verdict) -> Mem<Json>
    ensures { IfOk result (λ j. j ≡ verdict_data verdict) }
{
    match verdict {
        Verdict::Inductive => Json::word(alloc, "inductive"),
        Verdict::NotInductive => Json::word(alloc, "not inductive"),
        Verdict::Undecided => Json::word(alloc, "undecided"),
    }
}

/// A report, as members to which others can be added. `branches` has, for each group in order, what is told of its
/// execution; where it is shorter, null is.
#[tactic(auto, unfolding(crate::specs::ReportData::report_members))]
pub fn report_object(
    alloc: Global,
    checked: &Checked,
    report: &Report,
    branches: &[Json],
) -> Mem<JsonObject>
    requires { AllByRecursion (CanRender checked.now) report.now.groups }
    ensures { IfOk result (λ o. o ≡ report_members checked.now report.now branches.now) }
{
    let groups = group_values(alloc, checked, report.groups.as_slice(), branches);
    ObjectBuilder::new(alloc)
        .with_word("command", "check")
        .with("verdict", verdict_value(alloc, report.verdict))
        .with("axioms", axioms_value(alloc, &report.axioms))
        .with("groups", groups)
        .build()
}
