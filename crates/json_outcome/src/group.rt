// Names, and what a group is about.
ghost use Rattle.std.specs.Prelude.{◌≡◌, IfOk};
ghost use Rattle.json_values.specs.Values.{named_data, IsBuiltBy};
ghost use Rattle.json_outcome.specs.GroupData.{name_data, stage_data, about_data, cause_data, bound_data, stopped_data};
ghost use Rattle.json_outcome.specs.GroupData.{least_data, group_members};

use base::Mem;
use json_values::{Json, ObjectBuilder, counted, kind};
use limits::Cause;
use rml_command::{About, Name, Names, Stage};
use rml_report::{Bound, Least};
use std::alloc::Global;

/// The name of this number; the empty text where there is none.
#[tactic(auto, unfolding(crate::specs::GroupData::name_data))]
pub fn name_value(alloc: Global, names: &[Name], k: u32) -> Mem<Json>
    ensures { IfOk result (λ j. j ≡ name_data names.now k) }
{
    match names.get(k as usize) {
        None => Json::text(alloc, "".as_bytes()),
        Some(name) => Json::text(alloc, name.as_slice()),
    }
}

// What something is, and the name of this number.
#[tactic(auto, unfolding(json_values::specs::Values::named_data))]
fn named_value(alloc: Global, word: &str, names: &[Name], k: u32) -> Mem<Json>
    ensures { IfOk result (λ j. j ≡ named_data word.now (name_data names.now k)) }
{
    ObjectBuilder::new(alloc)
        .with_word("kind", word)
        .with("name", name_value(alloc, names, k))
        .into_json()
}

/// A stage.
pub fn stage_value(alloc: Global, names: &Names, stage: Stage) -> Mem<Json>
    ensures { IfOk result (λ j. j ≡ stage_data names.now stage) }
{
    match stage {
        Stage::Init => kind(alloc, "init"),
        Stage::Action(action) => named_value(alloc, "action", names.actions.as_slice(), action),
        Stage::Final => kind(alloc, "final"),
    }
}

/// What is forbidden.
pub fn about_value(alloc: Global, names: &Names, about: About) -> Mem<Json>
    ensures { IfOk result (λ j. j ≡ about_data names.now about) }
{
    match about {
        About::Abort => kind(alloc, "abort"),
        About::Conjecture(conjecture) => {
            named_value(
                alloc,
                "conjecture",
                names.conjectures.as_slice(),
                conjecture,
            )
        }
    }
}

/// Adds what a group is about.
pub fn with_group(
    alloc: Global,
    object: ObjectBuilder,
    names: &Names,
    stage: Stage,
    about: About,
) -> ObjectBuilder
    ensures { IsBuiltBy object (group_members names.now stage about) result }
{
    object
        .with("stage", stage_value(alloc, names, stage))
        .with("about", about_value(alloc, names, about))
}

/// Why a question was left open.
pub fn cause_value(alloc: Global, cause: &Cause) -> Mem<Json>
    ensures { IfOk result (λ j. j ≡ cause_data cause.now) }
{
    match cause {
        Cause::Formula => kind(alloc, "formula"),
        Cause::Terms(n) => counted(alloc, "terms", *n),
        Cause::Ground(n) => counted(alloc, "ground", *n),
        Cause::Conflicts(n) => counted(alloc, "conflicts", *n),
    }
}

// What a trial bounds.
fn bound_value(alloc: Global, names: &Names, bound: Bound) -> Mem<Json>
    ensures { IfOk result (λ j. j ≡ bound_data names.now bound) }
{
    match bound {
        Bound::Sort(sort) => named_value(alloc, "sort", names.sorts.as_slice(), sort.0),
        Bound::Rel(rel) => named_value(alloc, "relation", names.relations.as_slice(), rel.0),
    }
}

#[tactic(auto, unfolding(crate::specs::GroupData::stopped_data))]
fn stopped_value(alloc: Global, names: &Names, bound: Bound, size: u64, cause: &Cause) -> Mem<Json>
    ensures { IfOk result (λ j. j ≡ stopped_data names.now bound size cause.now) }
{
    ObjectBuilder::new(alloc)
        .with("at", bound_value(alloc, names, bound))
        .with_number("size", size)
        .with("cause", cause_value(alloc, cause))
        .into_json()
}

/// Whether what is shown is least, or what stopped the search for less.
pub fn least_value(alloc: Global, names: &Names, least: &Least) -> Mem<Json>
    ensures { IfOk result (λ j. j ≡ least_data names.now least.now) }
{
    match least {
        Least::Yes => Ok(Json::truth(true)),
        Least::Stopped { at, size, cause } => stopped_value(alloc, names, *at, *size, cause),
    }
}
