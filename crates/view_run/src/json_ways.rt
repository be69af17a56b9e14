// The branches that paths take, as JSON.
ghost use Rattle.std.specs.Prelude.{◌≡◌, ◌≤◌, [], ◌∷◌, codes, length, map, IfOk};
ghost use Rattle.serde_json.specs.Data.{boolean, string};
ghost use Rattle.branches.specs.Within.{MarksWithin};
ghost use Rattle.json_values.specs.Values.{IsBuiltBy, list_data};
ghost use Rattle.view_run.specs.WayData.{turn_members, mark_data, ways_data, answer_ways, group_ways, drop_ways};

use base::Mem;
use branches::{Mark, Source, Turn};
use json_values::{Json, JsonList, ObjectBuilder};
use rml_command::Stage;
use rml_houdini::Dropped;
use rml_lex::place;
use rml_report::{Answer, Group};
use std::alloc::Global;

// Which word stands there, and whether it is so.
fn with_way(object: ObjectBuilder, at: &str, what: &str, is_so: bool) -> ObjectBuilder
    ensures { IsBuiltBy object ((codes "at", string at.now) ∷ (what.now, boolean is_so) ∷ []) result }
{
    object
        .with_word("at", at)
        .with(what, Ok(Json::truth(is_so)))
}

// Which word stands there, and the way that is taken.
fn with_turn(object: ObjectBuilder, turn: Turn) -> ObjectBuilder
    ensures { IsBuiltBy object (turn_members turn) result }
{
    match turn {
        Turn::AssertFails => with_way(object, "assert", "holds", false),
        Turn::AssertPasses => with_way(object, "assert", "passed", true),
        Turn::IfHolds => with_way(object, "if", "holds", true),
        Turn::IfFails => with_way(object, "if", "holds", false),
        Turn::Takes(branch) => object
            .with_word("at", "choose")
            .with_number("branch", branch.number)
            .with_number("of", branch.count),
    }
}

#[tactic(auto, unfolding(crate::specs::WayData::mark_data))]
fn mark_value(alloc: Global, text: &[u8], mark: Mark) -> Mem<Json>
    requires { mark.at ≤ length text.now }
    ensures { IfOk result (λ j. j ≡ mark_data text.now mark) }
{
    let (line, column) = place(text, mark.at);
    let object = ObjectBuilder::new(alloc)
        .with_number("line", line)
        .with_number("column", column);
    with_turn(object, mark.turn).into_json()
}

// The marks of a path, in order.
#[tactic(auto, using(std::proofs::Common::append_assoc))]
fn marks_value(alloc: Global, text: &[u8], marks: &[Mark]) -> Mem<Json>
    requires { MarksWithin (length text.now) marks.now }
    ensures { IfOk result (λ j. j ≡ list_data (map (mark_data text.now) marks.now)) }
{
    let mut list = JsonList::new(alloc);
    let mut rest = marks;
    while let [mark, after @ ..] = rest {
        list.push(mark_value(alloc, text, *mark));
        rest = after;
    }
    list.into_json()
}

// Those that a path of a stage's block takes.
fn ways_value(alloc: Global, source: &Option<Source>, stage: Stage, path: u32) -> Mem<Json>
    ensures { IfOk result (λ j. j ≡ ways_data source.now stage path) }
{
    match source {
        None => JsonList::new(alloc).into_json(),
        Some(source) => {
            let marks = source.marks(stage, path)?;
            marks_value(alloc, source.text(), &marks)
        }
    }
}

// Of a group that fails.
fn answer_ways(alloc: Global, source: &Option<Source>, stage: Stage, answer: &Answer) -> Mem<Json>
    ensures { IfOk result (λ j. j ≡ answer_ways source.now stage answer.now) }
{
    match answer {
        Answer::Fails { shown, .. } => ways_value(alloc, source, stage, shown.trace.path),
        Answer::Holds | Answer::Undecided { .. } => Ok(Json::null()),
    }
}

/// Those of the groups of a report.
#[tactic(auto, using(std::proofs::Common::append_assoc))]
pub fn group_ways(alloc: Global, source: &Option<Source>, groups: &[Group]) -> Mem<Vec<Json>>
    ensures { IfOk result (λ l. l.items ≡ group_ways source.now groups.now) }
{
    let mut list = Vec::new(alloc);
    let mut rest = groups;
    while let [group, after @ ..] = rest {
        list.push(answer_ways(alloc, source, group.stage, &group.answer)?)?;
        rest = after;
    }
    Ok(list)
}

/// Those of the executions that drop conjectures.
#[tactic(auto, using(std::proofs::Common::append_assoc))]
pub fn drop_ways(alloc: Global, source: &Option<Source>, drops: &[Dropped]) -> Mem<Vec<Json>>
    ensures { IfOk result (λ l. l.items ≡ drop_ways source.now drops.now) }
{
    let mut list = Vec::new(alloc);
    let mut rest = drops;
    while let [dropped, after @ ..] = rest {
        let shown = &dropped.shown;
        list.push(ways_value(alloc, source, shown.goal.stage, shown.trace.path)?)?;
        rest = after;
    }
    Ok(list)
}
