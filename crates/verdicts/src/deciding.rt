// The answer to a group: its goals are decided in order, up to the first that fails.
ghost use Rattle.std.specs.Prelude.{◌≡◌, length, IfOk};
ghost use Rattle.std.specs.List.{AllByRecursion};
ghost use Rattle.rml_command.specs.Goals.{HasAbout, IsGoal, stage_paths};
ghost use Rattle.rml_report.specs.Reports.{head_of};
ghost use Rattle.pool_wp.specs.Sharing.{IsPoolOf};
ghost use Rattle.limits.specs.Ceilings.{ceilings};
ghost use Rattle.verdicts.specs.Answers.{IsAnswerTo, IsGroupNow};
ghost use Rattle.verdicts.specs.Earliest.{answer_of};

use crate::listing::group_goals;
use base::Mem;
use cti_minimise::least;
use lean_decide::{Counted, Settled, settle};
use limits::{Cause, Limits};
use pool_wp::ModelPool;
use rml_command::{Checked, Goal, Head};
use rml_report::{Answer, Group};
use std::alloc::Global;

// A goal that was left open, by its path.
#[derive(Clone, Copy)]
struct OpenGoal {
    path: u32,
    cause: Cause,
}

// The answer where no goal fails, by the first that is open.
fn answer_of(earliest: Option<OpenGoal>) -> Answer
    ensures { result ≡ answer_of earliest }
{
    match earliest {
        Some(OpenGoal { path, cause }) => Answer::Undecided { path, cause },
        None => Answer::Holds,
    }
}

// The answer to some goals of a block with so many paths.
fn decide_goals(
    alloc: Global,
    shared: &mut ModelPool,
    checked: &Checked,
    counted: Counted,
    limits: &Limits,
    goals: &[Goal],
    paths: u32,
) -> Mem<Answer>
    requires shared { IsPoolOf checked.now shared.old }
    requires goals { AllByRecursion (IsGoal checked.now) goals.now }
    ensures answered { IfOk result (IsAnswerTo counted (ceilings limits.now) checked.now paths goals.now) }
    ensures shared { IsPoolOf checked.now shared.new }
{
    let mut earliest = None;
    for goal in goals {
        match settle(alloc, shared, checked, goal, counted, limits)? {
            Settled::Holds => {}
            Settled::Fails(shown) => {
                let (shown, least) = least(alloc, checked, goal, shown, limits)?;
                return Ok(Answer::Fails {
                    paths,
                    least,
                    shown,
                });
            }
            Settled::Undecided(cause) => {
                let path = goal.path;
                earliest = earliest.or(Some(OpenGoal { path, cause }));
            }
        }
    }
    Ok(answer_of(earliest))
}

/// A group with its answer under limits on these counts.
pub fn decide_group(
    alloc: Global,
    shared: &mut ModelPool,
    checked: &Checked,
    counted: Counted,
    limits: &Limits,
    head: Head,
) -> Mem<Group>
    requires shared { IsPoolOf checked.now shared.old }
    requires about { HasAbout checked.now head.stage head.about }
    ensures now { IfOk result (IsGroupNow counted (ceilings limits.now) checked.now) }
    ensures head { IfOk result (λ g. head_of g ≡ head) }
    ensures shared { IsPoolOf checked.now shared.new }
{
    let goals = group_goals(alloc, checked, head)?;
    let paths = checked.stage_paths(head.stage).len() as u32;
    let answer = decide_goals(alloc, shared, checked, counted, limits, &goals, paths)?;
    Ok(Group {
        stage: head.stage,
        about: head.about,
        answer,
    })
}
