// The goals of a group.
ghost use Rattle.std.specs.Prelude.{◌≡◌, ◌≤◌, length, IfOk};
ghost use Rattle.std.specs.List.{AllByRecursion};
ghost use Rattle.rml_command.specs.Goals.{HasAbout, IsGoal, goals_among, group_goals};

use base::Mem;
use rml_command::{Checked, Goal, Head, Paths, is_for};
use std::alloc::Global;

// The goals among the paths of a stage's block.
fn goals_among(alloc: Global, head: Head, paths: &Paths) -> Mem<Vec<Goal>>
    requires { length paths.now ≤ 4096 }
    ensures { IfOk result (λ goals. goals.items ≡ goals_among head 1 paths.now) }
{
    let Head { stage, about } = head;
    let mut goals = Vec::new(alloc);
    for i in 0..paths.len() {
        if !is_for(about, &paths.path(i)) {
            continue;
        }
        goals.push(Goal {
            stage,
            path: i as u32 + 1,
            about,
        })?;
    }
    Ok(goals)
}

/// The goals of a group, in the order of its paths.
pub fn group_goals(alloc: Global, checked: &Checked, head: Head) -> Mem<Vec<Goal>>
    requires { HasAbout checked.now head.stage head.about }
    ensures goals { IfOk result (λ goals. goals.items ≡ group_goals checked.now head) }
    ensures each { IfOk result (λ goals. AllByRecursion (IsGoal checked.now) goals.items) }
{
    let paths = checked.stage_paths(head.stage);
    let goals = goals_among(alloc, head, paths)?;
    Ok(goals)
}
