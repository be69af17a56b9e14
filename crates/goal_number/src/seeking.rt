// The goals are counted off in order, up to the one that is sought.
ghost use Rattle.std.specs.Prelude.{◌≡◌, ◌≤◌, length};
ghost use Rattle.std.specs.List.{flat_map};
ghost use Rattle.rml_command.specs.Goals.{HasAbout, IsGoal, is_for, group_goals, stage_groups, stage_paths};
ghost use Rattle.goal_number.specs.Seeking.{seek, seek_on, IfFound, IsBeforeFinal, IsFoundOrLeft};

use rml_command::{About, Checked, Goal, Stage, is_for};

/// The goal, or how many more are to be counted off.
#[derive(Clone, Copy, Debug)]
pub enum Sought {
    Found(Goal),
    Left(u64),
}

fn action_count(checked: &Checked) -> u32
    ensures { result ≡ length checked.now.actions }
{
    checked.model().actions().len() as u32
}

fn conjecture_count(checked: &Checked) -> u32
    ensures { result ≡ length checked.now.conjectures }
{
    checked.model().conjectures().len() as u32
}

// Counts off the goals of a group.
fn seek_in(checked: &Checked, stage: Stage, about: About, most: u64) -> Sought
    requires { HasAbout checked.now stage about }
    ensures place { result ≡ seek most (group_goals checked.now (record { stage = stage; about = about })) }
    ensures goal { IfFound (IsGoal checked.now) result }
{
    let paths = checked.stage_paths(stage);
    let mut left = most;
    for i in 0..paths.len() {
        if !is_for(about, &paths.path(i)) {
            continue;
        }
        if left == 0 {
            let path = i as u32 + 1;
            return Sought::Found(Goal { stage, path, about });
        }
        left -= 1;
    }
    Sought::Left(left)
}

// Counts off the goals of a group, where the goal was not found before.
fn seek_group(checked: &Checked, stage: Stage, about: About, sought: Sought) -> Sought
    requires { HasAbout checked.now stage about }
    ensures place { result ≡ seek_on sought (group_goals checked.now (record { stage = stage; about = about })) }
    ensures goal { IfFound (IsGoal checked.now) sought → IfFound (IsGoal checked.now) result }
{
    match sought {
        Sought::Found(_) => sought,
        Sought::Left(left) => seek_in(checked, stage, about, left),
    }
}

// Counts off the goals of init or an action.
fn seek_stage(checked: &Checked, stage: Stage, before: Sought) -> Sought
    requires { IsBeforeFinal checked.now stage }
    ensures place { result ≡ seek_on before (flat_map (group_goals checked.now) (stage_groups checked.now stage)) }
    ensures goal { IfFound (IsGoal checked.now) before → IfFound (IsGoal checked.now) result }
{
    let mut sought = seek_group(checked, stage, About::Abort, before);
    let count = conjecture_count(checked);
    for k in 0..count {
        sought = seek_group(checked, stage, About::Conjecture(k), sought);
    }
    sought
}

/// Counts off all goals, as far as the one behind so many.
pub fn seek_all(checked: &Checked, place: u64) -> Sought
    ensures { IsFoundOrLeft checked.now place result }
{
    let mut sought = seek_stage(checked, Stage::Init, Sought::Left(place));
    let count = action_count(checked);
    for a in 0..count {
        sought = seek_stage(checked, Stage::Action(a), sought);
    }
    seek_group(checked, Stage::Final, About::Abort, sought)
}
