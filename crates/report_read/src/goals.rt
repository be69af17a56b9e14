// Which paths are goals of a group.
ghost use Rattle.std.specs.Prelude.{◌≡◌, ◌≤◌, length, true};
ghost use Rattle.rml_command.specs.Goals.{is_for, stage_paths};
ghost use Rattle.report_read.specs.LineReading.{is_goal_at, has_goal};

use rml_command::{About, Checked, Stage, is_for};

/// How many paths the block of a stage has.
pub fn path_count(checked: &Checked, stage: Stage) -> u32
    ensures { result ≡ length (stage_paths checked.now stage) }
{
    checked.stage_paths(stage).len() as u32
}

/// Whether the path of this number, from 1, is a goal.
pub fn is_goal(checked: &Checked, stage: Stage, about: About, number: u64) -> bool
    ensures value { result ≡ is_goal_at checked.now (record { stage = stage; about = about }) number }
    ensures small { result ≡ true → number ≤ 4096 }
{
    let paths = checked.stage_paths(stage);
    if number == 0 {
        return false;
    }
    if number > paths.len() as u64 {
        return false;
    }
    is_for(about, &paths.path(number as usize - 1))
}

/// Whether a group has a goal.
pub fn has_goal(checked: &Checked, stage: Stage, about: About) -> bool
    ensures { result ≡ has_goal checked.now (record { stage = stage; about = about }) }
{
    let paths = checked.stage_paths(stage);
    for i in 0..paths.len() {
        if is_for(about, &paths.path(i)) {
            return true;
        }
    }
    false
}
