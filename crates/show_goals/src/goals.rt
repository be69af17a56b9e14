// A goal as a line writes it: `BLOCK PATH WHAT`. A block is `init`, `final` or an action's number from 0, what is
// forbidden is `abort` or the end of a conjecture's number from 0.
ghost use Rattle.std.specs.Prelude.{IfSome, IsTrue};
ghost use Rattle.rml_command.specs.Goals.{HasAbout, IsGoal};

use rml_command::{About, Checked, Goal, Stage};

fn number_of(word: &str) -> u32 {
    word.parse::<u32>().unwrap_or(u32::MAX)
}

fn stage_of(word: &str) -> Stage {
    match word {
        "init" => Stage::Init,
        "final" => Stage::Final,
        _ => Stage::Action(number_of(word)),
    }
}

fn about_of(word: &str) -> About {
    match word {
        "abort" => About::Abort,
        _ => About::Conjecture(number_of(word)),
    }
}

/// The goal that the words of a line name.
pub fn goal_named(words: &str) -> Goal {
    let (block, rest) = words.split_once(' ').unwrap_or((words, ""));
    let (path, about) = rest.split_once(' ').unwrap_or((rest, ""));
    Goal {
        stage: stage_of(block),
        path: number_of(path),
        about: about_of(about),
    }
}

fn has_about(checked: &Checked, goal: Goal) -> bool
    ensures { IsTrue result → HasAbout checked.now goal.stage goal.about }
{
    match goal.about {
        About::Abort => true,
        About::Conjecture(k) => match goal.stage {
            Stage::Final => false,
            _ => (k as usize) < checked.model().conjectures().len(),
        },
    }
}

/// The same goal, if the model has it.
pub fn goal_of(checked: &Checked, goal: Goal) -> Option<Goal>
    ensures { IfSome result (IsGoal checked.now) }
{
    let paths = checked.stage_paths(goal.stage);
    let number = goal.path as usize;
    if number == 0 || number > paths.len() || !has_about(checked, goal) {
        return None;
    }
    let forbids_abort = matches!(goal.about, About::Abort);
    if paths.path(number - 1).has_abort() == forbids_abort {
        Some(goal)
    } else {
        None
    }
}
