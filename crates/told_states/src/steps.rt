// The path that a step of a run takes.
ghost use Rattle.std.specs.Prelude.{◌≡◌, IfSome};
ghost use Rattle.base.specs.Lists.{numbered};
ghost use Rattle.fol_sig.specs.Symbols.{symbols};
ghost use Rattle.rml_command.specs.Models.{FitsPath};
ghost use Rattle.rml_command.specs.Goals.{stage_paths};

use rml_command::{Checked, Path, Stage, goal_law};

fn find_path<'a>(checked: &'a Checked, stage: Stage, number: u32) -> Option<Path<'a>>
    ensures { result ≡ numbered (stage_paths checked.now stage) number }
{
    let paths = checked.stage_paths(stage);
    if number == 0 {
        return None;
    }
    let place = number as usize - 1;
    if place >= paths.len() {
        return None;
    }
    Some(paths.path(place))
}

/// The path of this number, from 1, of a stage's block.
pub fn path_at<'a>(checked: &'a Checked, stage: Stage, number: u32) -> Option<Path<'a>>
    ensures path { result ≡ numbered (stage_paths checked.now stage) number }
    ensures fits { IfSome result (FitsPath (symbols checked.now.signature)) }
{
    goal_law();
    let _checked = checked.model();
    let found = find_path(checked, stage, number);
    found
}
