//! The goals of a model by their numbers: all goals in order, group by group and path by path, numbered from 1.
#![tactic(auto)]

mod seeking;

ghost use Rattle.std.specs.Prelude.{◌≡◌, ◌≤◌, ◌-◌, ◌^◌, min, length};
ghost use Rattle.rml_command.specs.Goals.{goals_of};
ghost use Rattle.goal_number.specs.Numbers.{IsAt};

use rml_command::{Checked, Goal};
use seeking::{Sought, seek_all};

/// What stands at a number.
#[derive(Clone, Copy, Debug)]
pub enum GoalAt {
    Goal(Goal),
    /// The model has fewer goals: this many.
    Beyond(u64),
}

/// The goal of this number. No list of goals is made.
pub fn goal_at(checked: &Checked, number: u64) -> GoalAt
    requires { 1 ≤ number }
    ensures { IsAt checked.now number result }
{
    let place = number - 1;
    match seek_all(checked, place) {
        Sought::Found(goal) => GoalAt::Goal(goal),
        Sought::Left(left) => GoalAt::Beyond(place - left),
    }
}

/// How many goals a model has, as far as a `u64` can tell.
pub fn goal_count(checked: &Checked) -> u64
    ensures { result ≡ min (length (goals_of checked.now)) (2 ^ 64 - 1) }
{
    match goal_at(checked, u64::MAX) {
        GoalAt::Goal(_) => u64::MAX,
        GoalAt::Beyond(goals) => goals,
    }
}
