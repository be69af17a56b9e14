//! Prints what a pool has of a goal: for each model that data/models.txt names, its first action's first path with its
//! first conjecture behind it. data/doubling.rml doubles a relation eighteen times, so its precondition has half a
//! million nodes as a tree; that its size is 2 * 4^18 + 2 * 18 + 3 is counted by hand.
#![tactic(auto)]

mod sizes;

use base::Mem;
use call_files::status_of;
use call_models::{ModelCall, tell};
use rml_command::Checked;
use sizes::{first_goal, size_of_goal};
use std::alloc::Global;
use std::process::ExitCode;

struct FirstGoal;

impl ModelCall for FirstGoal {
    fn answer(alloc: Global, _words: &str, model: &Checked) -> Mem<String> {
        match first_goal(model) {
            Some(goal) => size_of_goal(alloc, model, &goal),
            None => String::from_str(alloc, "no such goal"),
        }
    }
}

fn main(rt: HostRuntime) -> ExitCode {
    status_of(rt, tell::<FirstGoal>(rt, rt.alloc(), "models.txt"))
}
