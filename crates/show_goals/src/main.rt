//! Prints, of goals of worked models, how large their sentences are, and how large these are once they are ground: the
//! nodes of the precondition and of the refuting sentence, or that they pass the limit of formulas; those of its normal
//! form, the sorts of its constants; how many terms there are, and the ground size, which are counted before anything
//! is made; and what `decide` of `ea_decide` answers, with the variables and clauses of a refutation, which a `Clauser`
//! counts. What `stdout` holds was written down from outside: by hand from the definitions, or by another program; the
//! figures of `ring_leader` are not by hand. The gate runs the program as two compilers make it, and compares what it
//! writes to the byte.
//!
//! Each line of `goals.txt` names a goal and the file of its model.
#![tactic(auto)]

mod goals;
mod ground;
mod sentences;

use base::Mem;
use call_files::status_of;
use call_models::{ModelCall, tell};
use goals::{goal_named, goal_of};
use rml_command::Checked;
use sentences::sentences_of;
use std::alloc::Global;
use std::process::ExitCode;

/// What is said of a goal, if the model has it.
struct GoalSentences;

impl ModelCall for GoalSentences {
    fn answer(alloc: Global, words: &str, model: &Checked) -> Mem<String> {
        match goal_of(model, goal_named(words)) {
            Some(goal) => sentences_of(alloc, model, &goal),
            None => String::from_str(alloc, "no goal of this model"),
        }
    }
}

fn main(rt: HostRuntime) -> ExitCode {
    status_of(rt, tell::<GoalSentences>(rt, rt.alloc(), "goals.txt"))
}
