//! Prints which conjectures carry each group of worked models (`carried_by`), with the path that fails or is left open
//! where one of them is left out. What `stdout` says of paths that fail was found apart from the code, by z3; what it
//! says of goals that are left open is the program's own. The gate runs the program as two compilers make it, and
//! compares what it writes to the byte.
//!
//! Each line of `reasons.txt` has a limit of the ground size and the file of a model.
#![tactic(auto)]

mod groups;
mod telling;

use base::Mem;
use call_files::status_of;
use call_models::{ModelCall, limits_with, tell};
use groups::told;
use rml_command::Checked;
use std::alloc::Global;
use std::process::ExitCode;

/// What carries each group.
struct Reasons;

impl ModelCall for Reasons {
    fn answer(alloc: Global, words: &str, model: &Checked) -> Mem<String> {
        let told = told(alloc, model, &limits_with(words))?;
        let text = str::from_utf8(&told).unwrap_or("no UTF-8");
        String::from_str(alloc, text)
    }
}

fn main(rt: HostRuntime) -> ExitCode {
    status_of(rt, tell::<Reasons>(rt, rt.alloc(), "reasons.txt"))
}
