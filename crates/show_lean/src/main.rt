//! Prints what `report` of `verdicts` says of worked models by whole and by lean counts, under the same limits, where
//! goals pass the limit of the ground size by the counts of their whole refuting sentences, and not by those of their
//! lean ones: the verdict, how many groups hold, and why groups are left open. The whole counts in `stdout` are those
//! of the program, the lean ones were counted apart, and z3 says too that all goals of both models hold. The gate
//! runs the program as two compilers make it, and compares what it writes to the byte.
//!
//! Each line of `lean.txt` has a limit of the ground size and the file of a model.
#![tactic(auto)]

mod telling;

use base::Mem;
use call_files::status_of;
use call_models::{ModelCall, limits_with, tell};
use lean_decide::Counted;
use limits::Limits;
use progress::Silent;
use rml_command::Checked;
use std::alloc::Global;
use std::process::ExitCode;
use telling::told;
use verdicts::report;

fn told_by(alloc: Global, model: &Checked, counted: Counted, limits: &Limits) -> Mem<String> {
    let report = report(alloc, model, counted, limits, &mut Silent)?;
    let told = told(alloc, &report);
    drop(report);
    told
}

/// By whole counts, and by lean ones.
struct Reports;

impl ModelCall for Reports {
    fn answer(alloc: Global, words: &str, model: &Checked) -> Mem<String> {
        let limits = limits_with(words);
        let whole = told_by(alloc, model, Counted::Whole, &limits)?;
        let lean = told_by(alloc, model, Counted::Lean, &limits)?;
        let (whole, lean) = (whole.as_str(), lean.as_str());
        format!(in alloc; "whole: {whole}\n  lean: {lean}")
    }
}

fn main(rt: HostRuntime) -> ExitCode {
    status_of(rt, tell::<Reports>(rt, rt.alloc(), "lean.txt"))
}
