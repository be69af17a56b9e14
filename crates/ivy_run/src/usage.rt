// Words that are no command line.
ghost use Rattle.ivy_run.specs.Usage.{usage_due};

use base::Mem;
use command_parts::complaint;
use commands::{Command, Said};
use progress::Progress;
use std::alloc::Global;

/// No command.
#[derive(Drop)]
pub struct Usage;

impl Command for Usage {
    type Answer = ();

    ghost is_answer = { λ c first second a. Unit {0} };

    ghost due = { λ c first second a. usage_due };

    fn judge<P: Progress>(
        &self,
        alloc: Global,
        first: &[u8],
        second: &[u8],
        progress: &mut P,
    ) -> Mem<()> {
        Ok(())
    }

    fn say(&self, alloc: Global, first: &[u8], second: &[u8], answer: &()) -> Mem<Said> {
        let line =
            "usage: ivycheck check FILE, emit FILE GOAL cnf|lrat, lrat CNF LOG, bmc FILE, houdini FILE, \
                    replay MODEL REPORT, or sample N\n";
        let text = line.as_bytes().to_vec(alloc)?;
        Ok(complaint(text, 2))
    }
}
