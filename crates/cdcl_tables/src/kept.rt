// A sink that keeps the lines.
ghost use Rattle.std.specs.Prelude.{◌≡◌, []};
ghost use Rattle.lrat_log.specs.Logs.{IsLog};

use base::{Mem, Row};
use cnf_base::Cnf;
use lrat_log::{Line, Log, Sink};
use std::alloc::Global;

/// The lines of a log over a formula, in the order in which they came.
#[derive(Drop)]
pub struct Kept<'a> {
    pub cnf: &'a Cnf,
    pub lines: Vec<Line>,
}

impl<'a> Kept<'a> {
    /// A sink of no lines yet.
    pub fn new(alloc: Global, cnf: &'a Cnf) -> Kept<'a>
        ensures cnf { result.cnf.now ≡ cnf.now }
        ensures lines { result.lines.items ≡ [] }
    {
        Kept {
            cnf,
            lines: Vec::new(alloc),
        }
    }

    /// The lines as a log.
    pub fn into_log(self) -> Log
        requires { IsLog self.lines.items }
        ensures { result ≡ self.entry.lines.items }
    {
        let Kept { cnf: _, lines } = self;
        Log::new(Row::from_vec(lines))
    }
}

impl<'a> Sink for Kept<'a> {
    ghost formula = { λ k. k.cnf.now };

    ghost lines = { λ k. k.lines.items };

    fn formula(&self) -> &Cnf {
        self.cnf
    }

    fn take(&mut self, line: Line) -> Mem<()> {
        self.lines.push(line)?;
        Ok(())
    }
}
