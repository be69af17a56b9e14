// Logs of additions and deletions. A `Log` keeps to the ranges of its text, so that what is written is read again.
ghost use Rattle.std.specs.Prelude.{◌≡◌, IfOk};

use base::{Mem, Row};
use cnf_base::Lit;
use std::alloc::Global;
use std::marker::Model;

/// A line of a log: a clause is added under a new id, with the ids of the clauses that show why it
/// follows, or clauses are deleted.
#[derive(Drop)]
pub enum Line {
    Add {
        id: u32,
        lits: Row<Lit>,
        hints: Row<u32>,
    },
    Delete {
        id: u32,
        ids: Row<u32>,
    },
}

impl Line {
    /// A copy; want of memory is all that can keep it out.
    pub fn copy(&self, alloc: Global) -> Mem<Line>
        ensures { IfOk result (λ copy. copy ≡ self.now) }
    {
        Ok(match self {
            Line::Add { id, lits, hints } => Line::Add {
                id: *id,
                lits: copy_row(alloc, lits)?,
                hints: copy_row(alloc, hints)?,
            },
            Line::Delete { id, ids } => Line::Delete {
                id: *id,
                ids: copy_row(alloc, ids)?,
            },
        })
    }
}

fn copy_row<T: Copy>(alloc: Global, row: &Row<T>) -> Mem<Row<T>>
    ensures { IfOk result (λ copy. copy ≡ row.now) }
{
    Ok(Row::from_vec(Vec::from_slice(alloc, row.as_slice())?))
}

/// A log, in the format LRAT without RAT steps. Each id and each hint is at most 2147483647, and the
/// ids of the additions increase.
#[derive(Drop)]
pub struct Log {
    lines: Row<Line>,
}

impl Model for Log {
    ghost use Rattle.std.specs.Prelude.{List};
    ghost use Rattle.lrat_log.specs.declared.line.Line.{Line};

    ghost Value = { List Line };

    ghost use Rattle.lrat_log.specs.Logs.{IsLog};

    ghost view = { λ l. l.lines };

    ghost invariant = { λ l. IsLog l.lines };
}

impl Log {
    ghost use Rattle.lrat_log.specs.Logs.{IsLog};

    /// The log of these lines, which are moved.
    pub fn new(lines: Row<Line>) -> Log
        requires { IsLog lines }
        ensures { result ≡ lines }
    {
        Log { lines }
    }

    /// The lines, in their order.
    pub fn lines(&self) -> &[Line]
        ensures value { result.now ≡ self.now }
        ensures log { IsLog self.now }
    {
        self.lines.as_slice()
    }

    /// The lines are moved, and nothing is copied.
    pub fn into_lines(self) -> Row<Line>
        ensures value { result ≡ self }
        ensures log { IsLog self }
    {
        let Log { lines } = self;
        lines
    }
}
