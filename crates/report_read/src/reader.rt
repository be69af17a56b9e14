// What is left of a report. A structure's tables have a cell for each tuple, and a relation's line is short where the
// relation is true of few of them: so a short text may ask for tables of any size. All tables of a report have
// together at most as many cells as a report may have bytes; beyond that memory is wanting at once.
ghost use Rattle.std.specs.Prelude.{◌≡◌, [], IsTrue, ◌↔◌};
ghost use Rattle.base.specs.declared.refused.Refused.TheVariants.{For};
ghost use Rattle.line_scan.specs.Lines.{lines_of, first_of};
ghost use Rattle.report_read.specs.Got.{passed};

use base::{Mem, Refused};
use line_scan::Lines;
use printed_report::Unread;
use std::alloc::{AllocError, Global};
use std::marker::Model;

/// The lines that are left.
#[derive(Drop)]
pub struct Reader<'a> {
    alloc: Global,
    lines: Lines<'a>,
    // how many cells the tables that are left may have
    room: u64,
}

impl<'a> Model for Reader<'a> {
    ghost use Rattle.line_scan.specs.Lines.{LinesLeft};

    ghost Value = { LinesLeft };

    ghost view = { λ r. r.lines };
}

impl<'a> Reader<'a> {
    /// The lines of a text, of which none is passed yet.
    pub fn new(alloc: Global, text: &'a [u8]) -> Reader<'a>
        ensures { result ≡ record { lines = lines_of text.now; number = 1 } }
    {
        Reader {
            alloc,
            lines: Lines::new(text),
            room: 268_435_456,
        }
    }

    pub fn alloc(&self) -> Global {
        self.alloc
    }

    /// The number of the first line that is left.
    pub fn number(&self) -> u64
        ensures { result ≡ self.now.number }
    {
        self.lines.number()
    }

    /// The first line, with its line feed; nothing where no line is left.
    pub fn first(&self) -> &'a [u8]
        ensures { result.now ≡ first_of self.now.lines }
    {
        self.lines.first()
    }

    /// Goes on to the next line. At the end nothing is passed.
    pub fn pass(&mut self)
        ensures { self.new ≡ passed self.old }
    {
        self.lines.pass();
    }

    /// Whether no line is left.
    pub fn is_empty(&self) -> bool
        ensures { IsTrue result ↔ (self.now.lines ≡ []) }
    {
        self.lines.is_empty()
    }

    /// The first line that is left is none that can stand there.
    pub fn unread(&self) -> Refused<Unread>
        ensures { result ≡ For (record { line = self.now.number }) }
    {
        Refused::For(Unread {
            line: self.number(),
        })
    }

    /// Takes room for so many cells.
    pub fn take_room(&mut self, cells: u64) -> Mem<()>
        ensures { self.new ≡ self.old }
    {
        if cells > self.room {
            return Err(AllocError);
        }
        self.room -= cells;
        Ok(())
    }
}
