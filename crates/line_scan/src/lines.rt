// The lines of a text that are left. A line goes up to its line feed.
ghost use Rattle.std.specs.Prelude.{◌≡◌, ◌<◌, ◌≤◌, ◌+◌, ◌^◌, [], length, IsTrue, ◌↔◌};
ghost use Rattle.line_scan.specs.Lines.{lines_of, first_of, behind_first, first_length_of};

use std::marker::Model;

/// The lines that are left, and the number of the first of them, from 1.
#[derive(Drop)]
pub struct Lines<'a> {
    rest: &'a [u8],
    number: u64,
}

impl<'a> Model for Lines<'a> {
    ghost use Rattle.std.specs.Prelude.{◌<◌, ◌+◌, ◌^◌, length};
    ghost use Rattle.line_scan.specs.Lines.{LinesLeft, lines_of};

    ghost Value = { LinesLeft };

    ghost view = { λ l. record { lines = lines_of l.rest.now; number = l.number } };

    ghost invariant = { λ l. l.number + length l.rest.now < 2 ^ 64 };
}

impl<'a> Lines<'a> {
    /// The lines of a text, of which none is passed yet.
    pub fn new(text: &'a [u8]) -> Lines<'a>
        ensures { result ≡ record { lines = lines_of text.now; number = 1 } }
    {
        let _len = text.len();
        Lines {
            rest: text,
            number: 1,
        }
    }

    /// The number of the first line that is left.
    pub fn number(&self) -> u64
        ensures { result ≡ self.now.number }
    {
        self.number
    }

    /// The first line, with its line feed; nothing where no line is left.
    pub fn first(&self) -> &'a [u8]
        ensures { result.now ≡ first_of self.now.lines }
    {
        &self.rest[..first_length(self.rest)]
    }

    /// Goes on to the next line. At the end nothing is passed.
    pub fn pass(&mut self)
        ensures lines { self.new.lines ≡ behind_first self.old.lines }
        ensures number { self.new.number + length self.new.lines ≡ self.old.number + length self.old.lines }
    {
        if self.rest.is_empty() {
            return;
        }
        self.rest = &self.rest[first_length(self.rest)..];
        self.number += 1;
    }

    /// Whether no line is left.
    pub fn is_empty(&self) -> bool
        ensures { IsTrue result ↔ (self.now.lines ≡ []) }
    {
        self.rest.is_empty()
    }
}

// How many bytes go up to the first line feed, it included.
fn first_length(text: &[u8]) -> usize
    ensures value { result ≡ first_length_of text.now }
    ensures within { result ≤ length text.now }
{
    let mut count = 0;
    let mut rest = text;
    while let [byte, after @ ..] = rest {
        count += 1;
        if *byte == b'\n' {
            return count;
        }
        rest = after;
    }
    count
}
