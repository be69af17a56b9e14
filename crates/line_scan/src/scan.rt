// What is left of a line. Each step answers what is left behind it.
ghost use Rattle.std.specs.Prelude.{◌≡◌, ◌<◌, Some, None, decimal};
ghost use Rattle.std.specs.Str.{bytes_eq};
ghost use Rattle.line_scan.specs.Scanning.{behind, name_at, number_at, more_digits, is_end};

use base::{Row, is_digit};
use itoa::Buffer;
use std::marker::Model;

/// What is left of a line.
#[derive(Drop)]
pub struct Scan<'a> {
    rest: &'a [u8],
}

impl<'a> Model for Scan<'a> {
    ghost use Rattle.std.specs.Prelude.{List, ℕ};

    ghost Value = { List ℕ };

    ghost view = { λ s. s.rest.now };
}

impl<'a> Scan<'a> {
    /// A whole line.
    pub fn new(line: &'a [u8]) -> Scan<'a>
        ensures { result ≡ line.now }
    {
        Scan { rest: line }
    }

    /// What stands behind these bytes, where they stand in front.
    pub fn behind(&self, text: &[u8]) -> Option<Scan<'a>>
        ensures { result ≡ behind text.now self.now }
    {
        let mut left = self.rest;
        let mut wanted = text;
        while let [want, after @ ..] = wanted {
            let Some((byte, rest)) = left.split_first() else {
                return None;
            };
            if *byte != *want {
                return None;
            }
            left = rest;
            wanted = after;
        }
        Some(Scan { rest: left })
    }

    /// What stands behind this word.
    pub fn behind_word(&self, word: &str) -> Option<Scan<'a>>
        ensures { result ≡ behind word.now self.now }
    {
        self.behind(word.as_bytes())
    }

    /// What stands behind the name of this number; behind nothing where there is no such name.
    pub fn behind_name(&self, names: &[Row<u8>], number: u32) -> Option<Scan<'a>>
        ensures { result ≡ behind (name_at names.now number) self.now }
    {
        match names.get(number as usize) {
            None => Some(Scan { rest: self.rest }),
            Some(name) => self.behind(name.as_slice()),
        }
    }

    /// What stands behind this number.
    pub fn behind_decimal(&self, n: u64) -> Option<Scan<'a>>
        ensures { result ≡ behind (decimal n) self.now }
    {
        let mut buffer = Buffer::new();
        self.behind(buffer.format(n).as_bytes())
    }

    /// The number in front, and what stands behind it. A zero in front is the number zero. Numbers are less
    /// than 2 ^ 64.
    pub fn number(&self) -> Option<(u64, Scan<'a>)>
        ensures { result ≡ number_at self.now }
    {
        let (first, after) = self.rest.split_first()?;
        if !is_digit(*first) {
            return None;
        }
        let behind = Scan { rest: after };
        if *first == b'0' {
            return Some((0, behind));
        }
        behind.more_digits(*first as u64 - 48)
    }

    // The number that goes on with the digits in front.
    fn more_digits(&self, first: u64) -> Option<(u64, Scan<'a>)>
        ensures { result ≡ more_digits first self.now }
    {
        let mut value = first;
        let mut rest = self.rest;
        while let [digit, after @ ..] = rest {
            if !is_digit(*digit) {
                break;
            }
            value = value.checked_mul(10)?.checked_add(*digit as u64 - 48)?;
            rest = after;
        }
        Some((value, Scan { rest }))
    }

    /// Whether just these words are left.
    pub fn is(&self, words: &str) -> bool
        ensures { result ≡ bytes_eq self.now words.now }
    {
        self.rest == words.as_bytes()
    }

    /// Whether nothing but the end of the line is left.
    pub fn ends(&self) -> bool
        ensures { result ≡ is_end self.now }
    {
        self.rest == b"\n".as_slice()
    }
}
