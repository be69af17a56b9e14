// The words of a text, one after another: a cursor that is seen as the list of the words that are left, so that a
// reader speaks of words alone and not of bytes. Formulas and logs share it.
ghost use Rattle.std.specs.Prelude.{◌≡◌, ◌≤◌, ◌<◌, ◌+◌, ◌^◌, ℕ, List, [], ◌∷◌, length, false, not, Some, MatchOption};
ghost use Rattle.std.specs.Prelude.{IfSome};
ghost use Rattle.std.specs.List.{prefix_len};
ghost use Rattle.base.specs.Bytes.{is_blank};
ghost use Rattle.cnf_base.specs.Words.{words_of};
ghost use Rattle.cnf_base.specs.Modes.{behind, next_mode, begins_word, words_from};
ghost use Rattle.cnf_base.specs.Starts.{IsAtStart};
ghost use Rattle.cnf_base.specs.Numerals.{number_of};

use crate::fronts::{ends_word, front_digits, front_number};
use crate::text::{LineMode, Numeral};
use base::is_blank;
use std::marker::Model;

/// A word of a text, and the place of its first byte.
#[derive(Clone, Copy)]
pub struct Word<'a> {
    pub at: u64,
    pub text: &'a [u8],
}

/// The words of a text that are not taken yet. Words are separated by blanks; a line whose first byte
/// is `c` is a comment.
#[derive(Drop)]
pub struct Words<'a> {
    rest: &'a [u8],
    at: u64,
    mode: LineMode,
}

impl<'a> Model for Words<'a> {
    ghost use Rattle.std.specs.Prelude.{List, ◌+◌, ◌<◌, ◌^◌, length};
    ghost use Rattle.cnf_base.specs.Words.{Word};
    ghost use Rattle.cnf_base.specs.Modes.{words_from};

    ghost Value = { List Word };

    ghost view = { λ w. words_from w.mode w.at w.rest.now };

    ghost invariant = { λ w. w.at + length w.rest.now < 2 ^ 63 };
}

fn behind(b: u8) -> LineMode
    ensures { result ≡ behind b }
{
    if b == b'\n' {
        LineMode::LineStart
    } else if is_blank(b) {
        LineMode::InLine
    } else {
        LineMode::InWord
    }
}

fn next_mode(mode: LineMode, b: u8) -> LineMode
    ensures { result ≡ next_mode mode b }
{
    match mode {
        LineMode::Comment => if b == b'\n' {
            LineMode::LineStart
        } else {
            LineMode::Comment
        },
        LineMode::LineStart => if b == b'c' {
            LineMode::Comment
        } else {
            behind(b)
        },
        LineMode::InLine | LineMode::InWord => behind(b),
    }
}

fn begins_word(mode: LineMode, b: u8) -> bool
    ensures { result ≡ begins_word mode b }
{
    match mode {
        LineMode::Comment | LineMode::InWord => false,
        LineMode::LineStart => if b == b'c' { false } else { !is_blank(b) },
        LineMode::InLine => !is_blank(b),
    }
}

// How many bytes stand before the next blank.
fn word_len(bytes: &[u8]) -> usize
    ensures bound { result ≤ length bytes.now }
    ensures value { result ≡ prefix_len (λ b. not (is_blank b)) bytes.now }
{
    let mut count = 0;
    let mut rest = bytes;
    while let [b, after @ ..] = rest {
        if is_blank(*b) {
            return count;
        }
        count += 1;
        rest = after;
    }
    count
}

// Goes over blanks and comments, up to the first byte of a word.
fn at_word<'a>(rest: &'a [u8], at: u64, mode: LineMode) -> (&'a [u8], u64, LineMode)
    requires { at + length rest.now < 2 ^ 63 }
    ensures place { result.1 + length result.0.now ≡ at + length rest.now }
    ensures start { IsAtStart result.2 result.0.now }
    ensures words { words_from result.2 result.1 result.0.now ≡ words_from mode at rest.now }
{
    let mut rest = rest;
    let mut at = at;
    let mut mode = mode;
    while let [b, after @ ..] = rest {
        if begins_word(mode, *b) {
            return (rest, at, mode);
        }
        mode = next_mode(mode, *b);
        at += 1;
        rest = after;
    }
    (rest, at, mode)
}

impl<'a> Words<'a> {
    /// The words of a text, of which none is taken yet.
    #[tactic(auto, using(crate::proofs::Lines::words_are))]
    pub fn of(text: &'a [u8]) -> Words<'a>
        ensures { result ≡ words_of text.now }
    {
        let _len = text.len();
        Words {
            rest: text,
            at: 0,
            mode: LineMode::LineStart,
        }
    }

    /// Takes the next word.
    pub fn next_word(&mut self) -> Option<Word<'a>>
        ensures { MatchOption result (self.old ≡ [])
            (λ w. self.old ≡ record { at = w.at; text = w.text.now } ∷ self.new) }
    {
        let (rest, at, _mode) = at_word(self.rest, self.at, self.mode);
        let len = word_len(rest);
        if len == 0 {
            return None;
        }
        let (text, after) = rest.split_at(len);
        self.rest = after;
        self.at = at + len as u64;
        self.mode = LineMode::InWord;
        Some(Word { at, text })
    }

    /// Takes the next word if it is a number behind the blank that ends the last word. Where it takes
    /// nothing the next word may still be a number.
    pub fn next_number(&mut self) -> Option<(u64, Numeral)>
        ensures word { MatchOption result (self.new ≡ self.old) (λ r. (text : List ℕ)
            × (self.old ≡ record { at = r.0; text = text } ∷ self.new) × (number_of text ≡ Some r.1)) }
        ensures small { IfSome result (λ r. r.1.value < 2 ^ 31) }
    {
        let [blank, bytes @ ..] = self.rest else {
            return None;
        };
        let LineMode::InWord = self.mode else {
            return None;
        };
        if !is_blank(*blank) {
            return None;
        }
        let Some((after, len, number)) = front_number(bytes) else {
            return None;
        };
        let start = self.at + 1;
        self.rest = after;
        self.at = start + len as u64;
        Some((start, number))
    }

    /// Takes the next word if it is a number from 1 on, without a sign, behind the blank that ends
    /// the last word; 0 where it takes nothing.
    pub fn next_id(&mut self) -> u32
        ensures none { result ≡ 0 → self.new ≡ self.old }
        ensures word { 0 < result → (at : ℕ) × (text : List ℕ)
            × (self.old ≡ record { at = at; text = text } ∷ self.new)
            × (number_of text ≡ Some (record { negative = false; value = result })) }
        ensures small { result < 2 ^ 31 }
    {
        let [blank, bytes @ ..] = self.rest else {
            return 0;
        };
        let LineMode::InWord = self.mode else {
            return 0;
        };
        if !is_blank(*blank) {
            return 0;
        }
        let (after, len, value) = front_digits(bytes);
        if len > 10 || value == 0 || !ends_word(after) {
            return 0;
        }
        let next = self.at + 1 + len as u64;
        self.rest = after;
        self.at = next;
        value
    }
}
