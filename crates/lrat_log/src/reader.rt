// Reads the text of a log in one pass, a word at a time, and numbers as long as they are found at once. Ids have the
// tightest loop, since hints are most of a log.
ghost use Rattle.std.specs.Prelude.{◌≡◌, ◌<◌, ◌≤◌, ◌^◌, ℕ, List, [], ◌∷◌, ◌++◌, Ok, Some, length, OnOk, IfOk, IfErr};
ghost use Rattle.std.specs.Prelude.{IfSome};
ghost use Rattle.cnf_base.specs.Answers.{Answers, StepsTo, ReadsOn};
ghost use Rattle.cnf_base.specs.Numerals.{number_of};
ghost use Rattle.lrat_log.specs.declared.line.Line.{Line};
ghost use Rattle.lrat_log.specs.Logs.{IsLog, IsLogOver};
ghost use Rattle.lrat_log.specs.Places.{StandsBy};
ghost use Rattle.lrat_log.specs.Reading.{read_of};
ghost use Rattle.lrat_log.specs.WordByWord.{at_start, take_id, take_literal, take_second, take_hint, take_deleted};
ghost use Rattle.lrat_log.specs.WordByWord.{take_word, with_addition, with_deletion, ended, read_words};
ghost use Rattle.lrat_log.specs.WordByWord.{read_by_words};
ghost use Rattle.lrat_log.specs.ReaderState.{state_of, is_for_ids};
ghost use Rattle.base.specs.Because.{Because};
ghost use Rattle.base.specs.declared.refused.Refused.{Refused};
ghost use Rattle.base.specs.declared.refused.Refused.TheVariants.{For};

use crate::fault_code::LogFaultCode;
use crate::line::{Line, Log};
use crate::text::{LogFault, Stage};
use base::{Mem, Refused, Row};
use cnf_base::{Lit, Numeral, Words, literal_of, number_of, piece_law, word_laws};
use std::alloc::{AllocError, Global};

// What was read so far.
#[derive(Drop)]
struct Reading {
    stage: Stage,
    variables: u64,
    last: u64,
    lines: Row<Line>,
    id: u32,
    place: u64,
    lits: Vec<Lit>,
    ids: Vec<u32>,
}

fn fault(code: LogFaultCode, at: u64) -> Refused<LogFault>
    ensures { result ≡ For (record { code = code; at = at }) }
{
    Refused::For(LogFault { code, at })
}

impl Reading {
    fn new(alloc: Global, variables: u64, clauses: u64) -> Reading
        ensures { state_of result ≡ at_start variables clauses }
    {
        Reading {
            stage: Stage::Id,
            variables,
            last: clauses,
            lines: Row::new(alloc),
            id: 0,
            place: 0,
            lits: Vec::new(alloc),
            ids: Vec::new(alloc),
        }
    }

    fn take_id(&mut self, number: Option<Numeral>, at: u64) -> Result<(), Refused<LogFault>>
        ensures { StepsTo (take_id (state_of self.old) number at) (state_of self.new) result }
    {
        let Some(number) = number else {
            return Err(fault(LogFaultCode::BadNumber, at));
        };
        if number.negative {
            return Err(fault(LogFaultCode::BadNumber, at));
        }
        if number.value == 0 {
            return Err(fault(LogFaultCode::BadNumber, at));
        }
        self.stage = Stage::Second;
        self.id = number.value;
        self.place = at;
        Ok(())
    }

    fn take_literal(&mut self, number: Option<Numeral>, at: u64) -> Result<(), Refused<LogFault>>
        requires { IfSome number (λ n. n.value < 2 ^ 31) }
        ensures { StepsTo (take_literal (state_of self.old) number at) (state_of self.new) result }
    {
        let Some(number) = number else {
            return Err(fault(LogFaultCode::BadNumber, at));
        };
        if number.value as u64 > self.variables {
            return Err(fault(LogFaultCode::VariableOutOfRange, at));
        }
        if number.value == 0 {
            self.stage = Stage::Hints;
            return Ok(());
        }
        match self.lits.push(literal_of(number)) {
            Ok(()) => {
                self.stage = Stage::Literals;
                Ok(())
            }
            Err(_) => Err(Refused::NoMemory),
        }
    }

    fn take_second(&mut self, word: &[u8], at: u64) -> Result<(), Refused<LogFault>>
        ensures { StepsTo (take_second (state_of self.old) (record { at = at; text = word.now }))
            (state_of self.new) result }
    {
        if word == b"d".as_slice() {
            self.stage = Stage::Deleted;
            return Ok(());
        }
        if self.id as u64 <= self.last {
            return Err(fault(LogFaultCode::IdNotAbove, self.place));
        }
        self.take_literal(number_of(word), at)
    }

    fn take_hint(
        &mut self,
        alloc: Global,
        number: Option<Numeral>,
        at: u64,
    ) -> Result<(), Refused<LogFault>>
        ensures { StepsTo (take_hint (state_of self.old) number at) (state_of self.new) result }
    {
        let Some(number) = number else {
            return Err(fault(LogFaultCode::BadNumber, at));
        };
        if number.negative {
            return Err(fault(LogFaultCode::RatHint, at));
        }
        if number.value == 0 {
            match self.end_addition(alloc) {
                Ok(()) => return Ok(()),
                Err(_) => return Err(Refused::NoMemory),
            }
        }
        self.push_id(number.value)
    }

    fn take_deleted(
        &mut self,
        alloc: Global,
        number: Option<Numeral>,
        at: u64,
    ) -> Result<(), Refused<LogFault>>
        ensures { StepsTo (take_deleted (state_of self.old) number at) (state_of self.new) result }
    {
        let Some(number) = number else {
            return Err(fault(LogFaultCode::BadNumber, at));
        };
        if number.negative {
            return Err(fault(LogFaultCode::BadNumber, at));
        }
        if number.value == 0 {
            match self.end_deletion(alloc) {
                Ok(()) => return Ok(()),
                Err(_) => return Err(Refused::NoMemory),
            }
        }
        self.push_id(number.value)
    }

    fn push_id(&mut self, id: u32) -> Result<(), Refused<LogFault>>
        ensures { StepsTo (Ok (record (state_of self.old) { ids = self.old.ids.items ++ id ∷ [] }))
            (state_of self.new) result }
    {
        match self.ids.push(id) {
            Ok(()) => Ok(()),
            Err(_) => Err(Refused::NoMemory),
        }
    }

    fn end_addition(&mut self, alloc: Global) -> Mem<()>
        ensures { OnOk result (state_of self.new ≡ with_addition (state_of self.old)) }
    {
        let lits = Vec::from_slice(alloc, self.lits.as_slice())?;
        let hints = Vec::from_slice(alloc, self.ids.as_slice())?;
        self.lines.push(Line::Add {
            id: self.id,
            lits: Row::from_vec(lits),
            hints: Row::from_vec(hints),
        })?;
        self.stage = Stage::Id;
        self.last = self.id as u64;
        self.lits.clear();
        self.ids.clear();
        Ok(())
    }

    fn end_deletion(&mut self, alloc: Global) -> Mem<()>
        ensures { OnOk result (state_of self.new ≡ with_deletion (state_of self.old)) }
    {
        let ids = Vec::from_slice(alloc, self.ids.as_slice())?;
        self.lines.push(Line::Delete {
            id: self.id,
            ids: Row::from_vec(ids),
        })?;
        self.stage = Stage::Id;
        self.ids.clear();
        Ok(())
    }

    // Takes a word that is a number.
    fn take_number(
        &mut self,
        alloc: Global,
        number: Numeral,
        at: u64,
    ) -> Result<(), Refused<LogFault>>
        requires { number.value < 2 ^ 31 }
        ensures { (text : List ℕ) → number_of text ≡ Some number
            → StepsTo (take_word (state_of self.old) (record { at = at; text = text })) (state_of self.new) result }
    {
        match self.stage {
            Stage::Id => self.take_id(Some(number), at),
            Stage::Second => if self.id as u64 <= self.last {
                Err(fault(LogFaultCode::IdNotAbove, self.place))
            } else {
                self.take_literal(Some(number), at)
            },
            Stage::Literals => self.take_literal(Some(number), at),
            Stage::Hints => self.take_hint(alloc, Some(number), at),
            Stage::Deleted => self.take_deleted(alloc, Some(number), at),
        }
    }

    fn takes_ids(&self) -> bool
        ensures { result ≡ is_for_ids self.now.stage }
    {
        matches!(self.stage, Stage::Hints | Stage::Deleted)
    }

    // Takes the ids that stand next, as long as they are found at once.
    fn take_ids(&mut self, words: &mut Words<'_>) -> Mem<()>
        ensures taken { OnOk result ((end : ℕ)
            → read_words (state_of self.new) words.new end ≡ read_words (state_of self.old) words.old end) }
        ensures shorter { length words.new ≤ length words.old }
    {
        while self.takes_ids() {
            let id = words.next_id();
            if id == 0 {
                return Ok(());
            }
            if self.ids.push(id).is_err() {
                return Err(AllocError);
            }
        }
        Ok(())
    }

    // Takes the numbers that stand next, as long as they are found at once.
    fn take_numbers(
        &mut self,
        alloc: Global,
        words: &mut Words<'_>,
    ) -> Result<(), Refused<LogFault>>
        ensures taken { ReadsOn (read_words (state_of self.old) words.old)
            (read_words (state_of self.new) words.new) result }
        ensures shorter { length words.new ≤ length words.old }
    {
        while let Some((at, number)) = words.next_number() {
            match self.take_number(alloc, number, at) {
                Ok(()) => {}
                Err(e) => return Err(e),
            }
            if self.take_ids(words).is_err() {
                return Err(Refused::NoMemory);
            }
        }
        Ok(())
    }

    fn take_word(&mut self, alloc: Global, word: &[u8], at: u64) -> Result<(), Refused<LogFault>>
        ensures { StepsTo (take_word (state_of self.old) (record { at = at; text = word.now }))
            (state_of self.new) result }
    {
        match self.stage {
            Stage::Id => self.take_id(number_of(word), at),
            Stage::Second => self.take_second(word, at),
            Stage::Literals => self.take_literal(number_of(word), at),
            Stage::Hints => self.take_hint(alloc, number_of(word), at),
            Stage::Deleted => self.take_deleted(alloc, number_of(word), at),
        }
    }
}

/// The log that a text says, for a formula of so many variables and clauses, or its first fault, in
/// reading order. An addition is `id literals 0 hints 0`, a deletion `id d ids 0`. Lines that begin
/// with `c` are comments, wherever they stand.
pub fn read_log(
    alloc: Global,
    text: &[u8],
    variables: u64,
    clauses: u64,
) -> Result<Log, Refused<LogFault>>
    ensures log { Answers (read_of variables clauses text.now) result }
    ensures over { IfOk result (λ lines. IsLogOver variables clauses lines) }
    ensures place { IfErr result (Because (StandsBy (length text.now))) }
{
    word_laws();
    piece_law();
    let read = read_text(alloc, text, variables, clauses);
    read
}

// Reads the words one after another.
fn read_text(
    alloc: Global,
    text: &[u8],
    variables: u64,
    clauses: u64,
) -> Result<Log, Refused<LogFault>>
    ensures log { Answers (read_by_words variables clauses text.now) result }
    ensures over { IfOk result (λ lines. IsLogOver variables clauses lines) }
{
    word_laws();
    let mut reading = Reading::new(alloc, variables, clauses);
    let mut words = Words::of(text);
    while let Some(word) = words.next_word() {
        match reading.take_word(alloc, word.text, word.at) {
            Ok(()) => {}
            Err(e) => return Err(e),
        }
        match reading.take_numbers(alloc, &mut words) {
            Ok(()) => {}
            Err(e) => return Err(e),
        }
    }
    finish(reading, text.len() as u64)
}

// What was read, at the end of a text.
fn finish(reading: Reading, at: u64) -> Result<Log, Refused<LogFault>>
    requires { (lines : List Line) → ended (state_of reading) at ≡ Ok lines → IsLog lines }
    ensures { Answers (ended (state_of reading) at) result }
{
    match reading.stage {
        Stage::Id => Ok(Log::new(reading.lines)),
        Stage::Second => if reading.id as u64 <= reading.last {
            Err(fault(LogFaultCode::IdNotAbove, reading.place))
        } else {
            Err(fault(LogFaultCode::Unended, at))
        },
        Stage::Literals | Stage::Hints | Stage::Deleted => Err(fault(LogFaultCode::Unended, at)),
    }
}
