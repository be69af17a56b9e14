// Reads the text of a formula in one pass, a word at a time, and the numbers of the body as long as they are found at
// once, since they are most of a text.
ghost use Rattle.std.specs.Prelude.{◌≡◌, ◌<◌, ◌≤◌, ◌^◌, ℕ, List, [], ◌∷◌, ◌++◌, Ok, length, OnOk, IfErr, IfSome};
ghost use Rattle.std.specs.Prelude.{if◌then◌else◌};
ghost use Rattle.cnf_base.specs.Clauses.{entry_of};
ghost use Rattle.cnf_base.specs.Formulas.{Formula, IsFormula};
ghost use Rattle.cnf_base.specs.Numerals.{number_of};
ghost use Rattle.cnf_base.specs.Pieces.{value_in};
ghost use Rattle.cnf_base.specs.Reading.{read_of, is_count};
ghost use Rattle.cnf_base.specs.WordByWord.{at_start, body_number, take_word, ended, read_words, read_by_words};
ghost use Rattle.cnf_base.specs.Answers.{Answers, StepsTo, ReadsOn};
ghost use Rattle.cnf_base.specs.Places.{StandsBy};
ghost use Rattle.cnf_base.specs.ReaderState.{state_of, is_literal};
ghost use Rattle.base.specs.Because.{Because};
ghost use Rattle.base.specs.declared.refused.Refused.{Refused};
ghost use Rattle.base.specs.declared.refused.Refused.TheVariants.{For};

use crate::fault_code::CnfFaultCode;
use crate::number::{literal_of, number_of};
use crate::text::{CnfFault, Numeral, Stage};
use crate::words::Words;
use crate::{Cnf, Entry, Lit, entry};
use base::{Mem, Refused, Row};
use std::alloc::Global;

// What was read so far.
#[derive(Drop)]
struct Reading {
    stage: Stage,
    variables: u32,
    count: u32,
    entries: Row<Entry>,
    lits: Vec<Lit>,
}

fn fault(code: CnfFaultCode, at: u64) -> Refused<CnfFault>
    ensures { result ≡ For (record { code = code; at = at }) }
{
    Refused::For(CnfFault { code, at })
}

// The number of a header that a word says.
fn count_in(word: &[u8]) -> Option<u32>
    ensures { result ≡ (if is_count (number_of word.now) then Some (value_in (number_of word.now)) else None) }
{
    match number_of(word) {
        Some(number) if !number.negative => Some(number.value),
        _ => None,
    }
}

impl Reading {
    fn new(alloc: Global) -> Reading
        ensures { state_of result ≡ at_start }
    {
        Reading {
            stage: Stage::Problem,
            variables: 0,
            count: 0,
            entries: Row::new(alloc),
            lits: Vec::new(alloc),
        }
    }

    // Takes a number of the body.
    fn take_number(
        &mut self,
        alloc: Global,
        number: Option<Numeral>,
        at: u64,
    ) -> Result<(), Refused<CnfFault>>
        requires { IfSome number (λ n. n.value < 2 ^ 31) }
        ensures { StepsTo (body_number (state_of self.old) number at) (state_of self.new) result }
    {
        let Some(number) = number else {
            return Err(fault(CnfFaultCode::BadNumber, at));
        };
        if number.value > self.variables {
            return Err(fault(CnfFaultCode::VariableOutOfRange, at));
        }
        if self.entries.len() as u64 == self.count as u64 {
            return Err(fault(CnfFaultCode::WrongClauseCount, at));
        }
        if number.value == 0 {
            match self.end_clause(alloc) {
                Ok(()) => return Ok(()),
                Err(_) => return Err(Refused::NoMemory),
            }
        }
        match self.lits.push(literal_of(number)) {
            Ok(()) => Ok(()),
            Err(_) => Err(Refused::NoMemory),
        }
    }

    // Ends a clause.
    fn end_clause(&mut self, alloc: Global) -> Mem<()>
        ensures { OnOk result (state_of self.new ≡ record (state_of self.old) {
          entries = self.old.entries ++ entry_of [] self.old.lits.items ∷ [];
          lits = [];
        }) }
    {
        let made = entry(alloc, self.lits.as_slice())?;
        self.entries.push(made)?;
        self.lits.clear();
        Ok(())
    }

    // Whether a number of the body is a literal of a clause that may come.
    fn is_literal(&self, number: &Numeral) -> bool
        ensures { result ≡ is_literal (state_of self.now) number.now }
    {
        0 < number.value
            && number.value <= self.variables
            && self.entries.len() as u64 != self.count as u64
    }

    // Takes the numbers of the body that stand next, as long as they are found at once.
    fn take_numbers(
        &mut self,
        alloc: Global,
        words: &mut Words<'_>,
    ) -> Result<(), Refused<CnfFault>>
        ensures taken { ReadsOn (read_words (state_of self.old) words.old)
            (read_words (state_of self.new) words.new) result }
        ensures shorter { length words.new ≤ length words.old }
    {
        while let Stage::Body = self.stage {
            let Some((at, number)) = words.next_number() else {
                return Ok(());
            };
            if self.is_literal(&number) {
                if self.lits.push(literal_of(number)).is_err() {
                    return Err(Refused::NoMemory);
                }
                continue;
            }
            match self.take_number(alloc, Some(number), at) {
                Ok(()) => {}
                Err(e) => return Err(e),
            }
        }
        Ok(())
    }

    // Takes a word.
    fn take_word(&mut self, alloc: Global, word: &[u8], at: u64) -> Result<(), Refused<CnfFault>>
        ensures { StepsTo (take_word (state_of self.old) (record { at = at; text = word.now }))
            (state_of self.new) result }
    {
        match self.stage {
            Stage::Problem => {
                if word != b"p".as_slice() {
                    return Err(fault(CnfFaultCode::BadHeader, at));
                }
                self.stage = Stage::Format;
                Ok(())
            }
            Stage::Format => {
                if word != b"cnf".as_slice() {
                    return Err(fault(CnfFaultCode::BadHeader, at));
                }
                self.stage = Stage::Variables;
                Ok(())
            }
            Stage::Variables => {
                let Some(variables) = count_in(word) else {
                    return Err(fault(CnfFaultCode::BadHeader, at));
                };
                self.stage = Stage::Clauses;
                self.variables = variables;
                Ok(())
            }
            Stage::Clauses => {
                let Some(count) = count_in(word) else {
                    return Err(fault(CnfFaultCode::BadHeader, at));
                };
                self.stage = Stage::Body;
                self.count = count;
                Ok(())
            }
            Stage::Body => self.take_number(alloc, number_of(word), at),
        }
    }
}

/// The formula that a text in the format DIMACS CNF says, or its first fault, in reading order. Lines
/// that begin with `c` are comments, wherever they stand. A literal that is repeated counts once; a
/// clause with opposite literals keeps its id and is always true.
pub fn read_cnf(alloc: Global, text: &[u8]) -> Result<Cnf, Refused<CnfFault>>
    ensures answer { Answers (read_of text.now) result }
    ensures place { IfErr result (Because (StandsBy (length text.now))) }
{
    let read = read_text(alloc, text);
    read
}

// Reads the words one after another.
fn read_text(alloc: Global, text: &[u8]) -> Result<Cnf, Refused<CnfFault>>
    ensures { Answers (read_by_words text.now) result }
{
    let mut reading = Reading::new(alloc);
    let mut words = Words::of(text);
    while let Some(word) = words.next_word() {
        match reading.take_word(alloc, word.text, word.at) {
            Ok(()) => {}
            Err(e) => return Err(e),
        }
        match reading.take_numbers(alloc, &mut words) {
            Ok(()) => {}
            Err(e) => return Err(e),
        }
    }
    finish(reading, text.len() as u64)
}

// What was read, at the end of a text.
fn finish(reading: Reading, at: u64) -> Result<Cnf, Refused<CnfFault>>
    requires { (f : Formula) → ended (state_of reading) at ≡ Ok f → IsFormula f }
    ensures { Answers (ended (state_of reading) at) result }
{
    match reading.stage {
        Stage::Body => {}
        _ => return Err(fault(CnfFaultCode::BadHeader, at)),
    }
    if reading.lits.len() != 0 {
        return Err(fault(CnfFaultCode::Unended, at));
    }
    if reading.entries.len() as u64 != reading.count as u64 {
        return Err(fault(CnfFaultCode::WrongClauseCount, at));
    }
    Ok(Cnf::new(reading.variables, reading.entries))
}
