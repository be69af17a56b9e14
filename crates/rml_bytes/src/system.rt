// The real outside: loops over read and write, and counts of their faults.
ghost use Rattle.std.specs.Prelude.{◌≡◌, ◌≤◌, ◌<◌, ℕ, Option, List};
ghost use Rattle.rml_bytes.specs.Outside.{Told, untold, Loads, Takes};
ghost use Rattle.rml_bytes.specs.System.{Turn, told_left, none_counted};

use crate::{Failed, Files, LoadError, Sink};
use std::io::{Read, Write};
use std::marker::Model;
use std::{fs, rt};

// How many bytes are asked of a reader at once, at most.
const PIECE: usize = 4096;

/// The files of the system, which tell nothing. A missing file counts as a fault.
#[derive(Drop)]
pub struct DiskFiles<R: rt::Files + Drop> {
    system: R,
    faults: u64,
    calls: u64,
}

impl<R: rt::Files + Drop> Model for DiskFiles<R> {
    ghost use Rattle.rml_bytes.specs.System.{Counts};

    ghost Value = { Counts };

    ghost view = { λ d. record { faults = d.faults; calls = d.calls } };
}

impl<R: rt::Files + Drop> DiskFiles<R> {
    /// The files of a system, of which none was read so far.
    pub fn new(system: R) -> Self
        ensures { result ≡ none_counted }
    {
        DiskFiles {
            system,
            faults: 0,
            calls: 0,
        }
    }
}

// One turn of a load.
fn take_some<R: Read>(reader: &mut R, most: usize, into: &mut Vec<u8>) -> Result<usize, LoadError>
    requires low { 0 < most }
    requires high { most ≤ 4096 }
    ensures { Turn (R.remaining reader.old) (R.remaining reader.new) most into.old.items into.new.items result }
{
    let mut buffer = [0u8; PIECE];
    let part = &mut buffer[..most];
    let Ok(count) = reader.read(part) else {
        return Err(LoadError::Failed);
    };
    into.extend_from_slice(&part[..count])?;
    Ok(count)
}

// Adds what the reader has left, in at most limit + 1 turns.
fn read_whole<R: Read>(reader: &mut R, limit: u64, into: &mut Vec<u8>) -> Result<(), LoadError>
    ensures { Loads (told_left (R.remaining reader.old)) limit 0 1 into.old.items into.new.items result }
{
    let start = into.len();
    let mut left = limit;
    loop {
        let most = left.saturating_add(1).min(4096) as usize;
        match take_some(reader, most, into) {
            Ok(0) => return Ok(()),
            Ok(count) => {
                if count as u64 > left {
                    return Err(LoadError::TooLong);
                }
                left -= count as u64;
            }
            Err(LoadError::Failed) => {
                into.truncate(start);
                return Err(LoadError::Failed);
            }
            Err(error) => return Err(error),
        }
    }
}

impl<R: rt::Files + Drop> Files for DiskFiles<R> {
    ghost told = { λ _ _. untold };

    ghost faults = { λ d. d.faults };

    ghost calls = { λ d. d.calls };

    fn load(&mut self, name: &str, limit: u64, into: &mut Vec<u8>) -> Result<(), LoadError> {
        self.calls = self.calls.saturating_add(1);
        let Ok(mut file) = fs::open(&self.system, name) else {
            self.faults = self.faults.saturating_add(1);
            return Err(LoadError::Failed);
        };
        let result = read_whole(&mut file, limit, into);
        if result == Err(LoadError::Failed) {
            self.faults = self.faults.saturating_add(1);
        }
        result
    }
}

/// The name of the file that is standard input.
const INPUT: &str = "-";

/// The files of the system, where the name `-` is that of a reader, as of standard input. They tell nothing.
#[derive(Drop)]
pub struct InputFiles<R: rt::Files + Drop, I: Read + Drop> {
    disk: DiskFiles<R>,
    input: I,
}

impl<R: rt::Files + Drop, I: Read + Drop> Model for InputFiles<R, I> {
    ghost use Rattle.rml_bytes.specs.System.{Counts};

    ghost Value = { Counts };

    ghost view = { λ f. f.disk };
}

impl<R: rt::Files + Drop, I: Read + Drop> InputFiles<R, I> {
    /// The files of a system and a reader, of which none was read so far.
    pub fn new(system: R, input: I) -> Self
        ensures { result ≡ none_counted }
    {
        InputFiles {
            disk: DiskFiles::new(system),
            input,
        }
    }
}

impl<R: rt::Files + Drop, I: Read + Drop> Files for InputFiles<R, I> {
    ghost told = { λ _ _. untold };

    ghost faults = { λ f. f.faults };

    ghost calls = { λ f. f.calls };

    fn load(&mut self, name: &str, limit: u64, into: &mut Vec<u8>) -> Result<(), LoadError> {
        if name != INPUT {
            return self.disk.load(name, limit, into);
        }
        self.disk.calls = self.disk.calls.saturating_add(1);
        let result = read_whole(&mut self.input, limit, into);
        if result == Err(LoadError::Failed) {
            self.disk.faults = self.disk.faults.saturating_add(1);
        }
        result
    }
}

/// Standard output or standard error, or any other writer.
#[derive(Drop)]
pub struct StdSink<W: Write + Drop> {
    inner: W,
    faults: u64,
    calls: u64,
}

impl<W: Write + Drop> Model for StdSink<W> {
    ghost use Rattle.std.specs.Prelude.{ℕ, List, Option};
    ghost use Rattle.rml_bytes.specs.System.{Counts};

    ghost Value = { Option (List ℕ) × Counts };

    ghost view = { λ s. (W.contents s.inner, record { faults = s.faults; calls = s.calls }) };
}

impl<W: Write + Drop> StdSink<W> {
    /// A writer that was handed nothing so far.
    pub fn new(inner: W) -> Self
        ensures { result ≡ (W.contents inner, none_counted) }
    {
        StdSink {
            inner,
            faults: 0,
            calls: 0,
        }
    }
}

// Hands over the whole piece, or says that it couldn't.
fn write_whole<W: Write>(writer: &mut W, piece: &[u8]) -> Result<(), Failed>
    ensures { Takes (W.contents writer.old) (W.contents writer.new) piece.now result }
{
    let mut rest = piece;
    while !rest.is_empty() {
        match writer.write(rest) {
            Ok(0) => return Err(Failed),
            Ok(count) => rest = &rest[count..],
            Err(_) => return Err(Failed),
        }
    }
    Ok(())
}

impl<W: Write + Drop> Sink for StdSink<W> {
    ghost taken = { λ s. s.0 };

    ghost faults = { λ s. s.1.faults };

    ghost calls = { λ s. s.1.calls };

    fn put(&mut self, piece: &[u8]) -> Result<(), Failed> {
        self.calls = self.calls.saturating_add(1);
        let result = write_whole(&mut self.inner, piece);
        if result.is_err() {
            self.faults = self.faults.saturating_add(1);
        }
        result
    }
}
