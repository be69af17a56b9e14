// Files and a sink in memory, which fail at the calls that they are told.
ghost use Rattle.std.specs.Prelude.{◌≡◌, ◌⊎◌, List, [], ℕ, IfOk, IsTrue, IsErrOf, is_err, MatchOption, Some};
ghost use Rattle.rml_bytes.specs.Memory.{NamesDiffer, IncreaseAbove, new_shelf, told_by, fails_next, called, new_slot};
ghost use Rattle.rml_bytes.specs.Memory.{fault_at, after_put, put_fails, firsts};
ghost use Rattle.rml_bytes.specs.Outside.{Told, Loads, Takes, HasCause, absent, whole, one_more};

use crate::{Bytes, Failed, FileName, Files, LoadError, Sink};
use base::Mem;
use std::alloc::Global;
use std::marker::Model;

/// Files that stand in memory, and tell their names and bytes.
#[derive(Drop)]
pub struct MemFiles {
    files: Vec<(FileName, Bytes)>,
    failing: Vec<u64>,
    calls: u64,
    faults: u64,
}

impl Model for MemFiles {
    ghost use Rattle.rml_bytes.specs.Memory.{Shelf};

    ghost Value = { Shelf };

    ghost view = { λ m. record {
      files = m.files.items;
      failing = m.failing.items;
      calls = m.calls;
      faults = m.faults;
    } };
}

impl MemFiles {
    /// These files, none of them loaded so far. `failing` has the numbers of the loads that are to fail, from 1.
    pub fn new(files: Vec<(FileName, Bytes)>, failing: Vec<u64>) -> Self
        requires names { NamesDiffer files.items }
        requires calls { IncreaseAbove 0 failing.items }
        ensures { result ≡ new_shelf files.items failing.items }
    {
        MemFiles {
            files,
            failing,
            calls: 0,
            faults: 0,
        }
    }
}

// The bytes under a name, where it is held.
fn find<'a>(files: &'a [(FileName, Bytes)], name: &[u8]) -> Option<&'a Bytes>
    ensures { MatchOption result (told_by files.now name.now ≡ absent) (λ b. told_by files.now name.now ≡ whole b.now) }
{
    let mut rest = files;
    while let [file, after @ ..] = rest {
        if file.0.as_slice() == name {
            return Some(&file.1);
        }
        rest = after;
    }
    None
}

// Adds at most limit bytes, or one more.
fn give(bytes: &[u8], limit: u64, into: &mut Vec<u8>) -> Result<(), LoadError>
    ensures loads { Loads (whole bytes.now) limit 0 0 into.old.items into.new.items result }
    ensures failed { IsErrOf result LoadError.Failed → ⊥ }
{
    if bytes.len() as u64 > limit {
        let end = limit as usize + 1;
        into.extend_from_slice(&bytes[..end])?;
        return Err(LoadError::TooLong);
    }
    into.extend_from_slice(bytes)?;
    Ok(())
}

impl Files for MemFiles {
    ghost told = { λ m. told_by m.files };

    ghost faults = { λ m. m.faults };

    ghost calls = { λ m. m.calls };

    fn load(&mut self, name: &str, limit: u64, into: &mut Vec<u8>) -> Result<(), LoadError>
        ensures same { (n : List ℕ) → told_by self.new.files n ≡ told_by self.old.files n }
        ensures loads { Loads (told_by self.old.files name.now) limit self.old.faults self.new.faults into.old.items
            into.new.items result }
        ensures counted { self.new.calls ≡ one_more self.old.calls }

        // It fails at the calls that are to fail, and at a name that it doesn't hold.
        ensures state { self.new ≡ called self.old (fails_next self.old) }
        ensures fails { IsTrue (fails_next self.old) → IsErrOf result LoadError.Failed }
        ensures failed { IsErrOf result LoadError.Failed → IsTrue (fails_next self.old)
            ⊎ (told_by self.old.files name.now ≡ absent) }
    {
        self.calls = self.calls.saturating_add(1);
        if self.failing.contains(&self.calls) {
            self.faults = self.faults.saturating_add(1);
            return Err(LoadError::Failed);
        }
        match find(&self.files, name.as_bytes()) {
            None => Err(LoadError::Failed),
            Some(bytes) => give(bytes.as_slice(), limit, into),
        }
    }
}

/// A sink with room for so many bytes, which it takes when it is made.
#[derive(Drop)]
pub struct MemSink {
    taken: Vec<u8>,
    room: u64,
    failing: Vec<(u64, u64)>,
    calls: u64,
    faults: u64,
}

impl Model for MemSink {
    ghost use Rattle.std.specs.Prelude.{◌≤◌, vec_capacity, length};
    ghost use Rattle.rml_bytes.specs.Memory.{Slot};

    ghost Value = { Slot };

    ghost view = { λ m. record {
      taken = m.taken.items;
      room = m.room;
      failing = m.failing.items;
      calls = m.calls;
      faults = m.faults;
    } };

    ghost invariant = { λ m. (length m.taken.items ≤ m.room) × (m.room ≤ vec_capacity m.taken) };
}

impl MemSink {
    /// A sink that has taken nothing. `failing` has the numbers of the puts that are to fail, from 1, each with the
    /// number of bytes that are taken first (at most the piece). A piece that is longer than the room left also fails,
    /// and nothing of it is taken. Err: there is no memory for the room.
    pub fn new(alloc: Global, room: u64, failing: Vec<(u64, u64)>) -> Mem<Self>
        requires { IncreaseAbove 0 (firsts failing.items) }
        ensures { IfOk result (λ s. s ≡ new_slot room failing.items) }
    {
        let taken = Vec::with_capacity(alloc, room as usize)?;
        Ok(MemSink {
            taken,
            room,
            failing,
            calls: 0,
            faults: 0,
        })
    }

    /// What it has taken.
    pub fn taken(&self) -> &[u8]
        ensures { result.now ≡ self.now.taken }
    {
        &self.taken
    }
}

// How much the call of this number takes before it fails, where it is to fail.
fn fault_of(failing: &[(u64, u64)], call: u64) -> Option<u64>
    ensures { result ≡ fault_at call failing.now }
{
    let mut rest = failing;
    while let [fault, after @ ..] = rest {
        if fault.0 == call {
            return Some(fault.1);
        }
        rest = after;
    }
    None
}

impl Sink for MemSink {
    ghost taken = { λ s. Some s.taken };

    ghost faults = { λ s. s.faults };

    ghost calls = { λ s. s.calls };

    fn put(&mut self, piece: &[u8]) -> Result<(), Failed>
        ensures takes { Takes (Some self.old.taken) (Some self.new.taken) piece.now result }
        ensures cause { HasCause self.old.faults self.new.faults result }
        ensures counted { self.new.calls ≡ one_more self.old.calls }

        // It fails at a piece that is longer than its room, and at the calls that are to fail.
        ensures state { self.new ≡ after_put self.old piece.now }
        ensures answer { is_err result ≡ put_fails self.old piece.now }
    {
        self.calls = self.calls.saturating_add(1);
        if piece.len() as u64 > self.room - self.taken.len() as u64 {
            self.faults = self.faults.saturating_add(1);
            return Err(Failed);
        }
        match fault_of(&self.failing, self.calls) {
            None => {
                self.taken.extend_from_slice(piece).unwrap();
                Ok(())
            }
            Some(count) => {
                let count = piece.len().min(count as usize);
                self.taken.extend_from_slice(&piece[..count]).unwrap();
                self.faults = self.faults.saturating_add(1);
                Err(Failed)
            }
        }
    }
}
