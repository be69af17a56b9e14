// The outside as the product sees it.
ghost use Rattle.std.specs.Prelude.{◌≡◌, ◌≤◌, List, ℕ, Option};
ghost use Rattle.rml_bytes.specs.declared.outside.LoadError.TheVariants.{NoMemory};
ghost use Rattle.rml_bytes.specs.Outside.{Told, Loads, Takes, HasCause, one_more};

use std::alloc::{AllocError, AllocFailed};

/// Why a file was not loaded.
#[derive(Clone, Copy, Debug, PartialEq, Eq)]
pub enum LoadError {
    /// The outside failed, or holds no file of this name. Nothing was added.
    Failed,
    /// The file has more bytes than the limit. The first `limit + 1` were added.
    TooLong,
    /// A front of the file was added.
    NoMemory,
}

impl From<AllocError> for LoadError {
    ghost from_gives = { λ _ e. e ≡ NoMemory };

    fn from(_: AllocError) -> Self {
        LoadError::NoMemory
    }
}

impl<T: Drop> From<AllocFailed<T>> for LoadError {
    ghost from_gives = { λ _ e. e ≡ NoMemory };

    fn from(_: AllocFailed<T>) -> Self {
        LoadError::NoMemory
    }
}

/// A sink did not take the whole piece.
#[derive(Clone, Copy, Debug, PartialEq, Eq)]
pub struct Failed;

/// Files that are read whole.
pub trait Files {
    /// What it tells of a name: nothing, that it holds no such file, or the file's bytes.
    ghost told: { Self → List ℕ → Told };

    /// How often it has failed. The count never falls, and stands still at the last value of a `u64`.
    ghost faults: { Self → ℕ };

    /// How many loads were asked for. The count stands still at the last value of a `u64`.
    ghost calls: { Self → ℕ };

    /// Adds the whole file of at most `limit` bytes behind what stands in `into`, or says why not.
    fn load(&mut self, name: &str, limit: u64, into: &mut Vec<u8>) -> Result<(), LoadError>
        ensures same { (n : List ℕ) → told self.new n ≡ told self.old n }
        ensures loads { Loads (told self.old name.now) limit (faults self.old) (faults self.new) into.old.items
            into.new.items result }
        ensures counted { calls self.new ≡ one_more (calls self.old) };
}

/// What takes bytes, piece by piece.
pub trait Sink {
    /// The bytes taken, where it tells them.
    ghost taken: { Self → Option (List ℕ) };

    /// How often it has failed, as `Files.faults`.
    ghost faults: { Self → ℕ };

    /// How many pieces were handed over, as `Files.calls`.
    ghost calls: { Self → ℕ };

    /// Hands over the whole piece, or a front of it where it fails.
    fn put(&mut self, piece: &[u8]) -> Result<(), Failed>
        ensures takes { Takes (taken self.old) (taken self.new) piece.now result }
        ensures cause { HasCause (faults self.old) (faults self.new) result }
        ensures counted { calls self.new ≡ one_more (calls self.old) };
}
