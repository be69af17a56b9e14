// Lists of bytes as small types of their own, so that a clause can compare them.
ghost use Rattle.std.specs.Prelude.{◌≡◌, ℕ, List, IfOk};

use base::{Mem, Row};
use std::alloc::Global;
use std::marker::Model;

/// The bytes of a file, or of a printed text.
pub type Bytes = Row<u8>;

/// The name of a file: any bytes.
#[derive(Drop)]
pub struct FileName {
    letters: Vec<u8>,
}

impl Model for FileName {
    ghost Value = { List ℕ };

    ghost view = { λ n. n.letters.items };
}

impl FileName {
    /// A copy of these letters. Err: out of memory.
    pub fn from_slice(alloc: Global, letters: &[u8]) -> Mem<FileName>
        ensures { IfOk result (λ n. n ≡ letters.now) }
    {
        let letters = letters.to_vec(alloc)?;
        Ok(FileName { letters })
    }

    /// The letters, in place.
    pub fn as_slice(&self) -> &[u8]
        ensures { result.now ≡ self.now }
    {
        &self.letters
    }
}
