// How the top call ends.
ghost use Rattle.std.specs.Prelude.{◌≡◌};

use crate::viewed::Viewed;
use commands::Written;
use rml_bytes::{Bytes, LoadError};

/// What is answered.
#[derive(Drop)]
pub enum Answer {
    /// The words are no command line, or ask for words alone.
    Words,
    /// They ask a question about a model.
    Viewed(Viewed),
}

/// The bytes that were handed over. What was not loaded is empty.
#[derive(Drop)]
pub struct Loaded {
    pub first: Bytes,
    pub second: Bytes,
}

/// The answer, or why there is none; the status of the process, and what became of the text.
#[derive(Drop)]
pub struct Ended {
    pub status: u8,
    pub outcome: Result<Answer, LoadError>,
    pub loaded: Loaded,
    pub written: Written,
}

impl Ended {
    /// The status, where nothing else is asked for.
    pub fn into_status(self) -> u8
        ensures { result ≡ self.status }
    {
        let status = self.status;
        drop(self);
        status
    }
}
