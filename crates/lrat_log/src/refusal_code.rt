// The codes of refusals. An enum, so that no number can be one that has no words, and the words stand beside the
// numbers in one place.
ghost use Rattle.std.specs.Prelude.{◌≡◌, ℕ, codes};
ghost use Rattle.lrat_log.specs.RefusalCodes.{number_of, text_of};

/// Why a line of a log is not accepted.
#[derive(Clone, Copy, Debug, PartialEq, Eq)]
pub enum RefusalCode {
    /// An id, of a hint or to be deleted, under which no clause is held.
    UnknownId,
    /// A hint whose clause has two literals that are not false, or a true one.
    HintNotUnit,
    /// No hint is false.
    NoConflict,
}

impl RefusalCode {
    /// The code's number, from 1 to 3.
    pub fn number(self) -> u8
        ensures { result ≡ number_of self }
    {
        match self {
            RefusalCode::UnknownId => 1,
            RefusalCode::HintNotUnit => 2,
            RefusalCode::NoConflict => 3,
        }
    }

    /// The code's words, as a report prints them.
    pub fn text(self) -> &'static str
        ensures { result.now ≡ text_of self }
    {
        match self {
            RefusalCode::UnknownId => "unknown id",
            RefusalCode::HintNotUnit => "hint is neither unit nor false",
            RefusalCode::NoConflict => "no conflict",
        }
    }
}
