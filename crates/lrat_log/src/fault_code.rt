// The codes of the faults of a log's text. An enum, so that no number can be one that has no words, and the words
// stand beside the numbers in one place.
ghost use Rattle.std.specs.Prelude.{◌≡◌, ℕ, codes};
ghost use Rattle.lrat_log.specs.FaultCodes.{number_of, text_of};

/// What is wrong with the text of a log.
#[derive(Clone, Copy, Debug, PartialEq, Eq)]
pub enum LogFaultCode {
    /// A word that is no number where one is wanted, an id without meaning (0 or below), or a negative id to delete.
    BadNumber,
    /// A negative hint, with which a step of another kind begins.
    RatHint,
    /// The text ends within a line.
    Unended,
    /// An addition whose id is not above those before it.
    IdNotAbove,
    /// A literal of a variable that the formula does not have.
    VariableOutOfRange,
}

impl LogFaultCode {
    /// The code's number, from 1 to 5.
    pub fn number(self) -> u8
        ensures { result ≡ number_of self }
    {
        match self {
            LogFaultCode::BadNumber => 1,
            LogFaultCode::RatHint => 2,
            LogFaultCode::Unended => 3,
            LogFaultCode::IdNotAbove => 4,
            LogFaultCode::VariableOutOfRange => 5,
        }
    }

    /// The code's words, as a report prints them.
    pub fn text(self) -> &'static str
        ensures { result.now ≡ text_of self }
    {
        match self {
            LogFaultCode::BadNumber => "bad number",
            LogFaultCode::RatHint => "RAT hint",
            LogFaultCode::Unended => "unended",
            LogFaultCode::IdNotAbove => "id not above the last",
            LogFaultCode::VariableOutOfRange => "variable out of range",
        }
    }
}
