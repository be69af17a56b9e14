// The codes of the faults of a formula's text. An enum, so that no number can be one that has no words, and the words
// stand beside the numbers in one place.
ghost use Rattle.std.specs.Prelude.{◌≡◌, ℕ, codes};
ghost use Rattle.cnf_base.specs.FaultCodes.{number_of, text_of};

/// What is wrong with the text of a formula.
#[derive(Clone, Copy, Debug, PartialEq, Eq)]
pub enum CnfFaultCode {
    /// The text does not begin with `p cnf` and two numbers without a sign.
    BadHeader,
    /// A word behind the header that is no number.
    BadNumber,
    /// A literal of a variable beyond the header's number of variables.
    VariableOutOfRange,
    /// More or fewer clauses than the header says.
    WrongClauseCount,
    /// The text ends within a clause.
    Unended,
}

impl CnfFaultCode {
    /// The code's number, from 1 to 5.
    pub fn number(self) -> u8
        ensures { result ≡ number_of self }
    {
        match self {
            CnfFaultCode::BadHeader => 1,
            CnfFaultCode::BadNumber => 2,
            CnfFaultCode::VariableOutOfRange => 3,
            CnfFaultCode::WrongClauseCount => 4,
            CnfFaultCode::Unended => 5,
        }
    }

    /// The code's words, as a report prints them.
    pub fn text(self) -> &'static str
        ensures { result.now ≡ text_of self }
    {
        match self {
            CnfFaultCode::BadHeader => "bad header",
            CnfFaultCode::BadNumber => "bad number",
            CnfFaultCode::VariableOutOfRange => "variable out of range",
            CnfFaultCode::WrongClauseCount => "wrong number of clauses",
            CnfFaultCode::Unended => "unended",
        }
    }
}
