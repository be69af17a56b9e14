// The codes of the faults of a model's text. An enum, so that no number can be one that has no words, and the words
// stand beside the numbers in one place.
ghost use Rattle.std.specs.Prelude.{◌≡◌, ℕ, codes};
ghost use Rattle.rml_lex.specs.FaultCodes.{number_of, text_of};

/// What is wrong with a model's text. In a report it is the letter `F` with the code's number, and the code's words.
#[derive(Clone, Copy, Debug, PartialEq, Eq)]
pub enum FaultCode {
    /// A byte outside comments that begins no token.
    BadByte,
    /// A name of more than 64 bytes.
    LongName,
    /// A number of more than 9 digits, or with a letter behind it.
    BadNumber,
    /// A token that the grammar has no place for.
    UnexpectedToken,
    /// More openings inside one another than the reader follows.
    DeepNesting,
    /// A name that is declared before.
    DeclaredTwice,
    /// A name that nothing declares.
    UnknownName,
    /// A symbol with more or fewer arguments than it is declared with.
    WrongArgumentCount,
    /// A term of another sort than its place wants.
    WrongSort,
    /// An expression that is no formula where one is wanted.
    NotAFormula,
    /// An expression that is no term where one is wanted.
    NotATerm,
    /// The left side of an update that nothing may be assigned to.
    BadTarget,
    /// A bound name that is a symbol's.
    TakenName,
    /// More names of a kind than there may be.
    TooManyNames,
    /// Functions whose sorts lead round in a cycle.
    FunctionCycle,
    /// An assumption that is not exists-forall.
    NotExistsForall,
    /// An axiom or a conjecture that is not universal.
    NotUniversal,
    /// A right side of an update that has quantifiers.
    NotQuantifierFree,
    /// A condition whose quantifiers alternate.
    NotAlternationFree,
    /// A block with more paths than are followed.
    TooManyPaths,
    /// A use of a definition that makes an expression too large once all uses in it are written out.
    LargeDefinition,
}

impl FaultCode {
    /// The code's number, from 1 to 20, or 22.
    pub fn number(self) -> u8
        ensures { result ≡ number_of self }
    {
        match self {
            FaultCode::BadByte => 1,
            FaultCode::LongName => 2,
            FaultCode::BadNumber => 3,
            FaultCode::UnexpectedToken => 4,
            FaultCode::DeepNesting => 5,
            FaultCode::DeclaredTwice => 6,
            FaultCode::UnknownName => 7,
            FaultCode::WrongArgumentCount => 8,
            FaultCode::WrongSort => 9,
            FaultCode::NotAFormula => 10,
            FaultCode::NotATerm => 11,
            FaultCode::BadTarget => 12,
            FaultCode::TakenName => 13,
            FaultCode::TooManyNames => 14,
            FaultCode::FunctionCycle => 15,
            FaultCode::NotExistsForall => 16,
            FaultCode::NotUniversal => 17,
            FaultCode::NotQuantifierFree => 18,
            FaultCode::NotAlternationFree => 19,
            FaultCode::TooManyPaths => 20,
            FaultCode::LargeDefinition => 22,
        }
    }

    /// The code's words, as a report prints them.
    pub fn text(self) -> &'static str
        ensures { result.now ≡ text_of self }
    {
        match self {
            FaultCode::BadByte => "bad byte",
            FaultCode::LongName => "name too long",
            FaultCode::BadNumber => "bad number",
            FaultCode::UnexpectedToken => "unexpected token",
            FaultCode::DeepNesting => "nested too deep",
            FaultCode::DeclaredTwice => "declared twice",
            FaultCode::UnknownName => "unknown name",
            FaultCode::WrongArgumentCount => "wrong number of arguments",
            FaultCode::WrongSort => "wrong sort",
            FaultCode::NotAFormula => "not a formula",
            FaultCode::NotATerm => "not a term",
            FaultCode::BadTarget => "bad target",
            FaultCode::TakenName => "name taken by a symbol",
            FaultCode::TooManyNames => "too many names",
            FaultCode::FunctionCycle => "functions form a cycle",
            FaultCode::NotExistsForall => "not exists-forall",
            FaultCode::NotUniversal => "not universal",
            FaultCode::NotQuantifierFree => "not quantifier-free",
            FaultCode::NotAlternationFree => "not alternation-free",
            FaultCode::TooManyPaths => "too many paths",
            FaultCode::LargeDefinition => "definition too large",
        }
    }
}
