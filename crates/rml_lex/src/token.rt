// What a text is made of. Each kind is a plain value, with which the parser compares what it sees.
use crate::FaultCode;

/// A token: the bytes of a text from `start` to before `end`, counted from 0.
#[derive(Clone, Copy, Debug, PartialEq, Eq)]
pub struct Token {
    /// What the bytes are.
    pub kind: Kind,
    /// The first byte.
    pub start: u64,
    /// The byte behind the last one.
    pub end: u64,
}

/// What a token is.
#[derive(Clone, Copy, Debug, PartialEq, Eq)]
pub enum Kind {
    /// A name that is no reserved word.
    Name,
    /// A reserved word.
    Word(Word),
    /// One to nine digits.
    Number,
    /// A sign of one to three bytes.
    Sign(Sign),
}

/// A reserved word. Each is written as its variant, in small letters.
#[derive(Clone, Copy, Debug, PartialEq, Eq)]
pub enum Word {
    Rml,
    Sort,
    Relation,
    Function,
    Variable,
    Axiom,
    Conjecture,
    Init,
    Action,
    Final,
    Skip,
    Abort,
    Assume,
    Assert,
    If,
    Else,
    Choose,
    Or,
    Insert,
    Remove,
    Put,
    Forall,
    Exists,
    True,
    False,
    Ite,
    /// Reserved, though the grammar has no place for it.
    Define,
}

/// A sign, with its bytes.
#[derive(Clone, Copy, Debug, PartialEq, Eq)]
pub enum Sign {
    /// `<->`
    DoubleArrow,
    /// `->`
    Arrow,
    /// `:=`
    Becomes,
    /// `~=`
    NotEqual,
    /// `{`
    OpenBrace,
    /// `}`
    CloseBrace,
    /// `(`
    OpenParen,
    /// `)`
    CloseParen,
    /// `,`
    Comma,
    /// `;`
    Semicolon,
    /// `:`
    Colon,
    /// `.`
    Dot,
    /// `=`
    Equal,
    /// `~`
    Not,
    /// `&`
    And,
    /// `|`
    Or,
    /// `*`
    Star,
}

/// A fault of a text: what is wrong, and the byte where it stands, counted from 0. A fault at the text's end stands at
/// the byte that would come next.
#[derive(Clone, Copy, Debug, PartialEq, Eq)]
pub struct Fault {
    /// What is wrong.
    pub code: FaultCode,
    /// The byte where it stands.
    pub at: u64,
}

// What stands at the front of a text: nothing more, a token and how many bytes it has, or a fault's code.
#[derive(Clone, Copy)]
pub enum Front {
    End,
    Token(Kind, usize),
    Fault(FaultCode),
}
