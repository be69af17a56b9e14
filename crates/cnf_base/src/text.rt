// What the texts of formulas and logs are made of, with what a reader keeps of what stood before.
use crate::fault_code::CnfFaultCode;

/// Where a reader stands before a byte.
#[derive(Clone, Copy)]
pub enum LineMode {
    LineStart,
    InLine,
    InWord,
    Comment,
}

/// A number as it is written.
#[derive(Clone, Copy)]
pub struct Numeral {
    pub negative: bool,
    pub value: u32,
}

/// Which word is wanted next.
#[derive(Clone, Copy)]
pub enum Stage {
    Problem,
    Format,
    Variables,
    Clauses,
    Body,
}

/// What is wrong with the text of a formula, and at which byte, from 0 on.
#[derive(Clone, Copy, PartialEq, Eq, Debug)]
pub struct CnfFault {
    pub code: CnfFaultCode,
    pub at: u64,
}
