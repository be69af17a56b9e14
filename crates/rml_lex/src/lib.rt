//! The tokens of a model's text, the faults that a text can have, and where they stand.
//!
//! `lex` gives the tokens of a text, or its first bad byte, name or number. A token is a kind and two places: its bytes
//! stay in the text (`word`), so that tokens are copied freely and no name is stored twice. `FaultCode` and `Fault`
//! stand here, since every phase of the front end reports by them, and `place` turns the byte of a fault into the line
//! and the column that a report shows.
#![tactic(auto)]

mod fault_code;
mod laws;
mod lexer;
mod places;
mod token;

pub use fault_code::FaultCode;
pub use laws::{code_law, one_reading};
pub use lexer::{lex, word};
pub use places::place;
pub use token::{Fault, Kind, Sign, Token, Word};
