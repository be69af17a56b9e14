//! Files of rows: what a program is to be run on, and what is to come out, as a text says it; and how that is compared
//! with what came out. No program is named here, so that reading rows is proved beside the libraries and not behind
//! them.
#![tactic(auto)]

mod notation;
mod reader;
mod report;
mod row;

pub use reader::{Parsed, read_rows};
pub use report::Report;
pub use row::{Expected, Prefixes, Row, Stream, Text};
