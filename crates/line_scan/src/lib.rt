//! A text is read line by line, and each line from left to right: words that are known, and numbers.
#![tactic(auto)]

mod laws;
mod lines;
mod scan;

pub use laws::{line_laws, scan_laws};
pub use lines::Lines;
pub use scan::Scan;
