//! Printed reports of a model: which texts are one, and what they say. A printed report has the lines of the crate
//! `rml_report`; how a text is read, and whether what it says is so, is for the crates above.
#![tactic(auto)]

mod printed;

pub use printed::{Printed, PrintedAnswer, PrintedGroup, Unread};
