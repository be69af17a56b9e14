//! The commands that read a model and print what is so of it: `check`, `houdini`, `bmc`, and `sample`, whose model is
//! made. Each is a module and a page of definitions, which say what its answers are and what is due.
#![tactic(auto)]

mod bmc;
mod check;
mod houdini;
mod sample;

pub use bmc::{Bmc, BmcAnswer, bounded_status};
pub use check::{Check, CheckAnswer, verdict_status};
pub use houdini::{Houdini, HoudiniAnswer, houdini_status};
pub use sample::{Sample, SampleAnswer, Sampled};
