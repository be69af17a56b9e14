//! The words of the command line, read by `clap`.
#![tactic(auto)]

mod bmc;
mod emit;
mod files;
mod houdini;
mod number;
mod request;
mod sample;
mod words;

pub use request::{Asked, Bound, Emission, Request, What, check, default_asked, read_words};
