//! The program's edge: files that are read whole, and sinks that take pieces of text.
//!
//! `Files` and `Sink` say what the outside may answer, by a count of its faults and by what it tells of
//! its contents. `MemFiles` and `MemSink` stand in memory, tell all, and fail at the calls that they are
//! told; `DiskFiles` and `StdSink` are the files and the streams of the system, and tell what these tell;
//! `InputFiles` are the files with standard input among them.
#![tactic(auto)]

mod bytes;
mod memory;
mod outside;
mod system;

pub use bytes::{Bytes, FileName};
pub use memory::{MemFiles, MemSink};
pub use outside::{Failed, Files, LoadError, Sink};
pub use system::{DiskFiles, InputFiles, StdSink};
