//! Shows what `ivycheck` finds of a model, as a person wants to see it.
#![tactic(auto)]

mod terminal;

use rml_bytes::{InputFiles, StdSink};
use std::io::{ErrorKind, IsTerminal};
use std::process::ExitCode;
use std::{env, io};
use terminal::ProgressLine;
use view_run::view;

const NO_MEMORY: u8 = 7;

const NOT_TEXT: u8 = 6;

// Why the words can't be had.
fn status_of(error: &io::Error) -> u8 {
    if error.kind() == ErrorKind::OutOfMemory {
        NO_MEMORY
    } else {
        NOT_TEXT
    }
}

fn main(rt: HostRuntime) -> ExitCode {
    let alloc = rt.alloc();
    let mut words = Vec::new(alloc);
    let arguments = match env::args(&rt) {
        Ok(arguments) => arguments,
        Err(error) => return ExitCode::from(status_of(&error)),
    };
    for word in arguments.skip(1) {
        if words.push(word).is_err() {
            return ExitCode::from(NO_MEMORY);
        }
    }
    let is_watched = rt.stderr().is_terminal();
    let mut progress = ProgressLine::new(rt.stderr(), is_watched);
    let mut out = StdSink::new(rt.stdout());
    let mut err = StdSink::new(rt.stderr());
    let input = rt.stdin();
    let mut files = InputFiles::new(rt, input);
    let ended = view(alloc, &words, &mut files, &mut out, &mut err, &mut progress);
    ExitCode::from(ended.into_status())
}
