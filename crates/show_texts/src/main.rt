//! Prints what `lex` and `parse` answer to the texts of models, which become tokens and trees, with the place of each
//! token and node, or have a first fault. What `stdout` holds was written down from outside: by hand, from the
//! definitions. The gate runs the program as two compilers make it, and compares what it writes to the byte.
#![tactic(auto)]

mod texts;

use call_files::tell;
use std::io;
use std::process::ExitCode;
use texts::{Grammar, Tokens, Trees};

fn tell_all(rt: HostRuntime) -> io::Result<()> {
    let alloc = rt.alloc();
    tell::<Tokens>(rt, alloc, "tokens.txt")?;
    tell::<Grammar>(rt, alloc, "grammar.txt")?;
    tell::<Trees>(rt, alloc, "trees.txt")
}

fn main(rt: HostRuntime) -> ExitCode {
    match tell_all(rt) {
        Ok(()) => ExitCode::SUCCESS,
        Err(_) => {
            let _ = eprintln!(&rt; "a file can't be read, or the memory or the output fails");
            ExitCode::FAILURE
        }
    }
}
