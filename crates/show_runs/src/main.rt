//! Prints where paths of models end that are followed from blank structures (`read_model`, `follow`), and which
//! conjectures are true there (`holds`). What `stdout` holds was written down from outside: by hand, from the
//! definitions. The gate runs the program as two compilers make it, and compares what it writes to the byte.
#![tactic(auto)]

mod following;

use call_files::tell;
use following::Runs;
use std::io;
use std::process::ExitCode;

fn tell_all(rt: HostRuntime) -> io::Result<()> {
    let alloc = rt.alloc();
    tell::<Runs>(rt, alloc, "following.txt")
}

fn main(rt: HostRuntime) -> ExitCode {
    match tell_all(rt) {
        Ok(()) => ExitCode::SUCCESS,
        Err(_) => {
            let _ = eprintln!(&rt; "a file can't be read, or the memory or the output fails");
            ExitCode::FAILURE
        }
    }
}
