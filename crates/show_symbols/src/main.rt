//! Prints what is answered to calls on symbols, with inputs in the code: signatures, structures, the order of sorts or
//! the first cycle, tuples and their numbers, terms; the instance of a sentence over two constants (`expand`), and the
//! axioms of equality over them (`axioms`). What `stdout` holds was written down from outside: by hand, from the
//! definitions. The gate runs the program as two compilers make it, and compares what it writes to the byte.
#![tactic(auto)]

mod ground;
mod structures;

use std::io;
use std::process::ExitCode;

fn tell_all(rt: HostRuntime) -> io::Result<()> {
    let alloc = rt.alloc();
    structures::tell(&rt, alloc)?;
    ground::tell(&rt, alloc)
}

fn main(rt: HostRuntime) -> ExitCode {
    match tell_all(rt) {
        Ok(()) => ExitCode::SUCCESS,
        Err(_) => {
            let _ = eprintln!(&rt; "the memory or the output fails");
            ExitCode::FAILURE
        }
    }
}
