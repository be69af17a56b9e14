//! Prints formulas that others become, with inputs in the code: with constants in the place of existential quantifiers
//! (`constants`), and by replacements (`replace_const`, `replace_rel`, `replace_fun`, `shift`); and what becomes of the
//! same formulas in a pool, with the normal forms of two. What `stdout` holds was written down from outside: by hand,
//! from the definitions. The gate runs the program as two compilers make it, and
//! compares what it writes to the byte.
#![tactic(auto)]

mod constants;
mod pooled;
mod replacing;

use std::io;
use std::process::ExitCode;

fn tell_all(rt: HostRuntime) -> io::Result<()> {
    let alloc = rt.alloc();
    constants::tell(&rt, alloc)?;
    replacing::tell(&rt, alloc)?;
    pooled::tell(&rt, alloc)
}

fn main(rt: HostRuntime) -> ExitCode {
    match tell_all(rt) {
        Ok(()) => ExitCode::SUCCESS,
        Err(_) => {
            let _ = eprintln!(&rt; "the memory or the output fails");
            ExitCode::FAILURE
        }
    }
}
