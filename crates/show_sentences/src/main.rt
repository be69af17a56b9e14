//! Prints what is answered to models (`resolve`): the nodes, the depth and the fragments of their axioms and
//! conjectures, and the types that take them; the normal forms of these (`normal`, `negate`); and the paths of a block
//! (`paths`). What `stdout` holds was written down from outside: by hand, from the definitions. The gate runs the
//! program as two compilers make it, and compares what it writes to the byte.
#![tactic(auto)]

mod fragments;
mod models;
mod normal_forms;
mod paths;

use call_files::{status_of, tell};
use fragments::Fragments;
use normal_forms::NormalForms;
use paths::BlockPaths;
use std::io;
use std::process::ExitCode;

fn tell_all(rt: HostRuntime) -> io::Result<()> {
    let alloc = rt.alloc();
    tell::<Fragments>(rt, alloc, "sentences.txt")?;
    tell::<NormalForms>(rt, alloc, "normal_forms.txt")?;
    tell::<BlockPaths>(rt, alloc, "paths.txt")
}

fn main(rt: HostRuntime) -> ExitCode {
    status_of(rt, tell_all(rt))
}
