//! Follows each run that `bounded` of `rml_bmc` shows, part by part, with the code that follows paths (`rml_exec`), and
//! says how many of them do what they are said to do: an abort at the last part, or an end where the conjecture is
//! false. The models are 300, made by chance and always the same; their runs have up to two actions. All that
//! `stdout` must say is that none differs. The gate runs the program as two compilers make it, and compares what it
//! writes to the byte.
#![tactic(auto)]

mod following;
mod making;

use base::{Mem, Refused};
use following::follow_runs;
use limits::Limits;
use making::{Chance, model_text};
use rml_front::read_model;
use std::alloc::{AllocError, Global};
use std::io;
use std::process::ExitCode;

const MODELS: u32 = 300;

/// How many models were made, and what became of them.
#[derive(Clone, Copy)]
pub struct Seen {
    /// Models whose lengths are all safe, or left open.
    pub unbroken: u32,
    /// Models with a shown run that does what it is said to do.
    pub right: u32,
    /// Models with one that does not.
    pub wrong: u32,
    /// Models with a fault.
    pub faulty: u32,
}

fn limits() -> Limits {
    Limits {
        terms: 400,
        ground_size: 2000000,
        conflicts: 100000,
    }
}

// One more model.
fn look_at(alloc: Global, text: &str, seen: Seen) -> Mem<Seen> {
    match read_model(alloc, text.as_bytes()) {
        Ok(checked) => {
            let found = follow_runs(alloc, &checked, &limits(), seen);
            drop(checked);
            found
        }
        Err(Refused::For(_)) => Ok(Seen {
            faulty: seen.faulty.saturating_add(1),
            ..seen
        }),
        Err(Refused::NoMemory) => Err(AllocError),
    }
}

fn look_at_all(alloc: Global) -> Mem<Seen> {
    let mut chance = Chance { state: 1 };
    let mut seen = Seen {
        unbroken: 0,
        right: 0,
        wrong: 0,
        faulty: 0,
    };
    for _ in 0..MODELS {
        let text = model_text(alloc, &mut chance)?;
        seen = look_at(alloc, text.as_str(), seen)?;
    }
    Ok(seen)
}

fn tell_all(rt: HostRuntime) -> io::Result<()> {
    let seen = look_at_all(rt.alloc())?;
    let (unbroken, right) = (seen.unbroken, seen.right);
    let (wrong, faulty) = (seen.wrong, seen.faulty);
    println!(&rt; "{unbroken} models are not broken within two actions, {faulty} have a fault")?;
    println!(&rt; "{right} are: the shown run does what it is said to do; {wrong} differ")
}

fn main(rt: HostRuntime) -> ExitCode {
    match tell_all(rt) {
        Ok(()) => ExitCode::SUCCESS,
        Err(_) => {
            let _ = eprintln!(&rt; "the memory or the output fails");
            ExitCode::FAILURE
        }
    }
}
