//! Files of inputs, one a line, that are given to a call, and what it answers: for the programs that show what the
//! libraries' public calls answer. How such a program ends stands here, too.
#![tactic(auto)]

use base::Mem;
use std::alloc::Global;
use std::process::ExitCode;
use std::{fs, io};

/// What the inputs of a file are given to.
pub trait Call {
    /// What is answered to an input, on one line. An error is want of memory.
    fn answer(alloc: Global, input: &str) -> Mem<String>;
}

// An input as a line writes it, with `\n` for a line feed.
fn input_of(alloc: Global, line: &str) -> Mem<String> {
    let mut input = String::new(alloc);
    let mut parts = line.split("\\n");
    if let Some(first) = parts.next() {
        input.push_str(first)?;
    }
    for part in parts {
        input.push('\n')?;
        input.push_str(part)?;
    }
    Ok(input)
}

fn line_answer<C: Call>(alloc: Global, line: &str) -> Mem<String> {
    let input = input_of(alloc, line)?;
    C::answer(alloc, input.as_str())
}

/// Prints the file's name, each input behind a `>`, and below it what is answered.
pub fn tell<C: Call>(rt: HostRuntime, alloc: Global, file: &str) -> io::Result<()> {
    let text = fs::read_to_string(&rt, file)?;
    println!(&rt; "{file}")?;
    for line in text.as_str().lines() {
        let answer = line_answer::<C>(alloc, line)?;
        let answer = answer.as_str();
        println!(&rt; "> {line}\n  {answer}")?;
    }
    Ok(())
}

/// The status of a program that told what it had to, or else the line that says so.
pub fn status_of(rt: HostRuntime, told: io::Result<()>) -> ExitCode {
    match told {
        Ok(()) => ExitCode::SUCCESS,
        Err(_) => {
            let _ = eprintln!(&rt; "a file can't be read, or the memory or the output fails");
            ExitCode::FAILURE
        }
    }
}
