//! Lines of a file that each end with the name of a model's file: what a call answers to the words in front of it and
//! the model, for the programs that show what the libraries' public calls answer. What a program holds of a model is
//! held here, so that a program proves no more than its call.
#![tactic(auto)]

use base::{Mem, Refused};
use limits::Limits;
use rml_command::Checked;
use rml_front::read_model;
use std::alloc::{AllocError, Global};
use std::{fs, io};

/// What the lines of a file are given to.
pub trait ModelCall {
    /// What is answered to the words of a line and to the model that it names, on lines behind one another that are
    /// indented by two. An error is want of memory.
    fn answer(alloc: Global, words: &str, model: &Checked) -> Mem<String>;
}

/// The limits of `check` where it has no options, but for that of the ground size, which a word gives.
pub fn limits_with(ground: &str) -> Limits {
    let ground_size = ground.parse::<u64>().unwrap_or(2_000_000);
    Limits {
        terms: 400,
        ground_size: ground_size.max(1).min(50_000_000),
        conflicts: 100_000,
    }
}

fn answer_of<C: ModelCall>(alloc: Global, words: &str, text: &[u8]) -> Mem<String> {
    match read_model(alloc, text) {
        Ok(model) => {
            let answer = C::answer(alloc, words, &model);
            drop(model);
            answer
        }
        Err(Refused::For(_)) => String::from_str(alloc, "a fault of the model"),
        Err(Refused::NoMemory) => Err(AllocError),
    }
}

fn tell_line<C: ModelCall>(rt: HostRuntime, alloc: Global, line: &str) -> io::Result<()> {
    let (words, file) = line.rsplit_once(' ').unwrap_or(("", line));
    let text = fs::read(&rt, file)?;
    let answer = answer_of::<C>(alloc, words, &text);
    drop(text);
    let answer = answer?;
    let answer = answer.as_str();
    println!(&rt; "{line}\n  {answer}")
}

/// Prints each line of a file, and below it what is answered.
pub fn tell<C: ModelCall>(rt: HostRuntime, alloc: Global, file: &str) -> io::Result<()> {
    let text = fs::read_to_string(&rt, file)?;
    for line in text.as_str().lines() {
        tell_line::<C>(rt, alloc, line)?;
    }
    Ok(())
}
