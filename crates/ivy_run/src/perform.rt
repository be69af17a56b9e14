// From the words to the answer with its text.
ghost use Rattle.std.specs.Prelude.{◌≡◌, ◌≤◌, ℕ, List, [], Some, None, map, string_bytes};
ghost use Rattle.command_line.specs.Lines.{check, houdini, bmc, lrat, replay, emit, sample, line_of, request_line};
ghost use Rattle.command_line.specs.Asking.{IsInRange, HasRanges};
ghost use Rattle.commands.specs.Ends.{EndsNone};
ghost use Rattle.commands.specs.Done.{due_in, outcome_in};
ghost use Rattle.model_commands.specs.Sample.{IsSampleAnswer};
ghost use Rattle.ivy_run.specs.Run.{Does, IsUsage, OfSample, due_of};

use crate::ended::Answer;
use crate::usage::Usage;
use clause_commands::{Emit, Lrat};
use command_line::{Asked, Bound, Emission, Request, read_words};
use commands::{Done, no_file, one_file, two_files};
use lean_decide::Counted;
use model_commands::{Bmc, Check, Houdini, Sample};
use progress::Silent;
use replay_command::Replay;
use rml_bytes::{Files, LoadError};
use std::alloc::Global;

const MODEL_LIMIT: u64 = 1048576;

// Of a formula, a log and a report.
const LONG_LIMIT: u64 = 268435456;

// `check FILE`.
fn perform_check<F: Files>(
    alloc: Global,
    file: &str,
    asked: Asked,
    files: &mut F,
    first: &mut Vec<u8>,
) -> Result<Done<Answer>, LoadError>
    requires ranges { IsInRange asked }
    requires first { first.old.items ≡ [] }
    ensures same { (n : List ℕ) → F.told files.new n ≡ F.told files.old n }
    ensures due { due_in result ≡ due_of (Some (check file.now asked)) first.new.items [] (outcome_in result) }
    ensures does { Does (Some (check file.now asked)) (F.told files.old) (F.faults files.old) (F.faults files.new)
        first.new.items [] (outcome_in result) }
{
    let counted = Counted::Whole;
    let done = one_file(
        &Check { asked, counted },
        alloc,
        files,
        file,
        MODEL_LIMIT,
        first,
        &mut Silent,
    )?;
    Ok(Done {
        answer: Answer::Check(done.answer),
        said: done.said,
    })
}

// `lrat CNF LOG`.
fn perform_lrat<F: Files>(
    alloc: Global,
    formula: &str,
    log: &str,
    files: &mut F,
    first: &mut Vec<u8>,
    second: &mut Vec<u8>,
) -> Result<Done<Answer>, LoadError>
    requires first { first.old.items ≡ [] }
    requires second { second.old.items ≡ [] }
    ensures same { (n : List ℕ) → F.told files.new n ≡ F.told files.old n }
    ensures due { due_in result ≡ due_of (Some (lrat formula.now log.now)) first.new.items second.new.items
        (outcome_in result) }
    ensures does { Does (Some (lrat formula.now log.now)) (F.told files.old) (F.faults files.old) (F.faults files.new)
        first.new.items second.new.items (outcome_in result) }
{
    let done = two_files(
        &Lrat,
        alloc,
        files,
        formula,
        LONG_LIMIT,
        first,
        log,
        LONG_LIMIT,
        second,
        &mut Silent,
    )?;
    Ok(Done {
        answer: Answer::Lrat(done.answer),
        said: done.said,
    })
}

// `replay MODEL REPORT`.
fn perform_replay<F: Files>(
    alloc: Global,
    model: &str,
    report: &str,
    files: &mut F,
    first: &mut Vec<u8>,
    second: &mut Vec<u8>,
) -> Result<Done<Answer>, LoadError>
    requires first { first.old.items ≡ [] }
    requires second { second.old.items ≡ [] }
    ensures same { (n : List ℕ) → F.told files.new n ≡ F.told files.old n }
    ensures due { due_in result ≡ due_of (Some (replay model.now report.now)) first.new.items second.new.items
        (outcome_in result) }
    ensures does { Does (Some (replay model.now report.now)) (F.told files.old) (F.faults files.old)
        (F.faults files.new) first.new.items second.new.items (outcome_in result) }
{
    let done = two_files(
        &Replay,
        alloc,
        files,
        model,
        MODEL_LIMIT,
        first,
        report,
        LONG_LIMIT,
        second,
        &mut Silent,
    )?;
    Ok(Done {
        answer: Answer::Replay(done.answer),
        said: done.said,
    })
}

// `emit FILE GOAL WHAT`.
fn perform_emit<F: Files>(
    alloc: Global,
    file: &str,
    emission: Emission,
    files: &mut F,
    first: &mut Vec<u8>,
) -> Result<Done<Answer>, LoadError>
    requires goal { 1 ≤ emission.goal }
    requires ranges { IsInRange emission.limits }
    requires first { first.old.items ≡ [] }
    ensures same { (n : List ℕ) → F.told files.new n ≡ F.told files.old n }
    ensures due { due_in result ≡ due_of (Some (emit file.now emission)) first.new.items [] (outcome_in result) }
    ensures does { Does (Some (emit file.now emission)) (F.told files.old) (F.faults files.old) (F.faults files.new)
        first.new.items [] (outcome_in result) }
{
    let done = one_file(
        &Emit { emission },
        alloc,
        files,
        file,
        MODEL_LIMIT,
        first,
        &mut Silent,
    )?;
    Ok(Done {
        answer: Answer::Emit(done.answer),
        said: done.said,
    })
}

// `houdini FILE`.
fn perform_houdini<F: Files>(
    alloc: Global,
    file: &str,
    asked: Asked,
    files: &mut F,
    first: &mut Vec<u8>,
) -> Result<Done<Answer>, LoadError>
    requires ranges { IsInRange asked }
    requires first { first.old.items ≡ [] }
    ensures same { (n : List ℕ) → F.told files.new n ≡ F.told files.old n }
    ensures due { due_in result ≡ due_of (Some (houdini file.now asked)) first.new.items [] (outcome_in result) }
    ensures does { Does (Some (houdini file.now asked)) (F.told files.old) (F.faults files.old) (F.faults files.new)
        first.new.items [] (outcome_in result) }
{
    let counted = Counted::Whole;
    let done = one_file(
        &Houdini { asked, counted },
        alloc,
        files,
        file,
        MODEL_LIMIT,
        first,
        &mut Silent,
    )?;
    Ok(Done {
        answer: Answer::Houdini(done.answer),
        said: done.said,
    })
}

// `bmc FILE --steps K`.
fn perform_bmc<F: Files>(
    alloc: Global,
    file: &str,
    bound: Bound,
    files: &mut F,
    first: &mut Vec<u8>,
) -> Result<Done<Answer>, LoadError>
    requires steps { bound.steps ≤ 12 }
    requires ranges { IsInRange bound.limits }
    requires first { first.old.items ≡ [] }
    ensures same { (n : List ℕ) → F.told files.new n ≡ F.told files.old n }
    ensures due { due_in result ≡ due_of (Some (bmc file.now bound)) first.new.items [] (outcome_in result) }
    ensures does { Does (Some (bmc file.now bound)) (F.told files.old) (F.faults files.old) (F.faults files.new)
        first.new.items [] (outcome_in result) }
{
    let counted = Counted::Whole;
    let done = one_file(
        &Bmc { bound, counted },
        alloc,
        files,
        file,
        MODEL_LIMIT,
        first,
        &mut Silent,
    )?;
    Ok(Done {
        answer: Answer::Bmc(done.answer),
        said: done.said,
    })
}

// `sample N`.
fn perform_sample(alloc: Global, number: u64) -> Result<Done<Answer>, LoadError>
    requires { number ≤ 40 }
    ensures due { due_in result ≡ due_of (Some (sample number)) [] [] (outcome_in result) }
    ensures ends { EndsNone 0 0 [] [] (λ text other a. OfSample (IsSampleAnswer number) a) (outcome_in result) }
{
    let done = no_file(&Sample { number }, alloc, &mut Silent)?;
    Ok(Done {
        answer: Answer::Sample(done.answer),
        said: done.said,
    })
}

// Does what a command line asks for.
fn perform<F: Files>(
    alloc: Global,
    request: Request,
    files: &mut F,
    first: &mut Vec<u8>,
    second: &mut Vec<u8>,
) -> Result<Done<Answer>, LoadError>
    requires ranges { HasRanges request }
    requires first { first.old.items ≡ [] }
    requires second { second.old.items ≡ [] }
    ensures same { (n : List ℕ) → F.told files.new n ≡ F.told files.old n }
    ensures due { due_in result ≡ due_of (Some (request_line request.entry)) first.new.items second.new.items
        (outcome_in result) }
    ensures does { Does (Some (request_line request.entry)) (F.told files.old) (F.faults files.old) (F.faults files.new)
        first.new.items second.new.items (outcome_in result) }
{
    match request {
        Request::Check(file, asked) => perform_check(alloc, file, asked, files, first),
        Request::Houdini(file, asked) => perform_houdini(alloc, file, asked, files, first),
        Request::Bmc(file, bound) => perform_bmc(alloc, file, bound, files, first),
        Request::Lrat(formula, log) => perform_lrat(alloc, formula, log, files, first, second),
        Request::Replay(model, report) => perform_replay(
            alloc, model, report, files, first, second,
        ),
        Request::Emit(file, emission) => perform_emit(alloc, file, emission, files, first),
        Request::Sample(number) => perform_sample(alloc, number),
    }
}

// Words that are no command line.
fn usage(alloc: Global) -> Result<Done<Answer>, LoadError>
    ensures due { due_in result ≡ due_of None [] [] (outcome_in result) }
    ensures ends { EndsNone 0 0 [] [] (λ text other a. IsUsage a) (outcome_in result) }
{
    let done = no_file(&Usage, alloc, &mut Silent)?;
    Ok(Done {
        answer: Answer::Usage,
        said: done.said,
    })
}

/// Reads the words, and does what they ask for.
pub fn work<F: Files>(
    alloc: Global,
    words: &[String],
    files: &mut F,
    first: &mut Vec<u8>,
    second: &mut Vec<u8>,
) -> Result<Done<Answer>, LoadError>
    requires first { first.old.items ≡ [] }
    requires second { second.old.items ≡ [] }
    ensures same { (n : List ℕ) → F.told files.new n ≡ F.told files.old n }
    ensures due { due_in result ≡ due_of (line_of (map (λ w. string_bytes w) words.now)) first.new.items
        second.new.items (outcome_in result) }
    ensures does { Does (line_of (map (λ w. string_bytes w) words.now)) (F.told files.old) (F.faults files.old)
        (F.faults files.new)
        first.new.items second.new.items (outcome_in result) }
{
    match read_words(alloc, words) {
        Err(_) => Err(LoadError::NoMemory),
        Ok(None) => usage(alloc),
        Ok(Some(request)) => perform(alloc, request, files, first, second),
    }
}
