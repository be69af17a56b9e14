// A run of the whole program on a row, and what it leaves.
ghost use Rattle.std.specs.Prelude.{IsTrue, All, ◌≢◌};
ghost use Rattle.rml_bytes.specs.Memory.{NamesDiffer, IncreaseAbove, firsts};

use crate::viewing::view_between;
use base::{Mem, Refused};
use clause_commands::{EmitAnswer, Emitted, LratAnswer};
use commands::Written;
use ivy_run::{Answer, Ended, run};
use model_commands::{BmcAnswer, CheckAnswer, HoudiniAnswer};
use replay_command::ReplayAnswer;
use rml_bytes::{Bytes, DiskFiles, FileName, Files, LoadError, MemFiles, MemSink};
use row_files::{Parsed, Row, Stream, Text};
use std::alloc::Global;

/// What a run leaves, in the words of a file of rows, and on the two sinks.
#[derive(Drop)]
pub struct Actual {
    pub status: u8,
    pub outcome: &'static str,
    pub written: &'static str,
    pub loads: (usize, usize),
    /// Where the answer is a fault: it stands in its text, or at its end.
    pub stands_in_text: bool,
    pub out: MemSink,
    pub err: MemSink,
}

/// Which program a row is for.
#[derive(Clone, Copy, Debug, PartialEq, Eq)]
pub enum Program {
    IvyCheck,
    IvyView,
}

/// A front of a file that takes the file's place.
#[derive(Clone, Copy)]
pub struct Cut<'a> {
    pub file: &'a str,
    pub end: usize,
}

fn increase(numbers: &[u64]) -> bool
    ensures { IsTrue result → IncreaseAbove 0 numbers.now }
{
    let mut last = 0;
    let mut rest = numbers;
    while let [first, after @ ..] = rest {
        if *first <= last {
            return false;
        }
        last = *first;
        rest = after;
    }
    true
}

fn firsts_increase(faults: &[(u64, u64)]) -> bool
    ensures { IsTrue result → IncreaseAbove 0 (firsts faults.now) }
{
    let mut last = 0;
    let mut rest = faults;
    while let [first, after @ ..] = rest {
        if first.0 <= last {
            return false;
        }
        last = first.0;
        rest = after;
    }
    true
}

fn is_new(name: &FileName, files: &[(FileName, Bytes)]) -> bool
    ensures { IsTrue result → All (λ file. name.now ≢ file.0) files.now }
{
    files
        .iter()
        .all(|file| file.0.as_slice() != name.as_slice())
}

#[tactic(auto, using(crate::proofs::Names::names_differ_step))]
fn names_differ(files: &[(FileName, Bytes)]) -> bool
    ensures { IsTrue result → NamesDiffer files.now }
{
    let mut rest = files;
    while let Some((file, after)) = rest.split_first() {
        if !is_new(&file.0, after) {
            return false;
        }
        rest = after;
    }
    true
}

// The bytes of a file, or the front of them that takes their place.
fn bytes_of<'a>(file: &'a Text, cut: Option<Cut>) -> &'a [u8] {
    let bytes = file.bytes.as_slice();
    match cut {
        Some(cut) if file.name.as_str() == cut.file => bytes.get(..cut.end).unwrap_or(bytes),
        _ => bytes,
    }
}

// Puts the files of a row behind the others.
fn put_files(
    alloc: Global,
    row: &Row,
    cut: Option<Cut>,
    files: &mut Vec<(FileName, Bytes)>,
) -> Mem<()> {
    for file in &row.files {
        let bytes = bytes_of(file, cut).to_vec(alloc)?;
        let name = FileName::from_slice(alloc, file.name.as_bytes())?;
        files.push((name, Bytes::from_vec(bytes)))?;
    }
    Ok(())
}

// The files of a row in memory.
fn files_of(alloc: Global, row: &Row, cut: Option<Cut>) -> Parsed<MemFiles> {
    let failing = row.failing.as_slice().to_vec(alloc)?;
    if !increase(&failing) {
        return Err(Refused::For("the numbers of failing loads increase from 1"));
    }
    let mut files = Vec::new(alloc);
    let put = put_files(alloc, row, cut, &mut files);
    if put.is_ok() && names_differ(&files) {
        return Ok(MemFiles::new(files, failing));
    }
    drop(files);
    put?;
    Err(Refused::For("two files have one name"))
}

fn sink_of(alloc: Global, stream: &Stream) -> Parsed<MemSink> {
    let failing = stream.failing.as_slice().to_vec(alloc)?;
    if !firsts_increase(&failing) {
        return Err(Refused::For("the numbers of failing puts increase from 1"));
    }
    Ok(MemSink::new(alloc, stream.room, failing)?)
}

/// The names of answers.
pub fn name_of_check(answer: &CheckAnswer) -> &'static str {
    match answer {
        CheckAnswer::Checked { .. } => "checked",
        CheckAnswer::Fault(_) => "fault",
    }
}

fn name_of_lrat(answer: &LratAnswer) -> &'static str {
    match answer {
        LratAnswer::Refuted => "refuted",
        LratAnswer::NotRefuted => "not refuted",
        LratAnswer::CnfFault(_) => "formula fault",
        LratAnswer::LogFault(_) => "log fault",
        LratAnswer::Refused(_) => "refused",
    }
}

fn name_of_emit(answer: &EmitAnswer) -> &'static str {
    match answer {
        EmitAnswer::Emitted(Emitted::Clauses(_)) => "clauses",
        EmitAnswer::Emitted(Emitted::Refutation(_, _)) => "refutation",
        EmitAnswer::Emitted(Emitted::Fails) => "fails",
        EmitAnswer::Emitted(Emitted::Undecided(_)) => "undecided",
        EmitAnswer::Emitted(Emitted::NoGoal(_)) => "no goal",
        EmitAnswer::Fault(_) => "fault",
    }
}

pub fn name_of_houdini(answer: &HoudiniAnswer) -> &'static str {
    match answer {
        HoudiniAnswer::Found { .. } => "found",
        HoudiniAnswer::Fault(_) => "fault",
    }
}

pub fn name_of_bmc(answer: &BmcAnswer) -> &'static str {
    match answer {
        BmcAnswer::Answered { .. } => "bounded",
        BmcAnswer::Fault(_) => "fault",
    }
}

pub fn name_of_replay(answer: &ReplayAnswer) -> &'static str {
    match answer {
        ReplayAnswer::Replayed(_) => "replayed",
        ReplayAnswer::Unread(_) => "unread",
        ReplayAnswer::Fault(_) => "fault",
    }
}

fn name_of(outcome: &Result<Answer, LoadError>) -> &'static str {
    match outcome {
        Ok(Answer::Usage) => "usage",
        Ok(Answer::Check(answer)) => name_of_check(answer),
        Ok(Answer::Lrat(answer)) => name_of_lrat(answer),
        Ok(Answer::Emit(answer)) => name_of_emit(answer),
        Ok(Answer::Houdini(answer)) => name_of_houdini(answer),
        Ok(Answer::Bmc(answer)) => name_of_bmc(answer),
        Ok(Answer::Replay(answer)) => name_of_replay(answer),
        Ok(Answer::Sample(_)) => "sampled",
        Err(why) => name_of_stop(*why),
    }
}

/// What became of the text.
pub fn name_of_written(written: Written) -> &'static str {
    match written {
        Written::All => "all",
        Written::Failed => "failed",
    }
}

/// Why there is no answer.
pub fn name_of_stop(why: LoadError) -> &'static str {
    match why {
        LoadError::TooLong => "too long",
        LoadError::Failed => "read fault",
        LoadError::NoMemory => "no memory",
    }
}

fn stands_in_text(ended: &Ended) -> bool {
    let first = ended.loaded.first.len() as u64;
    match &ended.outcome {
        Ok(Answer::Check(CheckAnswer::Fault(fault))) => fault.at <= first,
        Ok(Answer::Emit(EmitAnswer::Fault(fault))) => fault.at <= first,
        Ok(Answer::Houdini(HoudiniAnswer::Fault(fault))) => fault.at <= first,
        Ok(Answer::Bmc(BmcAnswer::Fault(fault))) => fault.at <= first,
        Ok(Answer::Replay(ReplayAnswer::Fault(fault))) => fault.at <= first,
        Ok(Answer::Lrat(LratAnswer::CnfFault(fault))) => fault.at <= first,
        Ok(Answer::Lrat(LratAnswer::LogFault(fault))) => {
            fault.at <= ended.loaded.second.len() as u64
        }
        _ => true,
    }
}

fn run_between<F: Files>(
    alloc: Global,
    row: &Row,
    files: &mut F,
    out: MemSink,
    err: MemSink,
) -> Actual {
    let (mut out, mut err) = (out, err);
    let ended = run(alloc, &row.words, files, &mut out, &mut err);
    let written = name_of_written(ended.written);
    let outcome = name_of(&ended.outcome);
    let loads = (ended.loaded.first.len(), ended.loaded.second.len());
    let stands_in_text = stands_in_text(&ended);
    Actual {
        status: ended.into_status(),
        outcome,
        written,
        loads,
        stands_in_text,
        out,
        err,
    }
}

fn run_over<F: Files>(alloc: Global, program: Program, row: &Row, files: &mut F) -> Parsed<Actual> {
    let out = sink_of(alloc, &row.out)?;
    match sink_of(alloc, &row.err) {
        Ok(err) => Ok(match program {
            Program::IvyCheck => run_between(alloc, row, files, out, err),
            Program::IvyView => view_between(alloc, row, files, out, err),
        }),
        Err(cause) => {
            drop(out);
            Err(cause)
        }
    }
}

/// Runs the program on a row, with a front of one of its files in the place of this file.
pub fn run_on_memory(
    alloc: Global,
    program: Program,
    row: &Row,
    cut: Option<Cut>,
) -> Parsed<Actual> {
    let mut files = files_of(alloc, row, cut)?;
    let actual = run_over(alloc, program, row, &mut files);
    drop(files);
    actual
}

/// Runs the program on the files of the folder.
pub fn run_on_disk(
    alloc: Global,
    system: HostRuntime,
    program: Program,
    row: &Row,
) -> Parsed<Actual> {
    let mut files = DiskFiles::new(system);
    run_over(alloc, program, row, &mut files)
}
