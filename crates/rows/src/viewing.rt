// A run of `ivyview` on a row, and what it leaves.
use crate::running::{
    Actual, name_of_bmc, name_of_check, name_of_houdini, name_of_replay, name_of_stop,
    name_of_written,
};
use model_commands::{BmcAnswer, CheckAnswer, HoudiniAnswer};
use progress::Silent;
use replay_command::ReplayAnswer;
use rml_bytes::{Files, LoadError, MemSink};
use row_files::Row;
use std::alloc::Global;
use view_run::{Answer, Ended, ModelAnswer, WhyAnswer, view};

fn name_of_why(answer: &WhyAnswer) -> &'static str {
    match answer {
        WhyAnswer::Reasons { .. } => "reasons",
        WhyAnswer::Fault(_) => "fault",
    }
}

fn name_of_answer(answer: &ModelAnswer) -> &'static str {
    match answer {
        ModelAnswer::Check(answer) => name_of_check(answer),
        ModelAnswer::Houdini(answer) => name_of_houdini(answer),
        ModelAnswer::Bmc(answer) => name_of_bmc(answer),
        ModelAnswer::Why(answer) => name_of_why(answer),
        ModelAnswer::Replay(answer) => name_of_replay(answer),
    }
}

fn name_of(outcome: &Result<Answer, LoadError>) -> &'static str {
    match outcome {
        Ok(Answer::Words) => "words",
        Ok(Answer::Viewed(viewed)) => name_of_answer(&viewed.answer),
        Err(why) => name_of_stop(*why),
    }
}

// Where a fault stands in the model's text; 0 where there is none.
fn fault_place(answer: &ModelAnswer) -> u64 {
    match answer {
        ModelAnswer::Check(CheckAnswer::Fault(fault)) => fault.at,
        ModelAnswer::Houdini(HoudiniAnswer::Fault(fault)) => fault.at,
        ModelAnswer::Bmc(BmcAnswer::Fault(fault)) => fault.at,
        ModelAnswer::Why(WhyAnswer::Fault(fault)) => fault.at,
        ModelAnswer::Replay(ReplayAnswer::Fault(fault)) => fault.at,
        _ => 0,
    }
}

// Whether a fault stands in its text, or at its end.
fn stands_in_text(ended: &Ended) -> bool {
    match &ended.outcome {
        Ok(Answer::Viewed(viewed)) => {
            fault_place(&viewed.answer) <= ended.loaded.first.len() as u64
        }
        _ => true,
    }
}

/// Runs `ivyview` on a row.
pub fn view_between<F: Files>(
    alloc: Global,
    row: &Row,
    files: &mut F,
    out: MemSink,
    err: MemSink,
) -> Actual {
    let (mut out, mut err) = (out, err);
    let ended = view(alloc, &row.words, files, &mut out, &mut err, &mut Silent);
    let written = name_of_written(ended.written);
    let outcome = name_of(&ended.outcome);
    let loads = (ended.loaded.first.len(), ended.loaded.second.len());
    let stands_in_text = stands_in_text(&ended);
    Actual {
        status: ended.into_status(),
        outcome,
        written,
        loads,
        stands_in_text,
        out,
        err,
    }
}
