// `replay MODEL REPORT`: whether a printed report of the model is right.
ghost use Rattle.std.specs.Prelude.{◌≡◌, ◌≤◌, length, IfOk};
ghost use Rattle.printed_report.specs.PrintedReports.{IsPrintedReport, IsRead};
ghost use Rattle.printed_report.specs.declared.printed.Printed.{Printed};
ghost use Rattle.command_parts.specs.ModelTexts.{IsTheModel};
ghost use Rattle.replay_command.specs.Replay.{IsReplayAnswer, IsFound, IsReplay, denial_line, confirmed_text};
ghost use Rattle.replay_command.specs.Replay.{judged_due, replay_due};

use base::{Mem, Refused, push_number, push_text};
use command_parts::{complaint, read_model, say_model_fault, shown};
use commands::{Command, Said};
use printed_report::{Printed, Unread};
use progress::Progress;
use report_read::read_report;
use report_replay::{Judged, judge, judgement_law};
use rml_command::Checked;
use rml_lex::Fault;
use std::alloc::{AllocError, Global};

/// The command.
#[derive(Drop)]
pub struct Replay;

/// What it answers.
#[derive(Clone, Copy)]
pub enum ReplayAnswer {
    /// What is wrong with the text of the model.
    Fault(Fault),
    /// The text is no printed report of the model: the first line that none has there.
    Unread(Unread),
    /// It is one, and this is found of it.
    Replayed(Judged),
}

// What is found of a printed report.
fn judge_printed(alloc: Global, model: &Checked, text: &[u8], printed: &Printed) -> Mem<Judged>
    requires read { IsRead model.now printed.now }
    requires report { IsPrintedReport model.now text.now printed.now }
    requires only { (p : Printed) → IsPrintedReport model.now text.now p → printed.now ≡ p }
    ensures { IfOk result (IsReplay model.now text.now) }
{
    judgement_law();
    judge(alloc, model, printed)
}

// The answer to the text of a report of the model.
fn judge_report(alloc: Global, model: &Checked, text: &[u8]) -> Mem<ReplayAnswer>
    ensures { IfOk result (IsFound model.now text.now) }
{
    match read_report(alloc, model, text) {
        Ok(printed) => {
            let judged = judge_printed(alloc, model, text, &printed);
            drop(printed);
            let judged = judged?;
            Ok(ReplayAnswer::Replayed(judged))
        }
        Err(Refused::For(unread)) => Ok(ReplayAnswer::Unread(unread)),
        Err(Refused::NoMemory) => Err(AllocError),
    }
}

// The answer to the texts of a model and of a report.
fn judge_texts(alloc: Global, text: &[u8], report: &[u8]) -> Mem<ReplayAnswer>
    ensures { IfOk result (IsReplayAnswer text.now report.now) }
{
    match read_model(alloc, text) {
        Ok(model) => {
            let answer = judge_report(alloc, &model, report);
            drop(model);
            answer
        }
        Err(Refused::For(fault)) => Ok(ReplayAnswer::Fault(fault)),
        Err(Refused::NoMemory) => Err(AllocError),
    }
}

// The line of a denial: its number, the line, and what it is.
#[tactic(auto, using(std::proofs::Common::append_assoc), unfolding(crate::specs::Replay::denial_line))]
fn denial_line(alloc: Global, number: u8, line: u64, text: &str) -> Mem<Vec<u8>>
    ensures { IfOk result (λ out. out.items ≡ denial_line number line text.now) }
{
    let mut out = Vec::new(alloc);
    push_text(&mut out, "P")?;
    push_number(&mut out, number as u64)?;
    push_text(&mut out, " at line ")?;
    push_number(&mut out, line)?;
    push_text(&mut out, ": ")?;
    push_text(&mut out, text)?;
    push_text(&mut out, "\n")?;
    Ok(out)
}

#[tactic(auto, using(std::proofs::Common::append_assoc), unfolding(crate::specs::Replay::confirmed_text))]
fn confirmed_text(alloc: Global, executions: u64) -> Mem<Vec<u8>>
    ensures { IfOk result (λ out. out.items ≡ confirmed_text executions) }
{
    let mut out = Vec::new(alloc);
    push_text(&mut out, "executions ")?;
    push_number(&mut out, executions)?;
    push_text(&mut out, "\nverdict: confirmed\n")?;
    Ok(out)
}

// What is due for a judgement.
fn say_judged(alloc: Global, judged: Judged) -> Mem<Said>
    ensures { IfOk result (λ s. s ≡ judged_due judged) }
{
    match judged {
        Judged::Confirmed { executions } => Ok(shown(confirmed_text(alloc, executions)?, 0)),
        Judged::Denied { line, code } => {
            let text = denial_line(alloc, code.number(), line, code.text())?;
            Ok(shown(text, 1))
        }
    }
}

impl Command for Replay {
    type Answer = ReplayAnswer;

    ghost is_answer = { λ c first second a. IsReplayAnswer first second a };

    ghost due = { λ c first second a. replay_due first a };

    fn judge<P: Progress>(
        &self,
        alloc: Global,
        first: &[u8],
        second: &[u8],
        progress: &mut P,
    ) -> Mem<ReplayAnswer> {
        judge_texts(alloc, first, second)
    }

    fn say(&self, alloc: Global, first: &[u8], second: &[u8], answer: &ReplayAnswer) -> Mem<Said> {
        match answer {
            ReplayAnswer::Fault(fault) => say_model_fault(alloc, first, fault),
            ReplayAnswer::Unread(unread) => {
                let line = denial_line(alloc, 1, unread.line, "unexpected line")?;
                Ok(complaint(line, 4))
            }
            ReplayAnswer::Replayed(judged) => say_judged(alloc, *judged),
        }
    }
}
