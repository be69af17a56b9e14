// `replay MODEL REPORT`: whether a printed report is right.
ghost use Rattle.std.specs.Prelude.{◌≡◌, IfOk};
ghost use Rattle.replay_command.specs.Replay.{IsReplayAnswer};
ghost use Rattle.view_run.specs.Replay.{line_view, confirmed_view, judged_text, judged_status, unread_view};
ghost use Rattle.view_run.specs.Replay.{replay_view};

use crate::faults::{line_of, say_fault};
use crate::showing::Showing;
use base::Mem;
use command_parts::{complaint, shown};
use commands::Said;
use json_outcome::{judged_object, unread_object};
use replay_command::ReplayAnswer;
use report_replay::Judged;
use std::alloc::Global;
use told_fault::Reading;
use told_text::Text;
use view_line::Form;

// A line of the report that is not as it says: the file, the line, the code and its words.
#[tactic(auto, using(std::proofs::Common::append_assoc), unfolding(crate::specs::Replay::line_view))]
fn line_view(alloc: Global, file: &str, line: u64, number: u8, words: &str) -> Mem<Vec<u8>>
    ensures { IfOk result (λ out. out.items ≡ line_view file.now line number words.now) }
{
    let mut out = Text::new(alloc);
    out.push_str(file);
    out.push_str(":");
    out.push_number(line);
    out.push_str(": P");
    out.push_number(number as u64);
    out.push_str(" ");
    out.push_str(words);
    out.push_str("\n");
    let text = out.into_bytes()?;
    Ok(text)
}

#[tactic(auto, using(std::proofs::Common::append_assoc), unfolding(crate::specs::Replay::confirmed_view))]
fn confirmed_view(alloc: Global, executions: u64) -> Mem<Vec<u8>>
    ensures { IfOk result (λ out. out.items ≡ confirmed_view executions) }
{
    let mut out = Text::new(alloc);
    out.push_str("confirmed; executions that were followed: ");
    out.push_number(executions);
    out.push_str("\n");
    let text = out.into_bytes()?;
    Ok(text)
}

// What is found of a report.
fn judged_text(alloc: Global, showing: Showing, report: &str, judged: Judged) -> Mem<Vec<u8>>
    ensures { IfOk result (λ out. out.items ≡ judged_text showing.entry.form showing.entry.file.now report.now judged) }
{
    match showing.form {
        Form::Told | Form::Dot => match judged {
            Judged::Confirmed { executions } => confirmed_view(alloc, executions),
            Judged::Denied { line, code } => {
                line_view(alloc, report, line, code.number(), code.text())
            }
        },
        Form::Json => {
            let object = judged_object(alloc, judged)?;
            line_of(alloc, showing.file, object)
        }
    }
}

fn judged_status(judged: Judged) -> u8
    ensures { result ≡ judged_status judged }
{
    match judged {
        Judged::Confirmed { .. } => 0,
        Judged::Denied { .. } => 1,
    }
}

// A text that is no report.
fn say_unread(alloc: Global, showing: Showing, report: &str, line: u64) -> Mem<Said>
    ensures { IfOk result (λ s. s ≡ unread_view showing.entry.form showing.entry.file.now report.now line) }
{
    match showing.form {
        Form::Told | Form::Dot => {
            let text = line_view(alloc, report, line, 1, "unexpected line")?;
            Ok(complaint(text, 4))
        }
        Form::Json => {
            let object = unread_object(alloc, line)?;
            let text = line_of(alloc, showing.file, object)?;
            Ok(shown(text, 4))
        }
    }
}

/// What is shown of an answer of `replay`.
pub fn say_replay(
    alloc: Global,
    showing: Showing,
    report: &str,
    text: &[u8],
    other: &[u8],
    reading: &Reading,
    answer: &ReplayAnswer,
) -> Mem<Said>
    requires answer { IsReplayAnswer text.now other.now answer.now }
    ensures { IfOk result (λ s. s
        ≡ replay_view showing.entry.form showing.entry.file.now report.now text.now reading.now answer.now) }
{
    match answer {
        ReplayAnswer::Fault(fault) => say_fault(alloc, showing, "replay", text, fault, reading),
        ReplayAnswer::Unread(unread) => say_unread(alloc, showing, report, unread.line),
        ReplayAnswer::Replayed(judged) => {
            let text = judged_text(alloc, showing, report, *judged)?;
            Ok(shown(text, judged_status(*judged)))
        }
    }
}
