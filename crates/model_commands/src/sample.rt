// `sample N`: a model of size N is made and checked.
ghost use Rattle.std.specs.Prelude.{◌≡◌, ◌≤◌, ◌++◌, length, IfOk, OnOk};
ghost use Rattle.rml_report.specs.ReportText.{verdict_text};
ghost use Rattle.rml_sample.specs.Sample.{sample_text};
ghost use Rattle.model_commands.specs.Sample.{IsSampled, IsSampleAnswer, count_line, sampled_text, sample_due};
ghost use Rattle.command_parts.specs.Faults.{model_fault_due};
ghost use Rattle.command_parts.specs.ModelTexts.{IsTheModel};

use crate::check::{report_on, verdict_status};
use base::{Mem, Refused, push_number, push_text};
use command_line::default_asked;
use command_parts::{read_model, say_model_fault, shown};
use commands::{Command, Said};
use goal_number::goal_count;
use lean_decide::Counted;
use progress::Progress;
use rml_command::Checked;
use rml_lex::Fault;
use rml_report::{Report, Verdict};
use rml_sample::sample_text;
use std::alloc::{AllocError, Global};

/// The command, with the size.
#[derive(Drop)]
pub struct Sample {
    pub number: u64,
    ghost small: { number ≤ 40 },
}

/// What is found.
#[derive(Drop)]
pub struct Sampled {
    pub bytes: u64,
    pub goals: u64,
    pub report: Report,
}

/// What the command answers.
#[derive(Drop)]
pub enum SampleAnswer {
    Sampled(Sampled),
    /// What is wrong with the text.
    Fault(Fault),
}

// The report on the model of the text.
fn judge_text<P: Progress>(
    alloc: Global,
    number: u64,
    text: &[u8],
    progress: &mut P,
) -> Mem<SampleAnswer>
    requires { text.now ≡ sample_text number }
    ensures { IfOk result (IsSampleAnswer number) }
{
    let bytes = text.len() as u64;
    match read_model(alloc, text) {
        Ok(model) => {
            let sampled = measured(alloc, number, &model, bytes, progress);
            drop(model);
            Ok(SampleAnswer::Sampled(sampled?))
        }
        Err(Refused::For(fault)) => Ok(SampleAnswer::Fault(fault)),
        Err(Refused::NoMemory) => Err(AllocError),
    }
}

// The report on the model, and its numbers.
fn measured<P: Progress>(
    alloc: Global,
    number: u64,
    model: &Checked,
    bytes: u64,
    progress: &mut P,
) -> Mem<Sampled>
    requires model { IsTheModel (sample_text number) model.now }
    requires bytes { bytes ≡ length (sample_text number) }
    ensures { IfOk result (IsSampled number) }
{
    let report = report_on(alloc, model, default_asked(), Counted::Whole, progress)?;
    let goals = goal_count(model);
    Ok(Sampled {
        bytes,
        goals,
        report,
    })
}

fn judge_sample<P: Progress>(alloc: Global, number: u64, progress: &mut P) -> Mem<SampleAnswer>
    requires { number ≤ 40 }
    ensures { IfOk result (IsSampleAnswer number) }
{
    let text = sample_text(alloc, number)?;
    judge_text(alloc, number, &text, progress)
}

#[tactic(auto, using(std::proofs::Common::append_assoc), unfolding(crate::specs::Sample::count_line))]
fn push_count(out: &mut Vec<u8>, word: &str, n: u64) -> Mem<()>
    ensures { OnOk result (out.new.items ≡ out.old.items ++ count_line word.now n) }
{
    push_text(out, word)?;
    push_number(out, n)?;
    push_text(out, "\n")?;
    Ok(())
}

fn verdict_line(verdict: Verdict) -> &'static str
    ensures { result.now ≡ verdict_text verdict }
{
    match verdict {
        Verdict::Inductive => "verdict: inductive\n",
        Verdict::NotInductive => "verdict: not inductive\n",
        Verdict::Undecided => "verdict: undecided\n",
    }
}

// The numbers and the verdict.
#[tactic(auto, using(std::proofs::Common::append_assoc), unfolding(crate::specs::Sample::sampled_text))]
fn sampled_lines(alloc: Global, number: u64, sampled: &Sampled) -> Mem<Vec<u8>>
    ensures { IfOk result (λ text. text.items ≡ sampled_text number sampled.now) }
{
    let mut out = Vec::new(alloc);
    push_count(&mut out, "sample ", number)?;
    push_count(&mut out, "bytes ", sampled.bytes)?;
    push_count(&mut out, "groups ", sampled.report.groups.len() as u64)?;
    push_count(&mut out, "goals ", sampled.goals)?;
    push_text(&mut out, verdict_line(sampled.report.verdict))?;
    Ok(out)
}

// What is due for a fault of the text.
fn say_fault(alloc: Global, number: u64, fault: &Fault) -> Mem<Said>
    requires small { number ≤ 40 }
    requires place { fault.now.at ≤ length (sample_text number) }
    ensures { IfOk result (λ s. s ≡ model_fault_due (sample_text number) fault.now) }
{
    let text = sample_text(alloc, number)?;
    say_model_fault(alloc, &text, fault)
}

impl Command for Sample {
    type Answer = SampleAnswer;

    ghost is_answer = { λ c first second a. IsSampleAnswer c.number a };

    ghost due = { λ c first second a. sample_due c.number a };

    fn judge<P: Progress>(
        &self,
        alloc: Global,
        first: &[u8],
        second: &[u8],
        progress: &mut P,
    ) -> Mem<SampleAnswer> {
        judge_sample(alloc, self.number, progress)
    }

    fn say(&self, alloc: Global, first: &[u8], second: &[u8], answer: &SampleAnswer) -> Mem<Said> {
        match answer {
            SampleAnswer::Sampled(sampled) => {
                let text = sampled_lines(alloc, self.number, sampled)?;
                Ok(shown(text, verdict_status(sampled.report.verdict)))
            }
            SampleAnswer::Fault(fault) => say_fault(alloc, self.number, fault),
        }
    }
}
