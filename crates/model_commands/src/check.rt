// `check FILE`: whether the model of the file is inductive.
ghost use Rattle.std.specs.Prelude.{◌≡◌, IfOk};
ghost use Rattle.command_line.specs.Asking.{IsInRange};
ghost use Rattle.command_parts.specs.Limits.{ceilings_of};
ghost use Rattle.model_commands.specs.Check.{IsCheckAnswer, IsCheckedModel, check_due, verdict_status};
ghost use Rattle.command_parts.specs.ModelTexts.{IsTheModel};

use base::{Mem, Refused};
use command_line::Asked;
use command_parts::{limits_of, read_model, say_model_fault, shown};
use commands::{Command, Said};
use lean_decide::Counted;
use progress::Progress;
use rml_command::Checked;
use rml_lex::Fault;
use rml_report::{Report, Verdict, render};
use std::alloc::{AllocError, Global};
use verdicts::report;

/// The command, with what it may spend on each goal and on the axioms, and on which counts.
#[derive(Drop)]
pub struct Check {
    pub asked: Asked,
    pub counted: Counted,
    ghost in_range: { IsInRange asked },
}

/// What it answers.
#[derive(Drop)]
pub enum CheckAnswer {
    /// The file's model, and what is known of its goals.
    Checked { model: Checked, report: Report },
    /// What is wrong with the text.
    Fault(Fault),
}

/// The report on a model.
pub fn report_on<P: Progress>(
    alloc: Global,
    model: &Checked,
    asked: Asked,
    counted: Counted,
    progress: &mut P,
) -> Mem<Report>
    requires { IsInRange asked }
    ensures { IfOk result (IsCheckedModel counted (ceilings_of asked) model.now) }
{
    verdicts::report_law();
    rml_report::report_law();
    // That the model is in the fragment is known where it is looked at.
    let _model = model.model();
    let limits = limits_of(asked);
    let report = report(alloc, model, counted, &limits, progress)?;
    Ok(report)
}

// The answer to the text of a model.
fn judge_model<P: Progress>(
    alloc: Global,
    text: &[u8],
    asked: Asked,
    counted: Counted,
    progress: &mut P,
) -> Mem<CheckAnswer>
    requires { IsInRange asked }
    ensures { IfOk result (IsCheckAnswer counted (ceilings_of asked) text.now) }
{
    match read_model(alloc, text) {
        Ok(model) => {
            match report_on(alloc, &model, asked, counted, progress) {
                Ok(report) => Ok(CheckAnswer::Checked { model, report }),
                Err(wanting) => {
                    drop(model);
                    Err(wanting)
                }
            }
        }
        Err(Refused::For(fault)) => Ok(CheckAnswer::Fault(fault)),
        Err(Refused::NoMemory) => Err(AllocError),
    }
}

/// The status that goes with a verdict.
pub fn verdict_status(verdict: Verdict) -> u8
    ensures { result ≡ verdict_status verdict }
{
    match verdict {
        Verdict::Inductive => 0,
        Verdict::NotInductive => 1,
        Verdict::Undecided => 3,
    }
}

impl Command for Check {
    type Answer = CheckAnswer;

    ghost is_answer = { λ c first second a. IsCheckAnswer c.counted (ceilings_of c.asked) first a };

    ghost due = { λ c first second a. check_due first a };

    fn judge<P: Progress>(
        &self,
        alloc: Global,
        first: &[u8],
        second: &[u8],
        progress: &mut P,
    ) -> Mem<CheckAnswer> {
        judge_model(alloc, first, self.asked, self.counted, progress)
    }

    fn say(&self, alloc: Global, first: &[u8], second: &[u8], answer: &CheckAnswer) -> Mem<Said> {
        rml_report::rendering_law();
        match answer {
            CheckAnswer::Checked { model, report } => {
                let text = render(alloc, model, report)?;
                Ok(shown(text, verdict_status(report.verdict)))
            }
            CheckAnswer::Fault(fault) => say_model_fault(alloc, first, fault),
        }
    }
}
