// `check FILE`: whether the model is inductive.
ghost use Rattle.std.specs.Prelude.{◌≡◌, IfOk};
ghost use Rattle.std.specs.List.{AllByRecursion};
ghost use Rattle.rml_report.specs.Reports.{CanRender};
ghost use Rattle.command_parts.specs.Limits.{ceilings_of};
ghost use Rattle.command_parts.specs.ModelTexts.{IsTheModel};
ghost use Rattle.model_commands.specs.Check.{IsCheckAnswer, verdict_status};
ghost use Rattle.told_fault.specs.Readings.{IsReading};
ghost use Rattle.view_run.specs.Check.{checked_line, checked_text, check_view};

use crate::faults::{line_of, say_fault};
use crate::json_ways::group_ways;
use crate::showing::Showing;
use crate::source::source_of;
use crate::telling::telling_of;
use base::Mem;
use branches::Source;
use command_parts::shown;
use commands::Said;
use dot_graph::report_graphs;
use json_outcome::report_object;
use model_commands::{Check, CheckAnswer, verdict_status};
use rml_command::Checked;
use rml_report::Report;
use std::alloc::Global;
use told_fault::Reading;
use told_report::tell;
use view_line::Form;

// The report as a JSON value.
#[tactic(auto, unfolding(crate::specs::Check::checked_line))]
fn checked_line(
    alloc: Global,
    file: &str,
    source: &Option<Source>,
    model: &Checked,
    report: &Report,
) -> Mem<Vec<u8>>
    requires { AllByRecursion (CanRender model.now) report.now.groups }
    ensures { IfOk result (λ out. out.items ≡ checked_line file.now source.now model.now report.now) }
{
    let branches = group_ways(alloc, source, report.groups.as_slice())?;
    let object = report_object(alloc, model, report, &branches);
    drop(branches);
    line_of(alloc, file, object?)
}

// What is shown of a report; in the text for a person, with what the text of the model tells.
fn checked_text(
    alloc: Global,
    showing: Showing,
    text: &[u8],
    reading: &Reading,
    model: &Checked,
    report: &Report,
) -> Mem<Vec<u8>>
    requires reading { IsReading text.now reading.now }
    requires model { IsTheModel text.now model.now }
    requires can { AllByRecursion (CanRender model.now) report.now.groups }
    ensures { IfOk result (λ out. out.items
        ≡ checked_text showing.entry.form showing.entry.file.now text.now reading.now model.now report.now) }
{
    match showing.form {
        Form::Told => {
            let telling = telling_of(alloc, text, reading, model)?;
            let told = tell(alloc, model, &telling, report);
            drop(telling);
            told
        }
        Form::Dot => report_graphs(alloc, model, report.groups.as_slice()),
        Form::Json => {
            let source = source_of(alloc, text, reading, model);
            checked_line(alloc, showing.file, &source, model, report)
        }
    }
}

/// What is shown of an answer of `check`.
pub fn say_check(
    alloc: Global,
    showing: Showing,
    check: &Check,
    text: &[u8],
    reading: &Reading,
    answer: &CheckAnswer,
) -> Mem<Said>
    requires answer { IsCheckAnswer check.now.counted (ceilings_of check.now.asked) text.now answer.now }
    requires reading { IsReading text.now reading.now }
    ensures { IfOk result (λ s. s
        ≡ check_view showing.entry.form showing.entry.file.now text.now reading.now answer.now) }
{
    rml_report::rendering_law();
    match answer {
        CheckAnswer::Checked { model, report } => {
            let out = checked_text(alloc, showing, text, reading, model, report)?;
            Ok(shown(out, verdict_status(report.verdict)))
        }
        CheckAnswer::Fault(fault) => say_fault(alloc, showing, "check", text, fault, reading),
    }
}
