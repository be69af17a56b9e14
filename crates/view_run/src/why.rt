// `why FILE`: which conjectures carry which group of goals.
ghost use Rattle.std.specs.Prelude.{◌≡◌, IfOk};
ghost use Rattle.std.specs.List.{AllByRecursion, list_any};
ghost use Rattle.command_line.specs.Asking.{IsInRange};
ghost use Rattle.command_parts.specs.Limits.{ceilings_of};
ghost use Rattle.model_reasons.specs.Reasons.{AreReasons};
ghost use Rattle.model_reasons.specs.Laws.{CarriedIsShown};
ghost use Rattle.told_fault.specs.Readings.{IsReading};
ghost use Rattle.view_run.specs.Why.{IsWhyAnswer, fails, is_open, reasons_line, reasons_view, why_status, why_view};

use crate::faults::{line_of, say_fault};
use crate::showing::Showing;
use base::{Mem, Refused, Row};
use command_line::Asked;
use command_parts::{limits_of, read_model, shown};
use commands::Said;
use json_outcome::reasons_object;
use model_reasons::{Reason, reasons};
use progress::Progress;
use rml_command::Checked;
use rml_lex::Fault;
use rml_reasons::{Carried, Lack};
use std::alloc::{AllocError, Global};
use told_fault::Reading;
use view_line::Form;

/// The question, with what may be spent on each goal.
#[derive(Drop)]
pub struct Why {
    pub asked: Asked,
    ghost in_range: { IsInRange asked },
}

/// What is answered.
#[derive(Drop)]
pub enum WhyAnswer {
    /// The file's model, and what carries each of its groups.
    Reasons {
        model: Checked,
        reasons: Row<Reason>,
    },
    /// What is wrong with the text.
    Fault(Fault),
}

// What carries the groups of a model, under the limits that were asked for.
fn reasons_of<P: Progress>(
    alloc: Global,
    model: &Checked,
    asked: Asked,
    progress: &mut P,
) -> Mem<Row<Reason>>
    requires { IsInRange asked }
    ensures { IfOk result (AreReasons (ceilings_of asked) model.now) }
{
    reasons(alloc, model, &limits_of(asked), progress)
}

/// The answer to the text of a model.
pub fn judge_groups<P: Progress>(
    alloc: Global,
    text: &[u8],
    asked: Asked,
    progress: &mut P,
) -> Mem<WhyAnswer>
    requires { IsInRange asked }
    ensures { IfOk result (IsWhyAnswer (ceilings_of asked) text.now) }
{
    match read_model(alloc, text) {
        Ok(model) => match reasons_of(alloc, &model, asked, progress) {
            Ok(reasons) => Ok(WhyAnswer::Reasons { model, reasons }),
            Err(wanting) => {
                drop(model);
                Err(wanting)
            }
        },
        Err(Refused::For(fault)) => Ok(WhyAnswer::Fault(fault)),
        Err(Refused::NoMemory) => Err(AllocError),
    }
}

fn fails(carried: &Carried) -> bool
    ensures { result ≡ fails carried.now }
{
    matches!(carried, Carried::Not(Lack::Fails(_)))
}

fn is_open(carried: &Carried) -> bool
    ensures { result ≡ is_open carried.now }
{
    matches!(carried, Carried::Not(Lack::Open(_, _)))
}

fn some_fails(reasons: &[Reason]) -> bool
    ensures { result ≡ list_any (λ r. fails r.carried) reasons.now }
{
    reasons.iter().any(|reason| fails(&reason.carried))
}

fn some_is_open(reasons: &[Reason]) -> bool
    ensures { result ≡ list_any (λ r. is_open r.carried) reasons.now }
{
    reasons.iter().any(|reason| is_open(&reason.carried))
}

// The status that goes with the reasons.
fn why_status(reasons: &[Reason]) -> u8
    ensures { result ≡ why_status reasons.now }
{
    if some_fails(reasons) {
        1
    } else if some_is_open(reasons) {
        3
    } else {
        0
    }
}

// The reasons as a JSON value.
#[tactic(auto, unfolding(crate::specs::Why::reasons_line))]
fn reasons_line(alloc: Global, file: &str, model: &Checked, reasons: &[Reason]) -> Mem<Vec<u8>>
    requires { AllByRecursion (λ r. CarriedIsShown model.now r.carried) reasons.now }
    ensures { IfOk result (λ out. out.items ≡ reasons_line file.now model.now reasons.now) }
{
    let object = reasons_object(alloc, model, reasons)?;
    line_of(alloc, file, object)
}

// What is shown of the reasons.
fn reasons_view(
    alloc: Global,
    showing: Showing,
    model: &Checked,
    reasons: &[Reason],
) -> Mem<Vec<u8>>
    requires { AllByRecursion (λ r. CarriedIsShown model.now r.carried) reasons.now }
    ensures { IfOk result (λ out. out.items
        ≡ reasons_view showing.entry.form showing.entry.file.now model.now reasons.now) }
{
    match showing.form {
        Form::Told | Form::Dot => told_answers::tell_reasons(alloc, model, reasons),
        Form::Json => reasons_line(alloc, showing.file, model, reasons),
    }
}

/// What is shown of an answer of `why`.
pub fn say_why(
    alloc: Global,
    showing: Showing,
    why: &Why,
    text: &[u8],
    reading: &Reading,
    answer: &WhyAnswer,
) -> Mem<Said>
    requires answer { IsWhyAnswer (ceilings_of why.now.asked) text.now answer.now }
    requires reading { IsReading text.now reading.now }
    ensures { IfOk result (λ s. s
        ≡ why_view showing.entry.form showing.entry.file.now text.now reading.now answer.now) }
{
    model_reasons::showing_law();
    match answer {
        WhyAnswer::Reasons { model, reasons } => {
            let out = reasons_view(alloc, showing, model, reasons.as_slice())?;
            Ok(shown(out, why_status(reasons.as_slice())))
        }
        WhyAnswer::Fault(fault) => say_fault(alloc, showing, "why", text, fault, reading),
    }
}
