// `bmc FILE --steps K`: whether a run with at most K actions goes wrong.
ghost use Rattle.std.specs.Prelude.{◌≡◌, ◌++◌, IfOk, OnOk};
ghost use Rattle.std.specs.List.{AllByRecursion, flat_map};
ghost use Rattle.bounded_text.specs.BoundedText.{CanRender};
ghost use Rattle.told_answers.specs.RunsText.{CanTell};
ghost use Rattle.command_parts.specs.ModelTexts.{IsTheModel};
ghost use Rattle.model_commands.specs.Bmc.{IsBmcAnswer};
ghost use Rattle.told_fault.specs.Readings.{IsReading};
ghost use Rattle.view_run.specs.Bmc.{length_graphs, bounded_line, bounded_view, bmc_view};

use crate::faults::{line_of, say_fault};
use crate::showing::Showing;
use crate::telling::telling_of;
use base::Mem;
use command_parts::shown;
use commands::Said;
use dot_graph::run_graphs;
use json_outcome::bounded_object;
use model_commands::{Bmc, BmcAnswer, bounded_status};
use rml_bmc::{Bounded, Length, verdict_for};
use rml_command::Checked;
use std::alloc::Global;
use told_answers::tell_runs;
use told_fault::Reading;
use view_line::Form;

// The states of a run that goes wrong.
fn push_length(alloc: Global, out: &mut Vec<u8>, model: &Checked, length: &Length) -> Mem<()>
    requires { CanRender model.now length.now }
    ensures { OnOk result (out.new.items ≡ out.old.items ++ length_graphs model.now length.now) }
{
    match length {
        Length::Safe | Length::Undecided(_) => Ok(()),
        Length::Broken(run) => {
            let graphs = run_graphs(alloc, model, run)?;
            out.extend_from_slice(&graphs)?;
            Ok(())
        }
    }
}

// The pictures of the lengths.
#[tactic(auto, using(std::proofs::Common::append_assoc))]
fn lengths_graphs(alloc: Global, model: &Checked, lengths: &[Length]) -> Mem<Vec<u8>>
    requires { AllByRecursion (CanRender model.now) lengths.now }
    ensures { IfOk result (λ out. out.items ≡ flat_map (length_graphs model.now) lengths.now) }
{
    let mut out = Vec::new(alloc);
    let mut rest = lengths;
    while let [length, after @ ..] = rest {
        push_length(alloc, &mut out, model, length)?;
        rest = after;
    }
    Ok(out)
}

// The lengths as a JSON value.
#[tactic(auto, unfolding(crate::specs::Bmc::bounded_line))]
fn bounded_line(alloc: Global, file: &str, model: &Checked, bounded: &Bounded) -> Mem<Vec<u8>>
    requires { AllByRecursion (CanRender model.now) bounded.now.lengths }
    ensures { IfOk result (λ out. out.items ≡ bounded_line file.now model.now bounded.now) }
{
    let object = bounded_object(alloc, model, bounded)?;
    line_of(alloc, file, object)
}

// What is shown of the lengths; in the text for a person, with what the text of the model tells.
fn bounded_view(
    alloc: Global,
    showing: Showing,
    text: &[u8],
    reading: &Reading,
    model: &Checked,
    bounded: &Bounded,
) -> Mem<Vec<u8>>
    requires reading { IsReading text.now reading.now }
    requires model { IsTheModel text.now model.now }
    requires can_tell { AllByRecursion (CanTell model.now) bounded.now.lengths }
    requires can_render { AllByRecursion (CanRender model.now) bounded.now.lengths }
    ensures { IfOk result (λ out. out.items
        ≡ bounded_view showing.entry.form showing.entry.file.now text.now reading.now model.now bounded.now) }
{
    match showing.form {
        Form::Told => {
            let telling = telling_of(alloc, text, reading, model)?;
            let told = tell_runs(alloc, model, &telling, bounded);
            drop(telling);
            told
        }
        Form::Dot => lengths_graphs(alloc, model, bounded.lengths.as_slice()),
        Form::Json => bounded_line(alloc, showing.file, model, bounded),
    }
}

/// What is shown of an answer of `bmc`.
pub fn say_bmc(
    alloc: Global,
    showing: Showing,
    bmc: &Bmc,
    text: &[u8],
    reading: &Reading,
    answer: &BmcAnswer,
) -> Mem<Said>
    requires answer { IsBmcAnswer bmc.now.counted bmc.now.bound text.now answer.now }
    requires reading { IsReading text.now reading.now }
    ensures { IfOk result (λ s. s
        ≡ bmc_view showing.entry.form showing.entry.file.now text.now reading.now answer.now) }
{
    bounded_text::rendering_law();
    told_answers::telling_law();
    match answer {
        BmcAnswer::Answered { model, bounded } => {
            // That the model is in the fragment is known where it is looked at.
            let _model = model.model();
            let out = bounded_view(alloc, showing, text, reading, model, bounded)?;
            let verdict = verdict_for(bounded.lengths.as_slice());
            Ok(shown(out, bounded_status(verdict)))
        }
        BmcAnswer::Fault(fault) => say_fault(alloc, showing, "bmc", text, fault, reading),
    }
}
