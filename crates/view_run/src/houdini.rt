// `houdini FILE`: the greatest inductive set of the model's conjectures.
ghost use Rattle.std.specs.Prelude.{◌≡◌, IfOk};
ghost use Rattle.std.specs.List.{AllByRecursion};
ghost use Rattle.rml_houdini.specs.HoudiniText.{CanRender};
ghost use Rattle.command_parts.specs.Limits.{ceilings_of};
ghost use Rattle.command_parts.specs.ModelTexts.{IsTheModel};
ghost use Rattle.model_commands.specs.Houdini.{IsHoudiniAnswer};
ghost use Rattle.told_fault.specs.Readings.{IsReading};
ghost use Rattle.view_run.specs.Houdini.{found_line, found_text, houdini_view};

use crate::faults::{line_of, say_fault};
use crate::json_ways::drop_ways;
use crate::showing::Showing;
use crate::source::source_of;
use crate::telling::telling_of;
use base::Mem;
use branches::Source;
use command_parts::shown;
use commands::Said;
use dot_graph::drops_graphs;
use json_outcome::houdini_object;
use model_commands::{Houdini, HoudiniAnswer, houdini_status};
use rml_command::Checked;
use std::alloc::Global;
use told_answers::tell_subset;
use told_fault::Reading;
use view_line::Form;

// What was found as a JSON value.
#[tactic(auto, unfolding(crate::specs::Houdini::found_line))]
fn found_line(
    alloc: Global,
    file: &str,
    source: &Option<Source>,
    model: &Checked,
    found: &rml_houdini::Houdini,
) -> Mem<Vec<u8>>
    requires { AllByRecursion (CanRender model.now) found.now.dropped }
    ensures { IfOk result (λ out. out.items ≡ found_line file.now source.now model.now found.now) }
{
    let branches = drop_ways(alloc, source, found.dropped.as_slice())?;
    let object = houdini_object(alloc, model, found, &branches);
    drop(branches);
    line_of(alloc, file, object?)
}

// What is shown of what was found; in the text for a person, with what the text of the model tells.
fn found_text(
    alloc: Global,
    showing: Showing,
    text: &[u8],
    reading: &Reading,
    model: &Checked,
    found: &rml_houdini::Houdini,
) -> Mem<Vec<u8>>
    requires reading { IsReading text.now reading.now }
    requires model { IsTheModel text.now model.now }
    requires can { AllByRecursion (CanRender model.now) found.now.dropped }
    ensures { IfOk result (λ out. out.items
        ≡ found_text showing.entry.form showing.entry.file.now text.now reading.now model.now found.now) }
{
    match showing.form {
        Form::Told => {
            let telling = telling_of(alloc, text, reading, model)?;
            let told = tell_subset(alloc, model, &telling, found);
            drop(telling);
            told
        }
        Form::Dot => drops_graphs(alloc, model, found.dropped.as_slice()),
        Form::Json => {
            let source = source_of(alloc, text, reading, model);
            found_line(alloc, showing.file, &source, model, found)
        }
    }
}

/// What is shown of an answer of `houdini`.
pub fn say_houdini(
    alloc: Global,
    showing: Showing,
    houdini: &Houdini,
    text: &[u8],
    reading: &Reading,
    answer: &HoudiniAnswer,
) -> Mem<Said>
    requires answer { IsHoudiniAnswer houdini.now.counted (ceilings_of houdini.now.asked) text.now answer.now }
    requires reading { IsReading text.now reading.now }
    ensures { IfOk result (λ s. s
        ≡ houdini_view showing.entry.form showing.entry.file.now text.now reading.now answer.now) }
{
    rml_houdini::rendering_law();
    match answer {
        HoudiniAnswer::Found {
            model,
            houdini: found,
        } => {
            let out = found_text(alloc, showing, text, reading, model, found)?;
            Ok(shown(out, houdini_status(found)))
        }
        HoudiniAnswer::Fault(fault) => say_fault(alloc, showing, "houdini", text, fault, reading),
    }
}
