// `houdini FILE`: the greatest inductive set of the file's conjectures.
ghost use Rattle.std.specs.Prelude.{◌≡◌, IfOk};
ghost use Rattle.command_line.specs.Asking.{IsInRange};
ghost use Rattle.rml_houdini.specs.Greatest.{IsFound};
ghost use Rattle.command_parts.specs.Limits.{ceilings_of};
ghost use Rattle.model_commands.specs.Houdini.{IsHoudiniAnswer, houdini_due, houdini_status};

use base::{Mem, Refused};
use command_line::Asked;
use command_parts::{limits_of, read_model, say_model_fault, shown};
use commands::{Command, Said};
use lean_decide::Counted;
use progress::Progress;
use rml_command::Checked;
use rml_houdini::{greatest, render};
use rml_lex::Fault;
use std::alloc::{AllocError, Global};

/// The command, with what it may spend on each goal, and on which counts.
#[derive(Drop)]
pub struct Houdini {
    pub asked: Asked,
    pub counted: Counted,
    ghost in_range: { IsInRange asked },
}

/// What it answers.
#[derive(Drop)]
pub enum HoudiniAnswer {
    /// The file's model, and what was found of its conjectures.
    Found {
        model: Checked,
        houdini: rml_houdini::Houdini,
    },
    /// What is wrong with the text.
    Fault(Fault),
}

// What is found under the limits that were asked for.
fn greatest_of<P: Progress>(
    alloc: Global,
    model: &Checked,
    asked: Asked,
    counted: Counted,
    progress: &mut P,
) -> Mem<rml_houdini::Houdini>
    requires { IsInRange asked }
    ensures { IfOk result (IsFound counted (ceilings_of asked) model.now) }
{
    let limits = limits_of(asked);
    greatest(alloc, model, counted, &limits, progress)
}

// The answer to the text of a model.
fn judge_conjectures<P: Progress>(
    alloc: Global,
    text: &[u8],
    asked: Asked,
    counted: Counted,
    progress: &mut P,
) -> Mem<HoudiniAnswer>
    requires { IsInRange asked }
    ensures { IfOk result (IsHoudiniAnswer counted (ceilings_of asked) text.now) }
{
    match read_model(alloc, text) {
        Ok(model) => match greatest_of(alloc, &model, asked, counted, progress) {
            Ok(houdini) => Ok(HoudiniAnswer::Found { model, houdini }),
            Err(wanting) => {
                drop(model);
                Err(wanting)
            }
        },
        Err(Refused::For(fault)) => Ok(HoudiniAnswer::Fault(fault)),
        Err(Refused::NoMemory) => Err(AllocError),
    }
}

/// The status that goes with what was found.
pub fn houdini_status(houdini: &rml_houdini::Houdini) -> u8
    ensures { result ≡ houdini_status houdini.now.dropped houdini.now.unsettled }
{
    if houdini.unsettled.is_some() {
        3
    } else if houdini.dropped.is_empty() {
        0
    } else {
        1
    }
}

impl Command for Houdini {
    type Answer = HoudiniAnswer;

    ghost is_answer = { λ c first second a. IsHoudiniAnswer c.counted (ceilings_of c.asked) first a };

    ghost due = { λ c first second a. houdini_due first a };

    fn judge<P: Progress>(
        &self,
        alloc: Global,
        first: &[u8],
        second: &[u8],
        progress: &mut P,
    ) -> Mem<HoudiniAnswer> {
        judge_conjectures(alloc, first, self.asked, self.counted, progress)
    }

    fn say(&self, alloc: Global, first: &[u8], second: &[u8], answer: &HoudiniAnswer) -> Mem<Said> {
        rml_houdini::rendering_law();
        match answer {
            HoudiniAnswer::Found { model, houdini } => {
                let text = render(alloc, model, houdini)?;
                Ok(shown(text, houdini_status(houdini)))
            }
            HoudiniAnswer::Fault(fault) => say_model_fault(alloc, first, fault),
        }
    }
}
