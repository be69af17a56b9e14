// `bmc FILE --steps K`: whether some run with at most K actions aborts or breaks a conjecture.
ghost use Rattle.std.specs.Prelude.{◌≡◌, ◌≤◌, IfOk};
ghost use Rattle.command_line.specs.Asking.{IsInRange};
ghost use Rattle.rml_bmc.specs.Bounds.{IsBounded};
ghost use Rattle.command_parts.specs.Limits.{ceilings_of};
ghost use Rattle.model_commands.specs.Bmc.{IsBmcAnswer, bmc_due, bounded_status};

use base::{Mem, Refused};
use bounded_text::render;
use command_line::Bound;
use command_parts::{limits_of, read_model, say_model_fault, shown};
use commands::{Command, Said};
use lean_decide::Counted;
use progress::Progress;
use rml_bmc::{Bounded, Verdict, bounded, verdict_for};
use rml_command::Checked;
use rml_lex::Fault;
use std::alloc::{AllocError, Global};

/// The command, with how far runs are followed and what it may spend on each goal, and on which counts.
#[derive(Drop)]
pub struct Bmc {
    pub bound: Bound,
    pub counted: Counted,
    ghost few: { bound.steps ≤ 12 },
    ghost in_range: { IsInRange bound.limits },
}

/// What it answers.
#[derive(Drop)]
pub enum BmcAnswer {
    /// The file's model, and what is so of its runs.
    Answered { model: Checked, bounded: Bounded },
    /// What is wrong with the text.
    Fault(Fault),
}

// What is so of the runs of a model, under the limits that were asked for.
fn bounded_on<P: Progress>(
    alloc: Global,
    model: &Checked,
    bound: Bound,
    counted: Counted,
    progress: &mut P,
) -> Mem<Bounded>
    requires steps { bound.steps ≤ 12 }
    requires limits { IsInRange bound.limits }
    ensures { IfOk result (IsBounded counted (ceilings_of bound.limits) model.now bound.steps) }
{
    let limits = limits_of(bound.limits);
    bounded(alloc, model, bound.steps as u32, counted, &limits, progress)
}

// The answer to the text of a model.
fn judge_runs<P: Progress>(
    alloc: Global,
    text: &[u8],
    bound: Bound,
    counted: Counted,
    progress: &mut P,
) -> Mem<BmcAnswer>
    requires steps { bound.steps ≤ 12 }
    requires limits { IsInRange bound.limits }
    ensures { IfOk result (IsBmcAnswer counted bound text.now) }
{
    match read_model(alloc, text) {
        Ok(model) => match bounded_on(alloc, &model, bound, counted, progress) {
            Ok(bounded) => Ok(BmcAnswer::Answered { model, bounded }),
            Err(wanting) => {
                drop(model);
                Err(wanting)
            }
        },
        Err(Refused::For(fault)) => Ok(BmcAnswer::Fault(fault)),
        Err(Refused::NoMemory) => Err(AllocError),
    }
}

/// The status that goes with a verdict.
pub fn bounded_status(verdict: Verdict) -> u8
    ensures { result ≡ bounded_status verdict }
{
    match verdict {
        Verdict::Safe => 0,
        Verdict::NotSafe => 1,
        Verdict::Undecided => 3,
    }
}

impl Command for Bmc {
    type Answer = BmcAnswer;

    ghost is_answer = { λ c first second a. IsBmcAnswer c.counted c.bound first a };

    ghost due = { λ c first second a. bmc_due first a };

    fn judge<P: Progress>(
        &self,
        alloc: Global,
        first: &[u8],
        second: &[u8],
        progress: &mut P,
    ) -> Mem<BmcAnswer> {
        judge_runs(alloc, first, self.bound, self.counted, progress)
    }

    fn say(&self, alloc: Global, first: &[u8], second: &[u8], answer: &BmcAnswer) -> Mem<Said> {
        bounded_text::rendering_law();
        match answer {
            BmcAnswer::Answered { model, bounded } => {
                // That the model is in the fragment is known where it is looked at.
                let _model = model.model();
                let text = render(alloc, model, bounded)?;
                let verdict = verdict_for(bounded.lengths.as_slice());
                Ok(shown(text, bounded_status(verdict)))
            }
            BmcAnswer::Fault(fault) => say_model_fault(alloc, first, fault),
        }
    }
}
