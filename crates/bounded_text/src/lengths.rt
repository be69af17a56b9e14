// The lines of the lengths, and the verdict.
ghost use Rattle.std.specs.Prelude.{◌≡◌, ◌++◌, OnOk, IfOk};
ghost use Rattle.std.specs.List.{AllByRecursion};
ghost use Rattle.bounded_text.specs.BoundedText.{CanRender, bound_cause_text, undecided_text, answer_text, length_text};
ghost use Rattle.bounded_text.specs.BoundedText.{lengths_text, verdict_text, bounded_text};

use crate::showing::push_run;
use base::{Mem, push_number, push_text};
use rml_bmc::{BoundCause, Bounded, Length, Verdict, verdict_for};
use rml_command::Checked;
use rml_report::push_cause;
use std::alloc::Global;

#[tactic(auto, using(std::proofs::Common::append_assoc))]
fn push_paths(out: &mut Vec<u8>, count: u64) -> Mem<()>
    ensures { OnOk result (out.new.items ≡ out.old.items ++ bound_cause_text (BoundCause.Paths count)) }
{
    push_text(out, "paths ")?;
    push_number(out, count)?;
    Ok(())
}

fn push_bound_cause(out: &mut Vec<u8>, cause: &BoundCause) -> Mem<()>
    ensures { OnOk result (out.new.items ≡ out.old.items ++ bound_cause_text cause.now) }
{
    match cause {
        BoundCause::Paths(count) => push_paths(out, *count),
        BoundCause::Goal { place: _, cause } => push_cause(out, cause),
    }
}

#[tactic(auto, using(std::proofs::Common::append_assoc), unfolding(crate::specs::BoundedText::undecided_text))]
fn push_undecided(out: &mut Vec<u8>, cause: &BoundCause) -> Mem<()>
    ensures { OnOk result (out.new.items ≡ out.old.items ++ undecided_text cause.now) }
{
    push_text(out, "undecided ")?;
    push_bound_cause(out, cause)?;
    push_text(out, "\n")?;
    Ok(())
}

fn push_answer(alloc: Global, out: &mut Vec<u8>, checked: &Checked, answer: &Length) -> Mem<()>
    requires { CanRender checked.now answer.now }
    ensures { OnOk result (out.new.items ≡ out.old.items ++ answer_text checked.now answer.now) }
{
    match answer {
        Length::Safe => push_text(out, "safe\n"),
        Length::Undecided(cause) => push_undecided(out, cause),
        Length::Broken(run) => push_run(alloc, out, checked, run),
    }
}

#[tactic(auto, using(std::proofs::Common::append_assoc), unfolding(crate::specs::BoundedText::length_text))]
fn push_length(
    alloc: Global,
    out: &mut Vec<u8>,
    checked: &Checked,
    steps: u64,
    answer: &Length,
) -> Mem<()>
    requires { CanRender checked.now answer.now }
    ensures { OnOk result (out.new.items ≡ out.old.items ++ length_text checked.now steps answer.now) }
{
    push_text(out, "steps ")?;
    push_number(out, steps)?;
    push_text(out, ": ")?;
    push_answer(alloc, out, checked, answer)?;
    Ok(())
}

#[tactic(auto, using(std::proofs::Common::append_assoc))]
fn push_lengths(alloc: Global, out: &mut Vec<u8>, checked: &Checked, lengths: &[Length]) -> Mem<()>
    requires { AllByRecursion (CanRender checked.now) lengths.now }
    ensures { OnOk result (out.new.items ≡ out.old.items ++ lengths_text checked.now 0 lengths.now) }
{
    // That their number is one of 64 bits is known where it is looked at.
    let _count = lengths.len();
    let mut rest = lengths;
    let mut steps: u64 = 0;
    while let [answer, after @ ..] = rest {
        push_length(alloc, out, checked, steps, answer)?;
        steps += 1;
        rest = after;
    }
    Ok(())
}

fn push_verdict(out: &mut Vec<u8>, verdict: Verdict) -> Mem<()>
    ensures { OnOk result (out.new.items ≡ out.old.items ++ verdict_text verdict) }
{
    match verdict {
        Verdict::Safe => push_text(out, "verdict: safe\n"),
        Verdict::NotSafe => push_text(out, "verdict: not safe\n"),
        Verdict::Undecided => push_text(out, "verdict: undecided\n"),
    }
}

/// The text of what is answered of bounded runs.
#[tactic(auto, using(std::proofs::Common::append_assoc), unfolding(crate::specs::BoundedText::bounded_text))]
pub fn render(alloc: Global, checked: &Checked, bounded: &Bounded) -> Mem<Vec<u8>>
    requires { AllByRecursion (CanRender checked.now) bounded.now.lengths }
    ensures { IfOk result (λ text. text.items ≡ bounded_text checked.now bounded.now) }
{
    let mut out = Vec::new(alloc);
    push_lengths(alloc, &mut out, checked, bounded.lengths.as_slice())?;
    push_verdict(&mut out, verdict_for(bounded.lengths.as_slice()))?;
    Ok(out)
}
