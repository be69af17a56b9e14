// The lengths in order, and the verdict.
ghost use Rattle.std.specs.Prelude.{◌≡◌, IfOk};
ghost use Rattle.std.specs.List.{AllByRecursion};
ghost use Rattle.fol_sig.specs.Symbols.{symbols};
ghost use Rattle.told_text.specs.Written.{Wrote};
ghost use Rattle.told_answers.specs.RunsText.{broken_text, bound_line, open_text, all_broken, all_open, set_off};
ghost use Rattle.told_answers.specs.RunsText.{verdict_line, runs_text, CanTell};

use crate::showing::{push_actions, push_run};
use base::Mem;
use rml_bmc::{BoundCause, Bounded, Length, Verdict, verdict_for};
use rml_command::Checked;
use std::alloc::Global;
use told_report::{InText, push_cause_line, push_numbered};
use told_text::Text;

fn push_bound_line(out: &mut Text, cause: &BoundCause)
    ensures { Wrote out.old out.new (bound_line cause.now) }
{
    match cause {
        BoundCause::Paths(count) => push_numbered(
            out,
            "they have ",
            *count,
            " paths, more than are followed, whatever the options; leave out actions that the run does not need\n",
        ),
        BoundCause::Goal { place: _, cause } => push_cause_line(out, "", cause),
    }
}

// A length that is broken, or one that is left open.
fn push_length<T: InText>(
    alloc: Global,
    out: &mut Text,
    left: &mut Text,
    checked: &Checked,
    source: &T,
    actions: u64,
    answer: &Length,
)
    requires source { T.is_over source.now (symbols checked.now.signature) }
    requires answer { CanTell checked.now answer.now }
    ensures broken { Wrote out.old out.new (broken_text checked.now (T.told source.now) actions answer.now) }
    ensures left_open { Wrote left.old left.new (open_text actions answer.now) }
{
    match answer {
        Length::Safe => {}
        Length::Undecided(cause) => {
            push_actions(left, "runs with ", actions, " are left open: ");
            push_bound_line(left, cause);
        }
        Length::Broken(run) => push_run(alloc, out, checked, source, actions, run),
    }
}

#[tactic(auto, using(std::proofs::Common::append_assoc))]
fn push_lengths<T: InText>(
    alloc: Global,
    out: &mut Text,
    left: &mut Text,
    checked: &Checked,
    source: &T,
    lengths: &[Length],
)
    requires source { T.is_over source.now (symbols checked.now.signature) }
    requires lengths { AllByRecursion (CanTell checked.now) lengths.now }
    ensures broken { Wrote out.old out.new (all_broken checked.now (T.told source.now) 0 lengths.now) }
    ensures left_open { Wrote left.old left.new (all_open 0 lengths.now) }
{
    // That their number is one of 64 bits is known where it is looked at.
    let _count = lengths.len();
    let mut rest = lengths;
    let mut actions: u64 = 0;
    while let [answer, after @ ..] = rest {
        push_length(alloc, out, left, checked, source, actions, answer);
        actions += 1;
        rest = after;
    }
}

// Lines behind an empty one, where there are any.
#[tactic(auto, using(std::proofs::Common::append_assoc))]
fn push_set_off(out: &mut Text, lines: &[u8])
    ensures { Wrote out.old out.new (set_off lines.now) }
{
    if !lines.is_empty() {
        out.push_str("\n");
        out.push_bytes(lines);
    }
}

fn push_verdict(out: &mut Text, verdict: Verdict, actions: u64)
    ensures { Wrote out.old out.new (verdict_line verdict actions) }
{
    match verdict {
        Verdict::Safe => push_actions(out, "safe up to ", actions, "\n"),
        Verdict::NotSafe => out.push_str("not safe\n"),
        Verdict::Undecided => out.push_str("undecided\n"),
    }
}

/// The text of what is answered of bounded runs, for a person: the verdict, the run that is broken with the branches
/// that it takes, and the lengths that are left open.
#[tactic(auto, using(std::proofs::Common::append_assoc), unfolding(crate::specs::RunsText::runs_text))]
pub fn tell_runs<T: InText>(
    alloc: Global,
    checked: &Checked,
    source: &T,
    bounded: &Bounded,
) -> Mem<Vec<u8>>
    requires source { T.is_over source.now (symbols checked.now.signature) }
    requires lengths { AllByRecursion (CanTell checked.now) bounded.now.lengths }
    ensures { IfOk result (λ text. text.items ≡ runs_text checked.now (T.told source.now) bounded.now) }
{
    let lengths = bounded.lengths.as_slice();
    let last = lengths.len().saturating_sub(1) as u64;
    let mut out = Text::new(alloc);
    let mut left = Text::new(alloc);
    push_verdict(&mut out, verdict_for(lengths), last);
    push_lengths(alloc, &mut out, &mut left, checked, source, lengths);
    out.needs(&left);
    push_set_off(&mut out, left.as_bytes());
    let text = out.into_bytes()?;
    Ok(text)
}
