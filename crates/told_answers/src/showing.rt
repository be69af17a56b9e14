// A run that is broken.
ghost use Rattle.std.specs.Prelude.{◌≡◌};
ghost use Rattle.std.specs.List.{AllByRecursion};
ghost use Rattle.fol_sig.specs.Symbols.{FitsStructure, symbols};
ghost use Rattle.told_text.specs.Written.{Wrote};
ghost use Rattle.told_answers.specs.RunsText.{actions_text, changes_until, part_text, end_or, parts_text};
ghost use Rattle.told_answers.specs.RunsText.{unit_text, run_head, run_text, EndIsAlike, CanTellRun};

use fol_sig::Structure;
use rml_bmc::{Part, Run};
use rml_command::{About, Checked, Names};
use std::alloc::Global;
use told_report::{
    InText, push_after, push_differences, push_fault, push_path, push_state, push_step,
};
use told_states::push_stage;
use told_text::Text;

fn push_unit(out: &mut Text, actions: u64)
    ensures { Wrote out.old out.new (unit_text actions) }
{
    if actions == 1 {
        out.push_str(" action");
    } else {
        out.push_str(" actions");
    }
}

/// Adds so many actions, between two words.
#[tactic(auto, using(std::proofs::Common::append_assoc), unfolding(crate::specs::RunsText::actions_text))]
pub fn push_actions(out: &mut Text, before: &str, actions: u64, behind: &str)
    ensures { Wrote out.old out.new (actions_text before.now actions behind.now) }
{
    out.push_str(before);
    out.push_number(actions);
    push_unit(out, actions);
    out.push_str(behind);
}

// What has changed where a part ends.
fn push_until<T: InText>(
    alloc: Global,
    out: &mut Text,
    checked: &Checked,
    source: &T,
    begin: &Structure,
    end: &Option<Structure>,
)
    requires source { T.is_over source.now (symbols checked.now.signature) }
    requires begin { FitsStructure (symbols checked.now.signature) begin.now }
    requires end { EndIsAlike checked.now begin.now.sizes end.now }
    ensures { Wrote out.old out.new (changes_until checked.now (T.told source.now) begin.now end.now) }
{
    if let Some(end) = end {
        push_differences(alloc, out, checked.model(), source, begin, end);
    }
}

// Which path of a block it is, what it takes, and what it changes.
#[tactic(auto, using(std::proofs::Common::append_assoc), unfolding(crate::specs::RunsText::part_text))]
fn push_part<T: InText>(
    alloc: Global,
    out: &mut Text,
    checked: &Checked,
    source: &T,
    begin: &Structure,
    part: &Part,
)
    requires source { T.is_over source.now (symbols checked.now.signature) }
    requires begin { FitsStructure (symbols checked.now.signature) begin.now }
    requires end { EndIsAlike checked.now begin.now.sizes part.now.end }
    ensures { Wrote out.old out.new (part_text checked.now (T.told source.now) begin.now part.now) }
{
    let paths = checked.stage_paths(part.stage).len();
    let path = part.trace.path;
    let havocs = part.trace.havoc.as_slice();
    push_stage(out, checked.model().names(), part.stage);
    push_path(out, path, paths as u64);
    push_step(alloc, out, checked, source, part.stage, path, begin, havocs);
    push_until(alloc, out, checked, source, begin, &part.end);
}

// The structure in which the next part begins.
fn end_or<'a>(begin: &'a Structure, end: &'a Option<Structure>) -> &'a Structure
    ensures { result.now ≡ end_or begin.now end.now }
{
    match end {
        None => begin,
        Some(end) => end,
    }
}

// Each part from the end of the one before.
#[tactic(auto, using(std::proofs::Common::append_assoc))]
fn push_parts<T: InText>(
    alloc: Global,
    out: &mut Text,
    checked: &Checked,
    source: &T,
    start: &Structure,
    parts: &[Part],
)
    requires source { T.is_over source.now (symbols checked.now.signature) }
    requires start { FitsStructure (symbols checked.now.signature) start.now }
    requires ends { AllByRecursion (λ part. EndIsAlike checked.now start.now.sizes part.end) parts.now }
    ensures { Wrote out.old out.new (parts_text checked.now (T.told source.now) start.now parts.now) }
{
    let mut begin = start;
    let mut rest = parts;
    while let [part, after @ ..] = rest {
        push_part(alloc, out, checked, source, begin, part);
        begin = end_or(begin, &part.end);
        rest = after;
    }
}

// How many actions the run has, and what it does.
fn push_run_head(out: &mut Text, names: &Names, actions: u64, about: About)
    ensures { Wrote out.old out.new (run_head names.now actions about) }
{
    push_actions(out, "\na run with ", actions, "");
    push_fault(out, names, about);
}

/// Adds a run: how many actions it has and what it does, the structure in which it begins, its parts, and what is so
/// where it ends.
#[tactic(auto, using(std::proofs::Common::append_assoc), unfolding(crate::specs::RunsText::run_text))]
pub fn push_run<T: InText>(
    alloc: Global,
    out: &mut Text,
    checked: &Checked,
    source: &T,
    actions: u64,
    run: &Run,
)
    requires source { T.is_over source.now (symbols checked.now.signature) }
    requires run { CanTellRun checked.now run.now }
    ensures { Wrote out.old out.new (run_text checked.now (T.told source.now) actions run.now) }
{
    let model = checked.model();
    push_run_head(out, model.names(), actions, run.about);
    out.push_str("\n");
    push_state(alloc, out, model, source, &run.start);
    push_parts(
        alloc,
        out,
        checked,
        source,
        &run.start,
        run.parts.as_slice(),
    );
    push_after(
        alloc,
        out,
        model,
        &run.start,
        run.about,
        run.values.as_slice(),
    );
}
