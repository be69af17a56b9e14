// The lines of a run that breaks a length.
ghost use Rattle.std.specs.Prelude.{◌≡◌, ◌++◌, Some, OnOk};
ghost use Rattle.std.specs.List.{AllByRecursion, flat_map};
ghost use Rattle.base.specs.Lists.{numbered};
ghost use Rattle.fol_sig.specs.Symbols.{FitsStructure, symbols};
ghost use Rattle.rml_command.specs.Goals.{stage_paths};
ghost use Rattle.rml_bmc.specs.Shown.{EndFits};
ghost use Rattle.bounded_text.specs.BoundedText.{HasPath, CanShow, end_text, part_line, havocs_line};
ghost use Rattle.bounded_text.specs.BoundedText.{part_text, values_text, broken_text, run_text};

use base::{Mem, push_number, push_text};
use fol_sig::Structure;
use rml_bmc::{Part, Run};
use rml_command::{About, Checked, Names, Path, goal_law};
use rml_report::{
    push_havoc_line, push_labelled, push_numbers_line, push_sorts, push_stage, push_tables,
};
use std::alloc::Global;

// The tables of an end.
#[tactic(auto, using(std::proofs::Common::append_assoc))]
fn push_after(alloc: Global, out: &mut Vec<u8>, checked: &Checked, end: &Structure) -> Mem<()>
    requires { EndFits (symbols checked.now.signature) (Some end.now) }
    ensures { OnOk result (out.new.items ≡ out.old.items ++ end_text checked.now.names (Some end.now)) }
{
    push_text(out, "  after\n")?;
    push_tables(alloc, out, checked.model(), end)?;
    Ok(())
}

// How a part ends.
fn push_end(alloc: Global, out: &mut Vec<u8>, checked: &Checked, part: &Part) -> Mem<()>
    requires { EndFits (symbols checked.now.signature) part.now.end }
    ensures { OnOk result (out.new.items ≡ out.old.items ++ end_text checked.now.names part.now.end) }
{
    match &part.end {
        None => push_text(out, "  aborts\n"),
        Some(end) => push_after(alloc, out, checked, end),
    }
}

#[tactic(auto, using(std::proofs::Common::append_assoc), unfolding(crate::specs::BoundedText::part_line))]
fn push_part_line(out: &mut Vec<u8>, checked: &Checked, part: &Part) -> Mem<()>
    ensures { OnOk result (out.new.items ≡ out.old.items ++ part_line checked.now part.now) }
{
    let paths = checked.stage_paths(part.stage).len();
    push_text(out, "  ")?;
    push_stage(out, checked.model().names(), part.stage)?;
    push_text(out, " path ")?;
    push_number(out, part.trace.path as u64)?;
    push_text(out, " of ")?;
    push_number(out, paths as u64)?;
    push_text(out, "\n")?;
    Ok(())
}

// The path that a part takes.
fn path_of<'a>(checked: &'a Checked, part: &Part) -> Path<'a>
    requires { HasPath checked.now part.now }
    ensures { numbered (stage_paths checked.now part.now.stage) part.now.trace.path ≡ Some result }
{
    let paths = checked.stage_paths(part.stage);
    paths.path(part.trace.path as usize - 1)
}

// What its havocs gave.
fn push_havocs(
    alloc: Global,
    out: &mut Vec<u8>,
    checked: &Checked,
    start: &Structure,
    part: &Part,
) -> Mem<()>
    requires path { HasPath checked.now part.now }
    requires start { FitsStructure (symbols checked.now.signature) start.now }
    ensures { OnOk result (out.new.items ≡ out.old.items ++ havocs_line checked.now start.now part.now) }
{
    goal_law();
    let _checked = checked.model();
    let path = path_of(checked, part);
    let havocs = part.trace.havoc.as_slice();
    push_havoc_line(alloc, out, checked, &path, start, havocs)?;
    Ok(())
}

#[tactic(auto, using(std::proofs::Common::append_assoc), unfolding(crate::specs::BoundedText::part_text))]
fn push_part(
    alloc: Global,
    out: &mut Vec<u8>,
    checked: &Checked,
    start: &Structure,
    part: &Part,
) -> Mem<()>
    requires path { HasPath checked.now part.now }
    requires start { FitsStructure (symbols checked.now.signature) start.now }
    requires end { EndFits (symbols checked.now.signature) part.now.end }
    ensures { OnOk result (out.new.items ≡ out.old.items ++ part_text checked.now start.now part.now) }
{
    push_part_line(out, checked, part)?;
    push_havocs(alloc, out, checked, start, part)?;
    push_end(alloc, out, checked, part)?;
    Ok(())
}

#[tactic(auto, using(std::proofs::Common::append_assoc))]
fn push_parts(
    alloc: Global,
    out: &mut Vec<u8>,
    checked: &Checked,
    start: &Structure,
    parts: &[Part],
) -> Mem<()>
    requires paths { AllByRecursion (HasPath checked.now) parts.now }
    requires start { FitsStructure (symbols checked.now.signature) start.now }
    requires ends { AllByRecursion (λ part. EndFits (symbols checked.now.signature) part.end) parts.now }
    ensures { OnOk result
        (out.new.items ≡ out.old.items ++ flat_map (λ part. part_text checked.now start.now part) parts.now) }
{
    let mut rest = parts;
    while let [part, after @ ..] = rest {
        push_part(alloc, out, checked, start, part)?;
        rest = after;
    }
    Ok(())
}

// What the run does.
fn push_broken(out: &mut Vec<u8>, names: &Names, about: About) -> Mem<()>
    ensures { OnOk result (out.new.items ≡ out.old.items ++ broken_text names.now about) }
{
    match about {
        About::Abort => push_text(out, "abort\n"),
        About::Conjecture(conjecture) => push_labelled(
            out,
            "breaks ",
            names.conjectures.as_slice(),
            conjecture,
            "\n",
        ),
    }
}

// The values under which the conjecture's body is false; none, where the run aborts.
fn push_values(out: &mut Vec<u8>, about: About, values: &[u32]) -> Mem<()>
    ensures { OnOk result (out.new.items ≡ out.old.items ++ values_text about values.now) }
{
    match about {
        About::Abort => Ok(()),
        About::Conjecture(_) => push_numbers_line(out, "  values:", values),
    }
}

/// Adds the lines of a run that breaks a length, behind the length's number.
#[tactic(auto, using(std::proofs::Common::append_assoc), unfolding(crate::specs::BoundedText::run_text))]
pub fn push_run(alloc: Global, out: &mut Vec<u8>, checked: &Checked, run: &Run) -> Mem<()>
    requires { CanShow checked.now run.now }
    ensures { OnOk result (out.new.items ≡ out.old.items ++ run_text checked.now run.now) }
{
    let model = checked.model();
    push_broken(out, model.names(), run.about)?;
    push_text(out, "  before\n")?;
    push_sorts(out, model, &run.start)?;
    push_tables(alloc, out, model, &run.start)?;
    push_parts(alloc, out, checked, &run.start, run.parts.as_slice())?;
    push_values(out, run.about, run.values.as_slice())?;
    Ok(())
}
