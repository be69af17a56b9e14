// What is shown of a group that fails.
ghost use Rattle.std.specs.Prelude.{◌≡◌, ◌++◌, OnOk};
ghost use Rattle.rml_report.specs.Reports.{IsExecution, IsRefutation};
ghost use Rattle.rml_report.specs.ReportText.{path_line, bound_text, stopped_text, least_text};
ghost use Rattle.rml_report.specs.ReportText.{least_line, outcome_of, end_tables};
ghost use Rattle.rml_report.specs.ReportText.{end_text, outcome_text, execution_text, block_text};

use crate::havocs::push_havoc_line;
use crate::least::{Bound, Least};
use crate::structures::{push_sorts, push_tables};
use crate::words::{push_cause, push_labelled, push_name, push_numbers_line};
use base::{Mem, push_number, push_text};
use limits::Cause;
use rml_command::{About, Checked, Names};
use rml_exec::{Counterexample, Followed, follow};
use std::alloc::Global;

/// Adds the line of a path, by its number and the number of paths of its block.
#[tactic(auto, using(std::proofs::Common::append_assoc), unfolding(crate::specs::ReportText::path_line))]
pub fn push_path_line(out: &mut Vec<u8>, path: u32, paths: u32) -> Mem<()>
    ensures { OnOk result (out.new.items ≡ out.old.items ++ path_line path paths) }
{
    push_text(out, "  path ")?;
    push_number(out, path as u64)?;
    push_text(out, " of ")?;
    push_number(out, paths as u64)?;
    push_text(out, "\n")?;
    Ok(())
}

// The sort or the relation that a trial bounds.
fn push_bound(out: &mut Vec<u8>, names: &Names, bound: Bound) -> Mem<()>
    ensures { OnOk result (out.new.items ≡ out.old.items ++ bound_text names.now bound) }
{
    match bound {
        Bound::Sort(sort) => { push_labelled(out, "stopped ", names.sorts.as_slice(), sort.0, " ") }
        Bound::Rel(rel) => {
            push_labelled(
                out,
                "stopped relation ",
                names.relations.as_slice(),
                rel.0,
                " ",
            )
        }
    }
}

#[tactic(auto, using(std::proofs::Common::append_assoc), unfolding(crate::specs::ReportText::stopped_text))]
fn push_stopped(out: &mut Vec<u8>, names: &Names, bound: Bound, size: u64, cause: &Cause) -> Mem<()>
    ensures { OnOk result (out.new.items ≡ out.old.items ++ stopped_text names.now bound size cause.now) }
{
    push_bound(out, names, bound)?;
    push_number(out, size)?;
    push_text(out, " ")?;
    push_cause(out, cause)?;
    Ok(())
}

fn push_least(out: &mut Vec<u8>, names: &Names, least: &Least) -> Mem<()>
    ensures { OnOk result (out.new.items ≡ out.old.items ++ least_text names.now least.now) }
{
    match least {
        Least::Yes => push_text(out, "yes"),
        Least::Stopped { at, size, cause } => push_stopped(out, names, *at, *size, cause),
    }
}

#[tactic(auto, using(std::proofs::Common::append_assoc), unfolding(crate::specs::ReportText::least_line))]
fn push_least_line(out: &mut Vec<u8>, names: &Names, least: &Least) -> Mem<()>
    ensures { OnOk result (out.new.items ≡ out.old.items ++ least_line names.now least.now) }
{
    push_text(out, "  least: ")?;
    push_least(out, names, least)?;
    push_text(out, "\n")?;
    Ok(())
}

// The tables of the structure in which the shown path ends.
fn push_end_tables(
    alloc: Global,
    out: &mut Vec<u8>,
    checked: &Checked,
    shown: &Counterexample,
) -> Mem<()>
    requires { IsExecution checked.now shown.now }
    ensures { OnOk result
        (out.new.items ≡ out.old.items ++ end_tables checked.now.names (outcome_of checked.now shown.now)) }
{
    let path = checked.path(&shown.goal);
    match follow(alloc, checked, &path, &shown.trace, &shown.structure)? {
        Followed::Ended(end) => push_tables(alloc, out, checked.model(), &end),
        Followed::Aborted | Followed::Blocked => Ok(()),
    }
}

#[tactic(auto, using(std::proofs::Common::append_assoc), unfolding(crate::specs::ReportText::end_text))]
fn push_end(alloc: Global, out: &mut Vec<u8>, checked: &Checked, shown: &Counterexample) -> Mem<()>
    requires { IsExecution checked.now shown.now }
    ensures { OnOk result (out.new.items ≡ out.old.items ++ end_text checked.now shown.now) }
{
    push_text(out, "  after\n")?;
    push_end_tables(alloc, out, checked, shown)?;
    push_numbers_line(out, "  values:", shown.values.as_slice())?;
    Ok(())
}

fn push_outcome(
    alloc: Global,
    out: &mut Vec<u8>,
    checked: &Checked,
    about: About,
    shown: &Counterexample,
) -> Mem<()>
    requires { IsExecution checked.now shown.now }
    ensures { OnOk result (out.new.items ≡ out.old.items ++ outcome_text checked.now about shown.now) }
{
    match about {
        About::Abort => push_text(out, "  aborts\n"),
        About::Conjecture(_) => push_end(alloc, out, checked, shown),
    }
}

/// Adds the lines of an execution: the structure in which it begins, the elements and tables of its havocs, and how it
/// ends.
#[tactic(auto, using(std::proofs::Common::append_assoc), unfolding(crate::specs::ReportText::execution_text))]
pub fn push_execution(
    alloc: Global,
    out: &mut Vec<u8>,
    checked: &Checked,
    about: About,
    shown: &Counterexample,
) -> Mem<()>
    requires { IsExecution checked.now shown.now }
    ensures { OnOk result (out.new.items ≡ out.old.items ++ execution_text checked.now about shown.now) }
{
    let model = checked.model();
    push_text(out, "  before\n")?;
    push_sorts(out, model, &shown.structure)?;
    push_tables(alloc, out, model, &shown.structure)?;
    push_havoc_line(
        alloc,
        out,
        checked,
        &checked.path(&shown.goal),
        &shown.structure,
        shown.trace.havoc.as_slice(),
    )?;
    push_outcome(alloc, out, checked, about, shown)?;
    Ok(())
}

/// The lines of a group that fails, from the end of its head on.
#[tactic(auto, using(std::proofs::Common::append_assoc), unfolding(crate::specs::ReportText::block_text))]
pub fn push_block(
    alloc: Global,
    out: &mut Vec<u8>,
    checked: &Checked,
    about: About,
    paths: u32,
    least: &Least,
    shown: &Counterexample,
) -> Mem<()>
    requires { IsRefutation checked.now shown.now }
    ensures { OnOk result (out.new.items ≡ out.old.items ++ block_text checked.now about paths least.now shown.now) }
{
    push_text(out, ": fails\n")?;
    push_path_line(out, shown.trace.path, paths)?;
    push_least_line(out, checked.model().names(), least)?;
    push_execution(alloc, out, checked, about, shown)?;
    Ok(())
}
