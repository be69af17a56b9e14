// The line of what the havocs of a path gave.
ghost use Rattle.std.specs.Prelude.{◌≡◌, ◌<◌, ◌++◌, [], Some, length, OnOk};
ghost use Rattle.std.specs.List.{AllByRecursion};
ghost use Rattle.fol_sig.specs.Tables.{IsStructure, numbers, relation_at};
ghost use Rattle.fol_sig.specs.Symbols.{FitsStructure, symbols};
ghost use Rattle.fol_sig.specs.TupleSets.{has_tuple};
ghost use Rattle.rml_command.specs.View.{primitive as primitive_view};
ghost use Rattle.rml_command.specs.Models.{FitsPath};
ghost use Rattle.rml_exec.specs.Steps.{CanUpdate};
ghost use Rattle.rml_report.specs.TableText.{each_tuple, bare_text, member_text, set_text};
ghost use Rattle.rml_report.specs.HavocText.{element_text, relation_text, havoc_text, havocs_text, havoc_line};

use crate::structures::push_listed;
use crate::words::push_truth;
use base::{Mem, push_number, push_text};
use fol_sig::{RelId, Sort, Structure, Tuple};
use rml_command::{Checked, Havoc, Path, Primitive};
use rml_exec::havocs_after;
use std::alloc::Global;

// Whether the tuple is one of these.
fn has_tuple(tuples: &[Tuple], tuple: &[u32]) -> bool
    ensures { result ≡ has_tuple tuples.now tuple.now }
{
    tuples.iter().any(|member| member.as_slice() == tuple)
}

#[tactic(auto, using(std::proofs::Common::append_assoc), unfolding(crate::specs::TableText::bare_text))]
fn push_bare(out: &mut Vec<u8>, tuple: &[u32]) -> Mem<()>
    ensures { OnOk result (out.new.items ≡ out.old.items ++ bare_text tuple.now) }
{
    push_text(out, "(")?;
    push_listed(out, tuple)?;
    push_text(out, ")")?;
    Ok(())
}

fn push_member(out: &mut Vec<u8>, tuples: &[Tuple], tuple: &[u32]) -> Mem<()>
    ensures { OnOk result (out.new.items ≡ out.old.items ++ member_text tuples.now tuple.now) }
{
    if has_tuple(tuples, tuple) {
        push_bare(out, tuple)
    } else {
        Ok(())
    }
}

// The tuples of these sorts behind the elements of `tuple` that are among `tuples`.
fn push_members(
    out: &mut Vec<u8>,
    structure: &Structure,
    tuples: &[Tuple],
    sorts: &[Sort],
    tuple: &mut Vec<u32>,
) -> Mem<()>
    requires { AllByRecursion (λ k. k < length structure.now.sizes) (numbers sorts.now) }
    ensures text { OnOk result
        (out.new.items ≡ out.old.items ++ each_tuple structure.now.sizes (member_text tuples.now)
        (numbers sorts.now) tuple.old.items) }
    ensures tuple { OnOk result (tuple.new.items ≡ tuple.old.items) }
{
    match sorts.split_first() {
        None => push_member(out, tuples, tuple)?,
        Some((sort, rest)) => {
            for element in 0..structure.size(*sort) {
                tuple.push(element)?;
                push_members(out, structure, tuples, rest, tuple)?;
                tuple.pop();
            }
        }
    }
    Ok(())
}

// The table of a relation over these sorts that is true of these tuples.
#[tactic(auto, using(std::proofs::Common::append_assoc))]
fn push_set(
    alloc: Global,
    out: &mut Vec<u8>,
    structure: &Structure,
    sorts: &[Sort],
    tuples: &[Tuple],
) -> Mem<()>
    requires { AllByRecursion (λ k. k < length structure.now.sizes) (numbers sorts.now) }
    ensures { OnOk result
        (out.new.items ≡ out.old.items ++ set_text structure.now.sizes (numbers sorts.now) tuples.now) }
{
    if sorts.is_empty() {
        push_truth(out, has_tuple(tuples, &[]))?;
    } else {
        let mut tuple = Vec::new(alloc);
        push_text(out, "{")?;
        push_members(out, structure, tuples, sorts, &mut tuple)?;
        push_text(out, "}")?;
    }
    Ok(())
}

#[tactic(auto, using(std::proofs::Common::append_assoc), unfolding(crate::specs::HavocText::element_text))]
fn push_element(out: &mut Vec<u8>, element: u32) -> Mem<()>
    ensures { OnOk result (out.new.items ≡ out.old.items ++ element_text element) }
{
    push_text(out, " ")?;
    push_number(out, element as u64)?;
    Ok(())
}

#[tactic(auto, using(std::proofs::Common::append_assoc), unfolding(crate::specs::HavocText::relation_text))]
fn push_relation(
    alloc: Global,
    out: &mut Vec<u8>,
    structure: &Structure,
    rel: RelId,
    tuples: &[Tuple],
) -> Mem<()>
    requires whole { IsStructure structure.now }
    requires known { rel.0 < length structure.now.relations }
    ensures { OnOk result (out.new.items ≡ out.old.items ++ relation_text structure.now rel.0 tuples.now) }
{
    push_text(out, " ")?;
    push_set(alloc, out, structure, structure.relation_sorts(rel), tuples)?;
    Ok(())
}

// What stands for a step of the path.
fn push_havoc(
    alloc: Global,
    out: &mut Vec<u8>,
    structure: &Structure,
    primitive: &Primitive,
    havocs: &[Havoc],
) -> Mem<()>
    requires { CanUpdate (primitive_view primitive.now) structure.now }
    ensures { OnOk result
        (out.new.items ≡ out.old.items ++ havoc_text structure.now (primitive_view primitive.now) havocs.now) }
{
    match primitive {
        Primitive::Havoc(_) => match havocs.first() {
            Some(Havoc::Element(element)) => push_element(out, *element),
            _ => Ok(()),
        },
        Primitive::HavocRel(rel) => match havocs.first() {
            Some(Havoc::Tuples(tuples)) => {
                push_relation(alloc, out, structure, *rel, tuples.as_slice())
            }
            _ => Ok(()),
        },
        _ => Ok(()),
    }
}

#[tactic(auto, using(std::proofs::Common::append_assoc))]
fn push_havocs(
    alloc: Global,
    out: &mut Vec<u8>,
    checked: &Checked,
    path: &Path,
    structure: &Structure,
    havocs: &[Havoc],
) -> Mem<()>
    requires path { FitsPath (symbols checked.now.signature) path.now }
    requires structure { FitsStructure (symbols checked.now.signature) structure.now }
    ensures { OnOk result (out.new.items ≡ out.old.items ++ havocs_text structure.now path.now havocs.now) }
{
    let mut left = havocs;
    for primitive in path.primitives() {
        push_havoc(alloc, out, structure, primitive, left)?;
        left = havocs_after(primitive, left);
    }
    Ok(())
}

/// Adds the line of a path's havocs: the element of each variable, the table of each relation.
#[tactic(auto, using(std::proofs::Common::append_assoc), unfolding(crate::specs::HavocText::havoc_line))]
pub fn push_havoc_line(
    alloc: Global,
    out: &mut Vec<u8>,
    checked: &Checked,
    path: &Path,
    structure: &Structure,
    havocs: &[Havoc],
) -> Mem<()>
    requires path { FitsPath (symbols checked.now.signature) path.now }
    requires structure { FitsStructure (symbols checked.now.signature) structure.now }
    ensures { OnOk result (out.new.items ≡ out.old.items ++ havoc_line structure.now (Some path.now) havocs.now) }
{
    push_text(out, "  havoc:")?;
    push_havocs(alloc, out, checked, path, structure, havocs)?;
    push_text(out, "\n")?;
    Ok(())
}
