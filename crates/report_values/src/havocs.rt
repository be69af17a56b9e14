// The line of a path's havocs: the element of each variable, the table of each relation.
ghost use Rattle.std.specs.Prelude.{◌≡◌, ◌<◌, ◌≤◌, [], All, length, IfOk};
ghost use Rattle.fol_sig.specs.Tables.{numbers, relation_at, IsStructure};
ghost use Rattle.fol_sig.specs.Symbols.{FitsStructure, symbols};
ghost use Rattle.rml_command.specs.View.{primitive as primitive_view};
ghost use Rattle.rml_command.specs.Models.{FitsPath};
ghost use Rattle.rml_command.specs.Outcomes.{range_of};
ghost use Rattle.rml_command.specs.Trees.{havoc as havoc_tree, havoc_rel as havoc_rel_tree};
ghost use Rattle.rml_exec.specs.Steps.{CanUpdate};
ghost use Rattle.report_values.specs.ValueReading.{all_tuples};
ghost use Rattle.report_values.specs.HavocReading.{truth_at, member_in, members_at, set_at, table_at, entry_at};
ghost use Rattle.report_values.specs.HavocReading.{entries_in, entries_end};

use crate::cells::behind_bare;
use crate::elements::element_at;
use base::{Mem, Row};
use fol_sig::{FunId, RelId, Sort, Structure, Tuple, table_len, tuple_of_number};
use line_scan::Scan;
use rml_command::{Checked, Havoc, Path, Primitive};
use std::alloc::Global;

// `true` or `false`: the tuples of a relation without arguments.
fn truth_at<'a>(alloc: Global, scan: &Scan<'a>) -> Mem<Option<(Row<Tuple>, Scan<'a>)>>
    ensures { IfOk result (λ found. found ≡ truth_at scan.now) }
{
    let mut members = Row::new(alloc);
    if let Some(behind) = scan.behind_word("true") {
        members.push(Tuple::new(alloc))?;
        return Ok(Some((members, behind)));
    }
    match scan.behind_word("false") {
        None => Ok(None),
        Some(behind) => Ok(Some((members, behind))),
    }
}

// The tuple behind those that were read, where it stands in front.
fn take_member<'a>(
    mut members: Row<Tuple>,
    scan: Scan<'a>,
    tuple: Tuple,
) -> Mem<(Row<Tuple>, Scan<'a>)>
    ensures { IfOk result (λ next. next ≡ member_in tuple members scan.entry) }
{
    match behind_bare(&scan, tuple.as_slice()) {
        None => Ok((members, scan)),
        Some(behind) => {
            members.push(tuple)?;
            Ok((members, behind))
        }
    }
}

// The tuples of these sorts that stand there in order, and the brace.
fn members_at<'a>(
    alloc: Global,
    first: Scan<'a>,
    sizes: &[u32],
    sorts: &[Sort],
) -> Mem<Option<(Row<Tuple>, Scan<'a>)>>
    requires sorted { All (λ k. k < length sizes.now) (numbers sorts.now) }
    requires short { length sorts.now ≤ 8 }
    ensures { IfOk result (λ found. found ≡ members_at (all_tuples sizes.now (numbers sorts.now)) [] first.entry) }
{
    let mut scan = first;
    let mut members = Row::new(alloc);
    for number in 0..table_len(sizes, sorts)? {
        let tuple = tuple_of_number(alloc, sizes, sorts, number);
        let (more, behind) = take_member(members, scan, tuple)?;
        members = more;
        scan = behind;
    }
    match scan.behind_word("}") {
        None => Ok(None),
        Some(behind) => Ok(Some((members, behind))),
    }
}

// The table of a relation over these sorts.
fn set_at<'a>(
    alloc: Global,
    scan: &Scan<'a>,
    sizes: &[u32],
    sorts: &[Sort],
) -> Mem<Option<(Row<Tuple>, Scan<'a>)>>
    requires sorted { All (λ k. k < length sizes.now) (numbers sorts.now) }
    requires short { length sorts.now ≤ 8 }
    ensures { IfOk result (λ found. found ≡ set_at sizes.now (numbers sorts.now) scan.now) }
{
    if sorts.is_empty() {
        return truth_at(alloc, scan);
    }
    match scan.behind_word("{") {
        None => Ok(None),
        Some(first) => members_at(alloc, first, sizes, sorts),
    }
}

// A blank, and the table of a relation.
fn table_at<'a>(
    alloc: Global,
    scan: &Scan<'a>,
    structure: &Structure,
    sizes: &[u32],
    rel: RelId,
) -> Mem<Option<(Row<Tuple>, Scan<'a>)>>
    requires whole { IsStructure structure.now }
    requires sizes { sizes.now ≡ structure.now.sizes }
    requires known { rel.0 < length structure.now.relations }
    ensures { IfOk result (λ found. found ≡ table_at structure.now rel.0 scan.now) }
{
    let sorts = structure.relation_sorts(rel);
    match scan.behind_word(" ") {
        None => Ok(None),
        Some(table) => set_at(alloc, &table, sizes, sorts),
    }
}

// The element of a variable behind the entries that were read.
fn element_entry<'a>(
    entries: Row<Havoc>,
    scan: &Scan<'a>,
    structure: &Structure,
    variable: FunId,
) -> Mem<Option<(Row<Havoc>, Scan<'a>)>>
    requires { CanUpdate (havoc_tree variable.0) structure.now }
    ensures { IfOk result (λ found. found ≡ entry_at structure.now (havoc_tree variable.0) entries scan.now) }
{
    let mut entries = entries;
    let Some((element, behind)) = element_at(scan, structure, structure.function_into(variable))
    else {
        return Ok(None);
    };
    entries.push(Havoc::Element(element))?;
    Ok(Some((entries, behind)))
}

// The table of a relation behind the entries that were read.
fn table_entry<'a>(
    alloc: Global,
    entries: Row<Havoc>,
    scan: &Scan<'a>,
    structure: &Structure,
    sizes: &[u32],
    rel: RelId,
) -> Mem<Option<(Row<Havoc>, Scan<'a>)>>
    requires sizes { sizes.now ≡ structure.now.sizes }
    requires fits { CanUpdate (havoc_rel_tree rel.0) structure.now }
    ensures { IfOk result (λ found. found ≡ entry_at structure.now (havoc_rel_tree rel.0) entries scan.now) }
{
    let mut entries = entries;
    let Some((members, behind)) = table_at(alloc, scan, structure, sizes, rel)? else {
        return Ok(None);
    };
    entries.push(Havoc::Tuples(members))?;
    Ok(Some((entries, behind)))
}

// The entry that a step of the path asks for, behind those that were read.
fn entry_at<'a>(
    alloc: Global,
    entries: Row<Havoc>,
    scan: Scan<'a>,
    structure: &Structure,
    sizes: &[u32],
    primitive: &Primitive,
) -> Mem<Option<(Row<Havoc>, Scan<'a>)>>
    requires sizes { sizes.now ≡ structure.now.sizes }
    requires fits { CanUpdate (primitive_view primitive.now) structure.now }
    ensures { IfOk result (λ found. found ≡
        entry_at structure.now (primitive_view primitive.now) entries scan.entry) }
{
    match primitive {
        Primitive::Havoc(variable) => element_entry(entries, &scan, structure, *variable),
        Primitive::HavocRel(rel) => table_entry(alloc, entries, &scan, structure, sizes, *rel),
        _ => Ok(Some((entries, scan))),
    }
}

// The entries that the steps of the path ask for, and the end of the line.
fn entries_end(
    alloc: Global,
    first: Scan,
    checked: &Checked,
    path: &Path,
    structure: &Structure,
    sizes: &[u32],
) -> Mem<Option<Row<Havoc>>>
    requires path { FitsPath (symbols checked.now.signature) path.now }
    requires structure { FitsStructure (symbols checked.now.signature) structure.now }
    requires sizes { sizes.now ≡ structure.now.sizes }
    ensures { IfOk result (λ found. found ≡ entries_end structure.now path.now [] first.entry) }
{
    let mut scan = first;
    let mut entries = Row::new(alloc);
    for primitive in path.primitives() {
        let Some((more, behind)) = entry_at(alloc, entries, scan, structure, sizes, primitive)?
        else {
            return Ok(None);
        };
        entries = more;
        scan = behind;
    }
    if scan.ends() {
        Ok(Some(entries))
    } else {
        Ok(None)
    }
}

/// The entries of a path's havocs that the line gives.
pub fn entries_in(
    alloc: Global,
    line: &[u8],
    checked: &Checked,
    path: &Path,
    structure: &Structure,
    sizes: &[u32],
) -> Mem<Option<Row<Havoc>>>
    requires path { FitsPath (symbols checked.now.signature) path.now }
    requires structure { FitsStructure (symbols checked.now.signature) structure.now }
    requires sizes { sizes.now ≡ structure.now.sizes }
    ensures { IfOk result (λ found. found ≡ entries_in structure.now path.now line.now) }
{
    match Scan::new(line).behind_word("  havoc:") {
        None => Ok(None),
        Some(scan) => entries_end(alloc, scan, checked, path, structure, sizes),
    }
}
