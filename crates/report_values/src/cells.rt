// The cells of relations and functions, as a line gives them.
ghost use Rattle.std.specs.Prelude.{◌≡◌, ◌<◌, ◌≤◌, ◌++◌, [], All, length, slice_index, codes, decimal, IfOk};
ghost use Rattle.fol_sig.specs.Tables.{numbers, relation_at, function_at, size_at, IsStructure};
ghost use Rattle.rml_report.specs.TableText.{more_text, listed_text, tuple_text, bare_text};
ghost use Rattle.line_scan.specs.Scanning.{behind, name_at};
ghost use Rattle.report_values.specs.ValueReading.{behind_labelled, all_tuples, tuple_in, truths_end};
ghost use Rattle.report_values.specs.ValueReading.{mapped_at, values_end};
ghost use Rattle.report_values.specs.ValueReading.{truth_end, relation_end, truths_in, variable_end, values_in};

use crate::elements::{element_at, value_at};
use base::{Mem, Row};
use fol_sig::{FunId, RelId, Sort, Structure, table_len, tuple_of_number};
use line_scan::Scan;
use rml_command::Name;
use std::alloc::Global;

/// Behind a name between two words.
pub fn behind_labelled<'a>(
    line: &'a [u8],
    before: &str,
    names: &[Name],
    number: u32,
    after: &str,
) -> Option<Scan<'a>>
    ensures { result ≡ behind_labelled before.now (name_at names.now number) after.now line.now }
{
    let name = Scan::new(line).behind_word(before)?;
    let word = name.behind_name(names, number)?;
    word.behind_word(after)
}

// Behind a comma and a number.
#[tactic(auto, using(crate::proofs::Scans::behind_append))]
fn behind_another<'a>(scan: &Scan<'a>, element: u32) -> Option<Scan<'a>>
    ensures { result ≡ behind (codes "," ++ decimal element) scan.now }
{
    let number = scan.behind_word(",")?;
    number.behind_decimal(element as u64)
}

// Behind a comma and each number.
fn behind_more<'a>(first: Scan<'a>, elements: &[u32]) -> Option<Scan<'a>>
    ensures { result ≡ behind (more_text elements.now) first.entry }
{
    let mut scan = first;
    let mut rest = elements;
    while let [element, after @ ..] = rest {
        let Some(next) = behind_another(&scan, *element) else {
            return None;
        };
        scan = next;
        rest = after;
    }
    Some(scan)
}

// Behind the numbers, with a comma between them.
#[tactic(auto, using(crate::proofs::Scans::behind_append))]
fn behind_listed<'a>(scan: Scan<'a>, elements: &[u32]) -> Option<Scan<'a>>
    ensures { result ≡ behind (listed_text elements.now) scan.entry }
{
    match elements.split_first() {
        None => Some(scan),
        Some((first, more)) => behind_more(scan.behind_decimal(*first as u64)?, more),
    }
}

/// Behind this tuple.
#[tactic(auto, using(crate::proofs::Scans::behind_append), unfolding(rml_report::specs::TableText::bare_text))]
pub fn behind_bare<'a>(scan: &Scan<'a>, tuple: &[u32]) -> Option<Scan<'a>>
    ensures { result ≡ behind (bare_text tuple.now) scan.now }
{
    let listed = scan.behind_word("(")?;
    let sign = behind_listed(listed, tuple)?;
    sign.behind_word(")")
}

// Behind a blank and this tuple.
#[tactic(auto, using(crate::proofs::Scans::behind_append), unfolding(rml_report::specs::TableText::tuple_text))]
fn behind_tuple<'a>(scan: &Scan<'a>, tuple: &[u32]) -> Option<Scan<'a>>
    ensures { result ≡ behind (tuple_text tuple.now) scan.now }
{
    let listed = scan.behind_word(" (")?;
    let sign = behind_listed(listed, tuple)?;
    sign.behind_word(")")
}

// Whether a tuple stands in front, and what is left behind it.
fn take_tuple<'a>(scan: Scan<'a>, tuple: &[u32]) -> (bool, Scan<'a>)
    ensures { result ≡ tuple_in tuple.now scan.entry }
{
    match behind_tuple(&scan, tuple) {
        None => (false, scan),
        Some(behind) => (true, behind),
    }
}

// The truth values at all tuples: a tuple that stands there is true.
fn truths_end(alloc: Global, first: Scan, sizes: &[u32], sorts: &[Sort]) -> Mem<Option<Row<bool>>>
    requires sorted { All (λ k. k < length sizes.now) (numbers sorts.now) }
    requires short { length sorts.now ≤ 8 }
    ensures { IfOk result (λ found. found ≡ truths_end (all_tuples sizes.now (numbers sorts.now)) [] first.entry) }
{
    let mut scan = first;
    let mut cells = Row::new(alloc);
    for number in 0..table_len(sizes, sorts)? {
        let tuple = tuple_of_number(alloc, sizes, sorts, number);
        let (truth, next) = take_tuple(scan, tuple.as_slice());
        cells.push(truth)?;
        scan = next;
    }
    if scan.ends() {
        Ok(Some(cells))
    } else {
        Ok(None)
    }
}

// A tuple, and the value there.
fn mapped_at<'a>(
    scan: &Scan<'a>,
    structure: &Structure,
    into: Sort,
    tuple: &[u32],
) -> Option<(u32, Scan<'a>)>
    requires { into.0 < length structure.now.sizes }
    ensures { result ≡ mapped_at (slice_index structure.now.sizes into.0) tuple.now scan.now }
{
    let arrow = behind_tuple(scan, tuple)?;
    let value = arrow.behind_word("->")?;
    value_at(&value, structure, into)
}

// The values at all tuples.
fn values_end(
    alloc: Global,
    first: Scan,
    structure: &Structure,
    sizes: &[u32],
    into: Sort,
    sorts: &[Sort],
) -> Mem<Option<Row<u32>>>
    requires sizes { sizes.now ≡ structure.now.sizes }
    requires into { into.0 < length structure.now.sizes }
    requires sorted { All (λ k. k < length sizes.now) (numbers sorts.now) }
    requires short { length sorts.now ≤ 8 }
    ensures { IfOk result (λ found. found ≡
        values_end (slice_index structure.now.sizes into.0) (all_tuples sizes.now (numbers sorts.now)) [] first.entry) }
{
    let mut scan = first;
    let mut cells = Row::new(alloc);
    for number in 0..table_len(sizes, sorts)? {
        let tuple = tuple_of_number(alloc, sizes, sorts, number);
        let Some((value, behind)) = mapped_at(&scan, structure, into, tuple.as_slice()) else {
            return Ok(None);
        };
        cells.push(value)?;
        scan = behind;
    }
    if scan.ends() {
        Ok(Some(cells))
    } else {
        Ok(None)
    }
}

// A blank, `true` or `false`, and the end of the line.
fn truth_end(alloc: Global, scan: &Scan) -> Mem<Option<Row<bool>>>
    ensures { IfOk result (λ found. found ≡ truth_end scan.now) }
{
    let truth = scan.is(" true\n");
    if !truth && !scan.is(" false\n") {
        return Ok(None);
    }
    let mut cells = Row::new(alloc);
    cells.push(truth)?;
    Ok(Some(cells))
}

// The cells of a relation over these sorts.
fn relation_end(alloc: Global, scan: Scan, sizes: &[u32], sorts: &[Sort]) -> Mem<Option<Row<bool>>>
    requires sorted { All (λ k. k < length sizes.now) (numbers sorts.now) }
    requires short { length sorts.now ≤ 8 }
    ensures { IfOk result (λ found. found ≡ relation_end sizes.now (numbers sorts.now) scan.entry) }
{
    if sorts.is_empty() {
        truth_end(alloc, &scan)
    } else {
        truths_end(alloc, scan, sizes, sorts)
    }
}

/// The cells that the line gives a relation.
pub fn truths_in(
    alloc: Global,
    line: &[u8],
    names: &[Name],
    structure: &Structure,
    sizes: &[u32],
    rel: RelId,
) -> Mem<Option<Row<bool>>>
    requires whole { IsStructure structure.now }
    requires sizes { sizes.now ≡ structure.now.sizes }
    requires known { rel.0 < length structure.now.relations }
    ensures { IfOk result (λ found. found ≡
        truths_in sizes.now (relation_at structure.now rel.0).sorts (name_at names.now rel.0) line.now) }
{
    let sorts = structure.relation_sorts(rel);
    match behind_labelled(line, "    relation ", names, rel.0, ":") {
        None => Ok(None),
        Some(scan) => relation_end(alloc, scan, sizes, sorts),
    }
}

// The value of a variable, and the end of the line.
fn variable_end(
    alloc: Global,
    scan: &Scan,
    structure: &Structure,
    into: Sort,
) -> Mem<Option<Row<u32>>>
    requires { into.0 < length structure.now.sizes }
    ensures { IfOk result (λ found. found ≡ variable_end (slice_index structure.now.sizes into.0) scan.now) }
{
    let Some((value, behind)) = element_at(scan, structure, into) else {
        return Ok(None);
    };
    if !behind.ends() {
        return Ok(None);
    }
    let mut cells = Row::new(alloc);
    cells.push(value)?;
    Ok(Some(cells))
}

/// The cells that the line gives a function or variable.
pub fn values_in(
    alloc: Global,
    line: &[u8],
    names: &[Name],
    structure: &Structure,
    sizes: &[u32],
    fun: FunId,
) -> Mem<Option<Row<u32>>>
    requires whole { IsStructure structure.now }
    requires sizes { sizes.now ≡ structure.now.sizes }
    requires known { fun.0 < length structure.now.functions }
    ensures { IfOk result (λ found. found ≡ values_in sizes.now (function_at structure.now fun.0).sorts
        (size_at structure.now (function_at structure.now fun.0).into) (name_at names.now fun.0) line.now) }
{
    let sorts = structure.function_sorts(fun);
    let into = structure.function_into(fun);
    if sorts.is_empty() {
        match behind_labelled(line, "    variable ", names, fun.0, ":") {
            None => Ok(None),
            Some(scan) => variable_end(alloc, &scan, structure, into),
        }
    } else {
        match behind_labelled(line, "    function ", names, fun.0, ":") {
            None => Ok(None),
            Some(scan) => {
                let cells = values_end(alloc, scan, structure, sizes, into, sorts)?;
                Ok(cells)
            }
        }
    }
}
