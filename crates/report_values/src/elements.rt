// Elements, each behind a blank.
ghost use Rattle.std.specs.Prelude.{◌≡◌, ◌<◌, [], All, length, slice_index, IfOk};
ghost use Rattle.fol_sig.specs.Tables.{numbers};
ghost use Rattle.report_values.specs.ValueReading.{value_at, element_at, elements_end, elements_in};

use base::{Mem, Row};
use fol_sig::{Sort, Structure};
use line_scan::Scan;
use std::alloc::Global;

/// An element of this sort.
pub fn value_at<'a>(scan: &Scan<'a>, structure: &Structure, sort: Sort) -> Option<(u32, Scan<'a>)>
    requires { sort.0 < length structure.now.sizes }
    ensures { result ≡ value_at (slice_index structure.now.sizes sort.0) scan.now }
{
    let (value, behind) = scan.number()?;
    if value < structure.size(sort) as u64 {
        Some((value as u32, behind))
    } else {
        None
    }
}

/// A blank, and an element of this sort.
pub fn element_at<'a>(scan: &Scan<'a>, structure: &Structure, sort: Sort) -> Option<(u32, Scan<'a>)>
    requires { sort.0 < length structure.now.sizes }
    ensures { result ≡ element_at (slice_index structure.now.sizes sort.0) scan.now }
{
    let element = scan.behind_word(" ")?;
    value_at(&element, structure, sort)
}

// The elements of these sorts, and the end of the line.
fn elements_end(
    alloc: Global,
    first: Scan,
    structure: &Structure,
    sorts: &[Sort],
) -> Mem<Option<Row<u32>>>
    requires { All (λ k. k < length structure.now.sizes) (numbers sorts.now) }
    ensures { IfOk result (λ found. found ≡ elements_end structure.now.sizes (numbers sorts.now) [] first.entry) }
{
    let mut scan = first;
    let mut elements = Row::new(alloc);
    let mut rest = sorts;
    while let [sort, after @ ..] = rest {
        let Some((element, behind)) = element_at(&scan, structure, *sort) else {
            return Ok(None);
        };
        elements.push(element)?;
        scan = behind;
        rest = after;
    }
    if scan.ends() {
        Ok(Some(elements))
    } else {
        Ok(None)
    }
}

/// The elements of these sorts that stand in the line behind the word.
pub fn elements_in(
    alloc: Global,
    line: &[u8],
    word: &str,
    structure: &Structure,
    sorts: &[Sort],
) -> Mem<Option<Row<u32>>>
    requires { All (λ k. k < length structure.now.sizes) (numbers sorts.now) }
    ensures { IfOk result (λ found. found ≡
        elements_in structure.now.sizes (numbers sorts.now) word.now line.now) }
{
    match Scan::new(line).behind_word(word) {
        None => Ok(None),
        Some(scan) => elements_end(alloc, scan, structure, sorts),
    }
}
