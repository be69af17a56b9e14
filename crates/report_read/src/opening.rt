// The line of the axioms, causes, and the line that says whether a structure is least.
ghost use Rattle.std.specs.Prelude.{◌≡◌, nat_le};
ghost use Rattle.report_read.specs.LineReading.{behind_number, behind_counted, behind_cause, ends};
ghost use Rattle.report_read.specs.LineReading.{is_axioms_line, is_stop, stops_at, stops_at_some};
ghost use Rattle.report_read.specs.LineReading.{is_stopped, is_least_line};

use line_scan::Scan;
use rml_command::{Name, Names};

fn behind_number<'a>(scan: &Scan<'a>) -> Option<Scan<'a>>
    ensures { result ≡ behind_number scan.now }
{
    let (_, behind) = scan.number()?;
    Some(behind)
}

// Behind a cause with a number.
fn behind_counted<'a>(scan: &Scan<'a>) -> Option<Scan<'a>>
    ensures { result ≡ behind_counted scan.now }
{
    if let Some(number) = scan.behind_word("terms ") {
        return behind_number(&number);
    }
    if let Some(number) = scan.behind_word("ground ") {
        return behind_number(&number);
    }
    let number = scan.behind_word("conflicts ")?;
    behind_number(&number)
}

// Behind any cause.
fn behind_cause<'a>(scan: &Scan<'a>) -> Option<Scan<'a>>
    ensures { result ≡ behind_cause scan.now }
{
    if let Some(behind) = scan.behind_word("formula") {
        return Some(behind);
    }
    behind_counted(scan)
}

// A cause with a number, and the end of the line.
fn is_counted_end(scan: &Scan) -> bool
    ensures { result ≡ ends (behind_counted scan.now) }
{
    match behind_counted(scan) {
        None => false,
        Some(behind) => behind.ends(),
    }
}

/// Any cause, and the end of the line.
pub fn is_cause_end(scan: &Scan) -> bool
    ensures { result ≡ ends (behind_cause scan.now) }
{
    match behind_cause(scan) {
        None => false,
        Some(behind) => behind.ends(),
    }
}

/// Whether the line is one of the axioms.
pub fn is_axioms_line(line: &[u8]) -> bool
    ensures { result ≡ is_axioms_line line.now }
{
    let line = Scan::new(line);
    if line.is("axioms: consistent\n") {
        return true;
    }
    if line.is("axioms: inconsistent\n") {
        return true;
    }
    match line.behind_word("axioms: undecided ") {
        None => false,
        Some(cause) => is_counted_end(&cause),
    }
}

/// Whether a number is at most another.
pub fn is_up_to(size: u64, most: u64) -> bool
    ensures { result ≡ nat_le size most }
{
    size <= most
}

// A number up to the most, and what stands behind it.
fn is_stop(scan: &Scan, most: u64) -> bool
    ensures { result ≡ is_stop most scan.now }
{
    let Some((size, behind)) = scan.number() else {
        return false;
    };
    if !is_up_to(size, most) {
        return false;
    }
    match behind.behind_word(" ") {
        None => false,
        Some(cause) => is_counted_end(&cause),
    }
}

fn stops_at(scan: &Scan, name: &Name, most: u64) -> bool
    ensures { result ≡ stops_at most scan.now name.now }
{
    let Some(behind) = scan.behind(name.as_slice()) else {
        return false;
    };
    match behind.behind_word(" ") {
        None => false,
        Some(stop) => is_stop(&stop, most),
    }
}

// Whether it stops at one of the names.
fn stops_at_some(scan: &Scan, names: &[Name], most: u64) -> bool
    ensures { result ≡ stops_at_some most names.now scan.now }
{
    let mut rest = names;
    while let [name, after @ ..] = rest {
        if stops_at(scan, name, most) {
            return true;
        }
        rest = after;
    }
    false
}

// Whether it stops at a sort or a relation.
fn is_stopped(scan: &Scan, names: &Names) -> bool
    ensures { result ≡ is_stopped names.now scan.now }
{
    if stops_at_some(scan, names.sorts.as_slice(), 100000) {
        return true;
    }
    match scan.behind_word("relation ") {
        None => false,
        Some(stop) => stops_at_some(&stop, names.relations.as_slice(), 18446744073709551615),
    }
}

/// Whether the line says that the structure is least, or where the search stopped.
pub fn is_least_line(line: &[u8], names: &Names) -> bool
    ensures { result ≡ is_least_line names.now line.now }
{
    let line = Scan::new(line);
    if line.is("  least: yes\n") {
        return true;
    }
    match line.behind_word("  least: stopped ") {
        None => false,
        Some(stop) => is_stopped(&stop, names),
    }
}
