// Whether a row is as expected: what its run leaves, or the runs on each prefix of one of its files.
use crate::running::{Actual, Cut, Program, run_on_disk, run_on_memory};
use base::{Mem, Refused};
use row_files::{Expected, Parsed, Prefixes, Report, Row};
use std::alloc::Global;

// How many statuses there are.
const STATUSES: usize = 8;

// The status of a text with a fault, and of a line that is not accepted.
const REFUSED: u8 = 4;

fn compare_words(
    alloc: Global,
    expected: &Expected,
    actual: &Actual,
    report: &mut Report,
) -> Mem<()> {
    let status = format!(in alloc; "{}", actual.status)?;
    let expected_status = match &expected.status {
        Some(status) => status.as_str(),
        None => "none",
    };
    report.compare(alloc, "status", expected_status, status.as_str())?;
    if let Some(outcome) = &expected.outcome {
        report.compare(alloc, "outcome", outcome.as_str(), actual.outcome)?;
    }
    if let Some(written) = &expected.written {
        report.compare(alloc, "written", written.as_str(), actual.written)?;
    }
    if let Some(loads) = &expected.loads {
        let (first, second) = actual.loads;
        let text = format!(in alloc; "{first} {second}")?;
        report.compare(alloc, "loads", loads.as_str(), text.as_str())?;
    }
    Ok(())
}

fn compare_all(alloc: Global, row: &Row, actual: &Actual, report: &mut Report) -> Mem<()> {
    compare_words(alloc, &row.expected, actual, report)?;
    report.compare_bytes(alloc, "out", &row.out.expected, actual.out.taken())?;
    report.compare_bytes(alloc, "err", &row.err.expected, actual.err.taken())?;
    if !actual.stands_in_text {
        report.compare(alloc, "place of the fault", "in the text", "behind it")?;
    }
    Ok(())
}

fn compare(alloc: Global, row: &Row, actual: &Actual) -> Parsed<Report> {
    let mut report = Report::new(alloc);
    match compare_all(alloc, row, actual, &mut report) {
        Ok(()) => Ok(report),
        Err(wanting) => {
            drop(report);
            Err(Refused::from(wanting))
        }
    }
}

// Whether a run ends with a report on one sink or with a line on the other, and a fault stands in its text.
fn is_answered(actual: &Actual) -> bool {
    let is_refused = actual.status == REFUSED;
    actual.stands_in_text
        && actual.written == "all"
        && actual.out.taken().is_empty() == is_refused
        && actual.err.taken().is_empty() == !is_refused
}

fn text_of(alloc: Global, counts: &[u64]) -> Mem<String> {
    let mut text = String::new(alloc);
    for (status, count) in counts.iter().enumerate() {
        if *count > 0 {
            let comma = if text.is_empty() { "" } else { ", " };
            let count = *count;
            text.push_str(format!(in alloc; "{comma}{status}: {count}")?.as_str())?;
        }
    }
    Ok(text)
}

// How the run of `ivycheck` on a front of a file ends, where it is answered.
fn status_on(alloc: Global, row: &Row, cut: Cut) -> Parsed<Option<u8>> {
    let actual = run_on_memory(alloc, Program::IvyCheck, row, Some(cut))?;
    let status = if is_answered(&actual) {
        Some(actual.status)
    } else {
        None
    };
    drop(actual);
    Ok(status)
}

// How often the runs on the proper prefixes of a file end with each status, up to the first prefix that is not
// answered.
#[derive(Drop)]
struct Counted {
    statuses: Vec<u64>,
    unanswered: Option<usize>,
}

// Counts the runs on the proper prefixes of this file, which has that length, and gives the first that is not answered.
fn count_into(
    alloc: Global,
    row: &Row,
    file: &str,
    length: usize,
    statuses: &mut [u64],
) -> Parsed<Option<usize>> {
    for end in 0..length {
        let Some(status) = status_on(alloc, row, Cut { file, end })? else {
            return Ok(Some(end));
        };
        if let Some(count) = statuses.get_mut(usize::from(status)) {
            *count = count.saturating_add(1);
        }
    }
    Ok(None)
}

fn count_statuses(alloc: Global, row: &Row, file: &str, length: usize) -> Parsed<Counted> {
    let mut statuses = vec![in alloc; 0u64; STATUSES]?;
    let unanswered = count_into(alloc, row, file, length, &mut statuses)?;
    Ok(Counted {
        statuses,
        unanswered,
    })
}

fn compare_prefixes(
    alloc: Global,
    prefixes: &Prefixes,
    counted: &Counted,
    report: &mut Report,
) -> Mem<()> {
    if let Some(end) = counted.unanswered {
        let actual = format!(in alloc; "not the prefix of {end} bytes")?;
        report.compare(alloc, "answered", "each prefix", actual.as_str())?;
    }
    let statuses = text_of(alloc, &counted.statuses)?;
    report.compare(
        alloc,
        "statuses",
        prefixes.statuses.as_str(),
        statuses.as_str(),
    )
}

fn judge_prefixes(alloc: Global, row: &Row, prefixes: &Prefixes) -> Parsed<Report> {
    let name = prefixes.file.as_str();
    let Some(file) = row.files.iter().find(|file| file.name.as_str() == name) else {
        return Err(Refused::For("a row has no file of this name"));
    };
    let counted = count_statuses(alloc, row, name, file.bytes.len())?;
    let mut report = Report::new(alloc);
    let compared = compare_prefixes(alloc, prefixes, &counted, &mut report);
    drop(counted);
    match compared {
        Ok(()) => Ok(report),
        Err(wanting) => {
            drop(report);
            Err(Refused::from(wanting))
        }
    }
}

/// Runs a row, and says how it differs from what is expected of it.
pub fn judge(alloc: Global, system: HostRuntime, program: Program, row: &Row) -> Parsed<Report> {
    if let Some(prefixes) = &row.prefixes {
        return judge_prefixes(alloc, row, prefixes);
    }
    let actual = if row.is_on_disk {
        run_on_disk(alloc, system, program, row)?
    } else {
        run_on_memory(alloc, program, row, None)?
    };
    let report = compare(alloc, row, &actual);
    drop(actual);
    report
}
