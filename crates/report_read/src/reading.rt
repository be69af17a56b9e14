// A whole report: the axioms, the groups, the verdict.
ghost use Rattle.std.specs.Prelude.{◌≡◌, ◌<◌, ◌^◌, length, IfOk, IfErr};
ghost use Rattle.base.specs.Because.{Because};
ghost use Rattle.line_scan.specs.Lines.{lines_of};
ghost use Rattle.fol_sig.specs.Tables.{IsSignature};
ghost use Rattle.rml_command.specs.Fragment.{IsChecked};
ghost use Rattle.printed_report.specs.PrintedReports.{IsPrintedReport, IsRead, IsUnread};
ghost use Rattle.report_read.specs.LineReading.{is_axioms_line, verdict_in};
ghost use Rattle.report_read.specs.Reading.{Reads, read_axioms, read_verdict, read_lines, read_nothing, read_all};
ghost use Rattle.report_read.specs.Reading.{ReadsText};
ghost use Rattle.report_read.specs.Laws.{IsReadBack};

use crate::groups::read_groups;
use crate::laws::reading_laws;
use crate::opening::is_axioms_line;
use crate::reader::Reader;
use base::Refused;
use line_scan::Scan;
use printed_report::{Printed, Unread};
use rml_command::Checked;
use rml_report::Verdict;
use std::alloc::Global;

fn verdict_in(line: &[u8]) -> Option<Verdict>
    ensures { result ≡ verdict_in line.now }
{
    let line = Scan::new(line);
    if line.is("verdict: inductive\n") {
        return Some(Verdict::Inductive);
    }
    if line.is("verdict: not inductive\n") {
        return Some(Verdict::NotInductive);
    }
    if line.is("verdict: undecided\n") {
        return Some(Verdict::Undecided);
    }
    None
}

fn read_axioms(reader: &mut Reader) -> Result<(), Refused<Unread>>
    ensures { Reads (read_axioms reader.old) reader.new result }
{
    if !is_axioms_line(reader.first()) {
        return Err(reader.unread());
    }
    reader.pass();
    Ok(())
}

fn read_verdict(reader: &mut Reader) -> Result<Verdict, Refused<Unread>>
    ensures { Reads (read_verdict reader.old) reader.new result }
{
    let Some(verdict) = verdict_in(reader.first()) else {
        return Err(reader.unread());
    };
    reader.pass();
    Ok(verdict)
}

fn read_lines(reader: &mut Reader, checked: &Checked) -> Result<Printed, Refused<Unread>>
    ensures { Reads (read_lines checked.now reader.old) reader.new result }
{
    read_axioms(reader)?;
    let groups = read_groups(reader, checked)?;
    match read_verdict(reader) {
        Ok(verdict) => Ok(Printed { verdict, groups }),
        Err(refused) => {
            drop(groups);
            Err(refused)
        }
    }
}

// Nothing is left.
fn read_nothing(reader: &mut Reader, printed: Printed) -> Result<Printed, Refused<Unread>>
    ensures { Reads (read_nothing printed reader.old) reader.new result }
{
    if reader.is_empty() {
        Ok(printed)
    } else {
        drop(printed);
        Err(reader.unread())
    }
}

fn read_all(reader: &mut Reader, checked: &Checked) -> Result<Printed, Refused<Unread>>
    ensures { Reads (read_all checked.now reader.old) reader.new result }
{
    let printed = read_lines(reader, checked)?;
    read_nothing(reader, printed)
}

// The lines of a text, of which none is passed yet.
fn read_text(alloc: Global, checked: &Checked, text: &[u8]) -> Result<Printed, Refused<Unread>>
    ensures { ReadsText checked.now (lines_of text.now) result }
{
    let mut reader = Reader::new(alloc, text);
    let printed = read_all(&mut reader, checked)?;
    Ok(printed)
}

// A model of which reports are read, and a text, which has not so many bytes.
fn check_given(checked: &Checked, text: &[u8])
    ensures checked { IsChecked checked.now }
    ensures signature { IsSignature checked.now.signature }
    ensures few { length text.now < 2 ^ 63 }
{
    let _sorts = checked.model().signature().sorts();
    let _len = text.len();
}

/// What a printed report of the model says, or the first line that no printed report has behind the lines before it.
pub fn read_report(
    alloc: Global,
    checked: &Checked,
    text: &[u8],
) -> Result<Printed, Refused<Unread>>
    ensures report { IfOk result (IsPrintedReport checked.now text.now) }
    ensures read { IfOk result (IsRead checked.now) }
    ensures unread { IfErr result (Because (λ u. IsUnread checked.now (lines_of text.now) u.line)) }
    ensures there { IsReadBack checked.now (lines_of text.now) result }
{
    check_given(checked, text);
    reading_laws();
    line_scan::line_laws();
    let read = read_text(alloc, checked, text);
    read
}
