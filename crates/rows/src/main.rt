//! Runs rows of the whole programs (`ivy_run::run`, `view_run::view`) over files and sinks in memory, or over the
//! files of a folder: words and files, and what is to come out, to the byte. It says how each row differs that does.
//! The rows are data, so that a new one needs no proof. They show what no clause can: that the definitions are the
//! language that docs/LANGUAGE.md and docs/FORMATS.md describe. Proved is that the program is safe, and that it does
//! not call two words or texts the same that differ (`compare` and `compare_bytes` of `row_files`); not that it reads
//! the rows as their format says.
//!
//! Each word of the command line names a file of rows; the head of data/rows.txt says their format. The files behind
//! the word `ivyview` are rows of that program. In the files behind the word `differ` each row has to differ: they
//! show that this program tells, since what it says of them is compared.
//!
//! - `rows.txt`: texts with the line of their fault (each code from F1 to F20; which one comes first where two meet;
//!   the limits of a name's length, of nesting, of names and of paths from both sides), reports of models that are
//!   decided and of models that are not, logs that are accepted, refused and faulty, each prefix of a model, of a
//!   formula and of a log, words that are no command line, files that are missing, that fail, that are as long as may
//!   be or a byte longer, and sinks that fail or have no room.
//! - `examples.txt`: the report of each file of examples/. `prefixes.txt`: how many of the prefixes of each end with
//!   which status. `samples.txt`: each sample that can be made.
//! - `views.txt`: rows of `ivyview`, one at least for each outcome in each form.
//! - `wrong.txt`: each row is wrong in one thing.
//!
//! By hand: `rt run -- data/rows.txt differ data/wrong.txt`. Want of memory at a given allocation is not a row: `rt try
//! --fail-alloc N` on a file of one row refuses the Nth, and the row says what came instead. Not shown elsewhere by
//! themselves are `witness`, `structure_back`, `rml_report` and `verdicts`, whose answers are in the reports here, and
//! `MemFiles`, `MemSink` and `command_line`, which are called here.
#![tactic(auto)]

mod judging;
mod running;
mod viewing;

use base::Refused;
use judging::judge;
use row_files::{Report, Row, Text, read_rows};
use running::Program;
use std::alloc::Global;
use std::process::ExitCode;
use std::{env, fs, io};

// Says that a file of rows can't be used from this line on.
fn complain(
    rt: &impl Print,
    name: &str,
    line: u64,
    cause: Refused<&'static str>,
) -> io::Result<()> {
    let cause = match cause {
        Refused::NoMemory => "no memory",
        Refused::For(cause) => cause,
    };
    println!(rt; "{name}, line {line}: {cause}")
}

fn tell_report(rt: &impl Print, name: &str, row: &Row, report: &Report) -> io::Result<bool> {
    if !report.is_well {
        let (line, title) = (row.line, row.title.as_str());
        let lines = report.lines.as_str();
        print!(rt; "{name}, line {line}: {title}\n{lines}")?;
    }
    Ok(report.is_well)
}

/// A file of rows: its name, for which program they are, and whether each has to differ.
#[derive(Clone, Copy)]
struct Rows<'a> {
    name: &'a str,
    program: Program,
    has_to_differ: bool,
}

// Says how a row differs, if it does.
fn tell_row(rt: HostRuntime, alloc: Global, of: Rows, row: &Row) -> io::Result<bool> {
    let name = of.name;
    match judge(alloc, rt, of.program, row) {
        Ok(report) => {
            let told = tell_report(&rt, name, row, &report);
            drop(report);
            told
        }
        Err(cause) => {
            complain(&rt, name, row.line, cause)?;
            Ok(false)
        }
    }
}

// Says which rows differ, and whether they are those that have to.
fn tell_rows(rt: HostRuntime, alloc: Global, of: Rows, rows: &[Row]) -> io::Result<bool> {
    let name = of.name;
    let count = rows.len();
    let mut differ = 0usize;
    for row in rows {
        if !tell_row(rt, alloc, of, row)? {
            differ = differ.saturating_add(1);
        }
    }
    println!(&rt; "{name}: {count} rows, {differ} differ")?;
    Ok(count > 0 && differ == if of.has_to_differ { count } else { 0 })
}

// Takes the files of the folder into memory of whose prefixes rows speak.
fn load_files(rt: HostRuntime, alloc: Global, rows: &mut [Row]) -> io::Result<()> {
    for row in rows {
        if row.is_on_disk {
            if let Some(name) = row.file_of_prefixes(alloc)? {
                let bytes = fs::read(&rt, name.as_str())?;
                row.files.push(Text { name, bytes })?;
            }
        }
    }
    Ok(())
}

fn tell_read(rt: HostRuntime, alloc: Global, of: Rows, rows: &mut [Row]) -> io::Result<bool> {
    load_files(rt, alloc, &mut *rows)?;
    tell_rows(rt, alloc, of, rows)
}

fn tell_file(rt: HostRuntime, alloc: Global, of: Rows) -> io::Result<bool> {
    let name = of.name;
    let text = fs::read_to_string(&rt, name)?;
    match read_rows(alloc, text.as_str()) {
        Ok(rows) => {
            let mut rows = rows;
            let told = tell_read(rt, alloc, of, &mut rows);
            drop(rows);
            told
        }
        Err((line, cause)) => {
            complain(&rt, name, line, cause)?;
            Ok(false)
        }
    }
}

fn tell_files(rt: HostRuntime) -> io::Result<bool> {
    let alloc = rt.alloc();
    let mut are_well = true;
    let mut program = Program::IvyCheck;
    let mut has_to_differ = false;
    for word in env::args(&rt)?.skip(1) {
        let name = word.as_str();
        match name {
            "ivycheck" => program = Program::IvyCheck,
            "ivyview" => program = Program::IvyView,
            "differ" => has_to_differ = true,
            _ => {
                let of = Rows {
                    name,
                    program,
                    has_to_differ,
                };
                are_well &= tell_file(rt, alloc, of)?;
            }
        }
    }
    Ok(are_well)
}

fn main(rt: HostRuntime) -> ExitCode {
    match tell_files(rt) {
        Ok(true) => ExitCode::SUCCESS,
        Ok(false) => ExitCode::FAILURE,
        Err(_) => {
            let _ = eprintln!(&rt; "a file can't be read, or the memory or the output fails");
            ExitCode::FAILURE
        }
    }
}
