// What is shown of a group that fails.
ghost use Rattle.std.specs.Prelude.{◌≡◌, ◌<◌, ◌≤◌, codes, All, length, slice_get, Some, IfOk, decimal};
ghost use Rattle.fol_sig.specs.Tables.{numbers};
ghost use Rattle.fol_sig.specs.Symbols.{FitsStructure, symbols};
ghost use Rattle.rml_command.specs.Goals.{HasAbout, IsGoal, stage_paths};
ghost use Rattle.rml_command.specs.Models.{FitsPath};
ghost use Rattle.rml_report.specs.Reports.{goal_at};
ghost use Rattle.line_scan.specs.Lines.{first_of};
ghost use Rattle.report_read.specs.Got.{one};
ghost use Rattle.report_values.specs.HavocReading.{entries_in};
ghost use Rattle.report_read.specs.LineReading.{path_end, path_in};
ghost use Rattle.report_read.specs.Reading.{Reads, read_words, read_path, read_least, read_opening};
ghost use Rattle.report_read.specs.Reading.{read_structure, read_elements, read_havoc, read_values};
ghost use Rattle.report_read.specs.Reading.{read_end_tables, read_after, read_abort, read_end, read_course};
ghost use Rattle.report_read.specs.Reading.{fails_of, read_execution, read_block};

use crate::goals::{is_goal, path_count};
use crate::opening::is_least_line;
use crate::reader::Reader;
use crate::tables::{cells_along, read_sizes, read_tables};
use crate::values::value_sorts;
use base::{Mem, Refused, Row};
use fol_sig::{Sort, Structure};
use line_scan::Scan;
use printed_report::{PrintedAnswer, Unread};
use report_values::{elements_in, entries_in};
use rml_command::{About, Checked, Goal, Havoc, Path, Stage};
use rml_exec::{Counterexample, Trace};
use std::alloc::Global;

// The line is these words.
fn read_words(reader: &mut Reader, words: &str) -> Result<(), Refused<Unread>>
    ensures { Reads (read_words words.now reader.old) reader.new result }
{
    if !Scan::new(reader.first()).is(words) {
        return Err(reader.unread());
    }
    reader.pass();
    Ok(())
}

// Behind a path, the number of paths and the end of the line.
fn path_end(scan: &Scan, path: u32, paths: u32) -> Option<u32>
    ensures { result ≡ path_end path paths scan.now }
{
    let number = scan.behind_word(" of ")?;
    let end = number.behind_decimal(paths as u64)?;
    if end.ends() { Some(path) } else { None }
}

// The path that the line names, which is a goal of the group.
fn path_in(line: &[u8], checked: &Checked, stage: Stage, about: About, paths: u32) -> Option<u32>
    ensures { result ≡ path_in checked.now (record { stage = stage; about = about }) paths line.now }
{
    let number = Scan::new(line).behind_word("  path ")?;
    let (path, behind) = number.number()?;
    if !is_goal(checked, stage, about, path) {
        return None;
    }
    path_end(&behind, path as u32, paths)
}

fn read_path(
    reader: &mut Reader,
    checked: &Checked,
    stage: Stage,
    about: About,
    paths: u32,
) -> Result<u32, Refused<Unread>>
    requires { HasAbout checked.now stage about }
    ensures reads { Reads (read_path checked.now (record { stage = stage; about = about }) paths reader.old)
        reader.new result }
    ensures goal { IfOk result (λ path. IsGoal checked.now
        (goal_at (record { stage = stage; about = about }) path)) }
{
    let Some(path) = path_in(reader.first(), checked, stage, about, paths) else {
        return Err(reader.unread());
    };
    reader.pass();
    Ok(path)
}

fn read_least(reader: &mut Reader, checked: &Checked) -> Result<(), Refused<Unread>>
    ensures { Reads (read_least checked.now reader.old) reader.new result }
{
    if !is_least_line(reader.first(), checked.model().names()) {
        return Err(reader.unread());
    }
    reader.pass();
    Ok(())
}

// The path, and the lines up to the structure.
fn read_opening(
    reader: &mut Reader,
    checked: &Checked,
    stage: Stage,
    about: About,
    paths: u32,
) -> Result<u32, Refused<Unread>>
    requires { HasAbout checked.now stage about }
    ensures reads { Reads (read_opening checked.now (record { stage = stage; about = about }) paths reader.old)
        reader.new result }
    ensures goal { IfOk result (λ path. IsGoal checked.now
        (goal_at (record { stage = stage; about = about }) path)) }
{
    let path = read_path(reader, checked, stage, about, paths)?;
    read_least(reader, checked)?;
    read_words(reader, "  before\n")?;
    Ok(path)
}

fn read_structure(reader: &mut Reader, checked: &Checked) -> Result<Structure, Refused<Unread>>
    ensures reads { Reads (read_structure checked.now reader.old) reader.new result }
    ensures fits { IfOk result (FitsStructure (symbols checked.now.signature)) }
{
    let sizes = read_sizes(reader, checked)?;
    let structure = read_tables(reader, checked, sizes.as_slice())?;
    Ok(structure)
}

// The elements of these sorts, behind the word.
fn read_elements(
    reader: &mut Reader,
    word: &str,
    structure: &Structure,
    sorts: &[Sort],
) -> Result<Row<u32>, Refused<Unread>>
    requires { All (λ k. k < length structure.now.sizes) (numbers sorts.now) }
    ensures { Reads (read_elements structure.now.sizes (numbers sorts.now) word.now reader.old) reader.new result }
{
    let Some(elements) = elements_in(reader.alloc(), reader.first(), word, structure, sorts)? else {
        return Err(reader.unread());
    };
    reader.pass();
    Ok(elements)
}

// The entries of the path's havocs.
fn read_entries(
    reader: &mut Reader,
    checked: &Checked,
    path: &Path,
    structure: &Structure,
    sizes: &[u32],
) -> Result<Row<Havoc>, Refused<Unread>>
    requires path { FitsPath (symbols checked.now.signature) path.now }
    requires structure { FitsStructure (symbols checked.now.signature) structure.now }
    requires sizes { sizes.now ≡ structure.now.sizes }
    ensures { Reads (one (entries_in structure.now path.now (first_of reader.old.lines)) reader.old) reader.new result }
{
    let Some(entries) = entries_in(
        reader.alloc(),
        reader.first(),
        checked,
        path,
        structure,
        sizes,
    )?
    else {
        return Err(reader.unread());
    };
    reader.pass();
    Ok(entries)
}

fn read_havoc(
    reader: &mut Reader,
    checked: &Checked,
    goal: &Goal,
    structure: &Structure,
) -> Result<Row<Havoc>, Refused<Unread>>
    requires goal { IsGoal checked.now goal.now }
    requires structure { FitsStructure (symbols checked.now.signature) structure.now }
    ensures { Reads (read_havoc checked.now goal.now structure.now reader.old) reader.new result }
{
    let path = checked.path(goal);
    let sizes = sizes_of(reader.alloc(), checked, structure)?;
    reader.take_room(cells_along(checked, &path, sizes.as_slice()))?;
    let entries = read_entries(reader, checked, &path, structure, sizes.as_slice())?;
    Ok(entries)
}

fn read_values(
    reader: &mut Reader,
    checked: &Checked,
    conjecture: u32,
    structure: &Structure,
) -> Result<Row<u32>, Refused<Unread>>
    requires known { conjecture < length checked.now.conjectures }
    requires structure { FitsStructure (symbols checked.now.signature) structure.now }
    ensures { Reads (read_values checked.now conjecture structure.now reader.old) reader.new result }
{
    let sorts = value_sorts(reader.alloc(), checked, conjecture)?;
    let values = read_elements(reader, "  values:", structure, sorts.as_slice())?;
    Ok(values)
}

/// How the shown path ends.
#[derive(Drop)]
pub struct End {
    pub after: Option<Structure>,
    pub values: Row<u32>,
}

fn sizes_of(alloc: Global, checked: &Checked, structure: &Structure) -> Mem<Row<u32>>
    requires { FitsStructure (symbols checked.now.signature) structure.now }
    ensures { IfOk result (λ sizes. sizes ≡ structure.now.sizes) }
{
    let mut sizes = Row::new(alloc);
    for sort in 0..checked.model().signature().sorts() {
        sizes.push(structure.size(Sort(sort)))?;
    }
    Ok(sizes)
}

// The tables behind `after`, with the sizes of the structure before.
fn read_end_tables(
    reader: &mut Reader,
    checked: &Checked,
    structure: &Structure,
) -> Result<Structure, Refused<Unread>>
    requires { FitsStructure (symbols checked.now.signature) structure.now }
    ensures { Reads (read_end_tables checked.now structure.now reader.old) reader.new result }
{
    read_words(reader, "  after\n")?;
    let sizes = sizes_of(reader.alloc(), checked, structure)?;
    let after = read_tables(reader, checked, sizes.as_slice())?;
    Ok(after)
}

// The end of a conjecture's path.
fn read_after(
    reader: &mut Reader,
    checked: &Checked,
    conjecture: u32,
    structure: &Structure,
) -> Result<End, Refused<Unread>>
    requires known { conjecture < length checked.now.conjectures }
    requires structure { FitsStructure (symbols checked.now.signature) structure.now }
    ensures { Reads (read_after checked.now conjecture structure.now reader.old) reader.new result }
{
    let after = read_end_tables(reader, checked, structure)?;
    match read_values(reader, checked, conjecture, structure) {
        Ok(values) => Ok(End {
            after: Some(after),
            values,
        }),
        Err(refused) => {
            drop(after);
            Err(refused)
        }
    }
}

fn read_abort(reader: &mut Reader) -> Result<End, Refused<Unread>>
    ensures { Reads (read_abort reader.old) reader.new result }
{
    read_words(reader, "  aborts\n")?;
    Ok(End {
        after: None,
        values: Row::new(reader.alloc()),
    })
}

fn read_end(
    reader: &mut Reader,
    checked: &Checked,
    stage: Stage,
    about: About,
    structure: &Structure,
) -> Result<End, Refused<Unread>>
    requires about { HasAbout checked.now stage about }
    requires structure { FitsStructure (symbols checked.now.signature) structure.now }
    ensures { Reads (read_end checked.now about structure.now reader.old) reader.new result }
{
    match about {
        About::Abort => read_abort(reader),
        About::Conjecture(conjecture) => read_after(reader, checked, conjecture, structure),
    }
}

/// The trace of the path, and how it ends.
#[derive(Drop)]
struct Course {
    havoc: Row<Havoc>,
    end: End,
}

// What stands behind the structure.
fn read_course(
    reader: &mut Reader,
    checked: &Checked,
    goal: &Goal,
    structure: &Structure,
) -> Result<Course, Refused<Unread>>
    requires goal { IsGoal checked.now goal.now }
    requires structure { FitsStructure (symbols checked.now.signature) structure.now }
    ensures { Reads (read_course checked.now goal.now structure.now reader.old) reader.new result }
{
    let havoc = read_havoc(reader, checked, goal, structure)?;
    let end = read_end(reader, checked, goal.stage, goal.about, structure)?;
    Ok(Course { havoc, end })
}

// What is shown of a group that fails.
fn fails_of(goal: &Goal, paths: u32, structure: Structure, course: Course) -> PrintedAnswer
    ensures { result ≡ fails_of
        (record { stage = goal.now.stage; about = goal.now.about }) paths goal.now.path structure
        course }
{
    PrintedAnswer::Fails {
        paths,
        shown: Counterexample {
            structure,
            trace: Trace {
                path: goal.path,
                havoc: course.havoc,
            },
            goal: *goal,
            values: course.end.values,
        },
        after: course.end.after,
    }
}

// The structure, the trace and the end.
fn read_execution(
    reader: &mut Reader,
    checked: &Checked,
    goal: &Goal,
    paths: u32,
) -> Result<PrintedAnswer, Refused<Unread>>
    requires goal { IsGoal checked.now goal.now }
    ensures { Reads (read_execution checked.now (record { stage = goal.now.stage; about = goal.now.about })
        paths goal.now.path reader.old) reader.new result }
{
    let structure = read_structure(reader, checked)?;
    match read_course(reader, checked, goal, &structure) {
        Ok(course) => Ok(fails_of(goal, paths, structure, course)),
        Err(refused) => {
            drop(structure);
            Err(refused)
        }
    }
}

/// The lines of a group that fails, behind its head.
pub fn read_block(
    reader: &mut Reader,
    checked: &Checked,
    stage: Stage,
    about: About,
) -> Result<PrintedAnswer, Refused<Unread>>
    requires { HasAbout checked.now stage about }
    ensures { Reads (read_block checked.now (record { stage = stage; about = about }) reader.old) reader.new result }
{
    let paths = path_count(checked, stage);
    let path = read_opening(reader, checked, stage, about, paths)?;
    let goal = Goal { stage, path, about };
    let answer = read_execution(reader, checked, &goal, paths)?;
    Ok(answer)
}
