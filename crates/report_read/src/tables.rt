// The lines of a structure's sorts and tables.
ghost use Rattle.std.specs.Prelude.{◌≡◌, ◌<◌, ◌≤◌, [], All, length, IfOk};
ghost use Rattle.fol_sig.specs.Tables.{blank, relation_at, function_at, tuple_count, size_at, IsStructure};
ghost use Rattle.fol_sig.specs.Symbols.{FitsStructure, symbols};
ghost use Rattle.rml_command.specs.Models.{FitsPath};
ghost use Rattle.line_scan.specs.Scanning.{name_at};
ghost use Rattle.report_read.specs.LineReading.{size_end, size_in};
ghost use Rattle.report_read.specs.Reading.{Reads, read_sizes, read_truths, read_images, read_relations};
ghost use Rattle.report_read.specs.Reading.{read_functions, read_tables, AreSizes, HasTables};

use crate::opening::is_up_to;
use crate::reader::Reader;
use base::{Refused, Row};
use fol_sig::{FunId, RelId, Sort, Structure};
use line_scan::Scan;
use printed_report::Unread;
use report_values::{behind_labelled, truths_in, values_in};
use rml_command::{Checked, Name, Path, Primitive};

fn size_end(scan: &Scan) -> Option<u32>
    ensures { result ≡ size_end scan.now }
{
    let (size, behind) = scan.number()?;
    if is_up_to(1, size) && is_up_to(size, 100000) && behind.ends() {
        Some(size as u32)
    } else {
        None
    }
}

// The size that the line gives the sort of this number.
fn size_in(line: &[u8], names: &[Name], sort: u32) -> Option<u32>
    ensures { result ≡ size_in (name_at names.now sort) line.now }
{
    let scan = behind_labelled(line, "    sort ", names, sort, " ")?;
    size_end(&scan)
}

/// A line for each sort: their sizes.
pub fn read_sizes(reader: &mut Reader, checked: &Checked) -> Result<Row<u32>, Refused<Unread>>
    ensures reads { Reads (read_sizes checked.now.names 0 checked.now.signature.sorts [] reader.old) reader.new
        result }
    ensures sizes { IfOk result (λ sizes. AreSizes checked.now sizes) }
{
    let names = checked.model().names().sorts.as_slice();
    let mut sizes = Row::new(reader.alloc());
    for sort in 0..checked.model().signature().sorts() {
        let Some(size) = size_in(reader.first(), names, sort) else {
            return Err(reader.unread());
        };
        reader.pass();
        sizes.push(size)?;
    }
    Ok(sizes)
}

// How many tuples of elements of these sorts there are, as far as a number goes.
fn tuples_of(sizes: &[u32], sorts: &[Sort]) -> u64 {
    let mut count = 1u64;
    for sort in sorts {
        let size = match sizes.get(sort.0 as usize) {
            Some(size) => *size as u64,
            None => 0,
        };
        count = count.saturating_mul(size);
    }
    count
}

// How many cells the tables of a structure of these sizes have, as far as a number goes.
fn cells_of(checked: &Checked, sizes: &[u32]) -> u64 {
    let signature = checked.model().signature();
    let mut count = 0u64;
    for rel in 0..signature.relation_count() {
        count = count.saturating_add(tuples_of(sizes, signature.sorts_of(RelId(rel))));
    }
    for fun in 0..signature.function_count() {
        count = count.saturating_add(tuples_of(sizes, signature.from_of(FunId(fun))));
    }
    count
}

/// How many cells the tables have that a path's havocs give, as far as a number goes.
pub fn cells_along(checked: &Checked, path: &Path, sizes: &[u32]) -> u64
    requires { FitsPath (symbols checked.now.signature) path.now }
{
    let signature = checked.model().signature();
    let mut count = 0u64;
    for primitive in path.primitives() {
        if let Primitive::HavocRel(rel) = primitive {
            count = count.saturating_add(tuples_of(sizes, signature.sorts_of(*rel)));
        }
    }
    count
}

// The cells of a relation.
fn read_truths(
    reader: &mut Reader,
    checked: &Checked,
    sizes: &[u32],
    structure: &Structure,
    rel: RelId,
) -> Result<Row<bool>, Refused<Unread>>
    requires whole { IsStructure structure.now }
    requires sizes { sizes.now ≡ structure.now.sizes }
    requires known { rel.0 < length structure.now.relations }
    ensures reads { Reads (read_truths checked.now.names structure.now rel.0 reader.old) reader.new result }
    ensures full { IfOk result
        (λ cells. length cells ≡ tuple_count structure.now.sizes (relation_at structure.now rel.0).sorts) }
{
    let names = checked.model().names().relations.as_slice();
    let Some(cells) = truths_in(reader.alloc(), reader.first(), names, structure, sizes, rel)?
    else {
        return Err(reader.unread());
    };
    reader.pass();
    Ok(cells)
}

// The cells of a function.
fn read_images(
    reader: &mut Reader,
    checked: &Checked,
    sizes: &[u32],
    structure: &Structure,
    fun: FunId,
) -> Result<Row<u32>, Refused<Unread>>
    requires whole { IsStructure structure.now }
    requires sizes { sizes.now ≡ structure.now.sizes }
    requires known { fun.0 < length structure.now.functions }
    ensures reads { Reads (read_images checked.now.names structure.now fun.0 reader.old) reader.new result }
    ensures full { IfOk result
        (λ cells. length cells ≡ tuple_count structure.now.sizes (function_at structure.now fun.0).sorts) }
    ensures within { IfOk result
        (All (λ x. x < size_at structure.now (function_at structure.now fun.0).into)) }
{
    let names = checked.model().names().functions.as_slice();
    let Some(cells) = values_in(reader.alloc(), reader.first(), names, structure, sizes, fun)?
    else {
        return Err(reader.unread());
    };
    reader.pass();
    Ok(cells)
}

// A line for each relation.
fn read_relations(
    reader: &mut Reader,
    checked: &Checked,
    sizes: &[u32],
    blank: Structure,
) -> Result<Structure, Refused<Unread>>
    requires { HasTables checked.now sizes.now blank }
    ensures reads { Reads (read_relations checked.now.names 0 (length checked.now.signature.relations) blank
        reader.old) reader.new result }
    ensures fits { IfOk result (λ s. HasTables checked.now sizes.now s) }
{
    let mut structure = blank;
    for rel in 0..checked.model().signature().relation_count() {
        match read_truths(reader, checked, sizes, &structure, RelId(rel)) {
            Ok(cells) => structure.set_relation_cells(RelId(rel), cells.into_vec()),
            Err(refused) => {
                drop(structure);
                return Err(refused);
            }
        }
    }
    Ok(structure)
}

// A line for each function and variable.
fn read_functions(
    reader: &mut Reader,
    checked: &Checked,
    sizes: &[u32],
    partial: Structure,
) -> Result<Structure, Refused<Unread>>
    requires { HasTables checked.now sizes.now partial }
    ensures reads { Reads (read_functions checked.now.names 0 (length checked.now.signature.functions) partial
        reader.old) reader.new result }
    ensures fits { IfOk result (λ s. HasTables checked.now sizes.now s) }
{
    let mut structure = partial;
    for fun in 0..checked.model().signature().function_count() {
        match read_images(reader, checked, sizes, &structure, FunId(fun)) {
            Ok(cells) => structure.set_function_cells(FunId(fun), cells.into_vec()),
            Err(refused) => {
                drop(structure);
                return Err(refused);
            }
        }
    }
    Ok(structure)
}

/// A line for each relation, function and variable: the structure of these sizes that they give.
pub fn read_tables(
    reader: &mut Reader,
    checked: &Checked,
    sizes: &[u32],
) -> Result<Structure, Refused<Unread>>
    requires { AreSizes checked.now sizes.now }
    ensures reads { Reads (read_tables checked.now sizes.now reader.old) reader.new result }
    ensures fits { IfOk result (λ s. HasTables checked.now sizes.now s) }
{
    reader.take_room(cells_of(checked, sizes))?;
    let blank = Structure::new(reader.alloc(), checked.model().signature(), sizes)?;
    let partial = read_relations(reader, checked, sizes, blank)?;
    let structure = read_functions(reader, checked, sizes, partial)?;
    Ok(structure)
}
