// The lines of a structure's sorts and tables.
ghost use Rattle.std.specs.Prelude.{◌≡◌, ◌<◌, ◌++◌, [], length, OnOk, IfOk};
ghost use Rattle.fol_sig.specs.Tables.{IsStructure, numbers};
ghost use Rattle.fol_sig.specs.Symbols.{FitsStructure, symbols};
ghost use Rattle.fol_sig.specs.SymbolTables.{IsCell, HasSymbol};
ghost use Rattle.fol_sig.specs.Tuples.{join_below};
ghost use Rattle.rml_report.specs.Words.{name_at};
ghost use Rattle.rml_report.specs.TableText.{each_tuple, more_text, listed_text, tuple_text, cell_text, value_text};
ghost use Rattle.rml_report.specs.TableText.{values_text, symbol_label, symbol_line, relation_line};
ghost use Rattle.rml_report.specs.TableText.{function_line, tables_text, sort_line, sorts_text, EachTuple};

use crate::words::{push_labelled, push_truth};
use base::{Mem, push_number, push_text};
use fol_sig::{FunId, RelId, Sort, Structure, Symbol};
use rml_command::{Model, Names};
use std::alloc::Global;

// A comma and each number.
#[tactic(auto, using(std::proofs::Common::append_assoc), unfolding(crate::specs::TableText::more_text))]
fn push_more(out: &mut Vec<u8>, elements: &[u32]) -> Mem<()>
    ensures { OnOk result (out.new.items ≡ out.old.items ++ more_text elements.now) }
{
    let mut rest = elements;
    while let [element, after @ ..] = rest {
        push_text(out, ",")?;
        push_number(out, *element as u64)?;
        rest = after;
    }
    Ok(())
}

// The numbers, with a comma between them.
#[tactic(auto, using(std::proofs::Common::append_assoc))]
pub(crate) fn push_listed(out: &mut Vec<u8>, elements: &[u32]) -> Mem<()>
    ensures { OnOk result (out.new.items ≡ out.old.items ++ listed_text elements.now) }
{
    if let [first, more @ ..] = elements {
        push_number(out, *first as u64)?;
        push_more(out, more)?;
    }
    Ok(())
}

// A blank and a tuple.
#[tactic(auto, using(std::proofs::Common::append_assoc), unfolding(crate::specs::TableText::tuple_text))]
fn push_tuple(out: &mut Vec<u8>, tuple: &[u32]) -> Mem<()>
    ensures { OnOk result (out.new.items ≡ out.old.items ++ tuple_text tuple.now) }
{
    push_text(out, " (")?;
    push_listed(out, tuple)?;
    push_text(out, ")")?;
    Ok(())
}

// A tuple of a function, and the value there.
#[tactic(auto, using(std::proofs::Common::append_assoc))]
fn push_mapped(out: &mut Vec<u8>, structure: &Structure, fun: FunId, tuple: &[u32]) -> Mem<()>
    requires { IsCell structure.now (Symbol.Function fun) tuple.now }
    ensures { OnOk result (out.new.items ≡ out.old.items ++ cell_text structure.now (Symbol.Function fun) tuple.now) }
{
    push_tuple(out, tuple)?;
    push_text(out, "->")?;
    push_number(out, structure.fun(fun, tuple) as u64)?;
    Ok(())
}

fn push_cell(out: &mut Vec<u8>, structure: &Structure, symbol: Symbol, tuple: &[u32]) -> Mem<()>
    requires { IsCell structure.now symbol tuple.now }
    ensures { OnOk result (out.new.items ≡ out.old.items ++ cell_text structure.now symbol tuple.now) }
{
    match symbol {
        Symbol::Relation(rel) => {
            if structure.rel(rel, tuple) {
                push_tuple(out, tuple)
            } else {
                Ok(())
            }
        }
        Symbol::Function(fun) => push_mapped(out, structure, fun, tuple),
    }
}

// The cells at the tuples of these sorts behind the elements of `tuple`.
fn push_cells(
    alloc: Global,
    out: &mut Vec<u8>,
    structure: &Structure,
    symbol: Symbol,
    sorts: &[Sort],
    tuple: &mut Vec<u32>,
) -> Mem<()>
    requires { EachTuple structure.now.sizes (IsCell structure.now symbol) (numbers sorts.now) tuple.old.items }
    ensures text { OnOk result
        (out.new.items ≡ out.old.items ++ each_tuple structure.now.sizes (cell_text structure.now symbol)
        (numbers sorts.now) tuple.old.items) }
    ensures tuple { OnOk result (tuple.new.items ≡ tuple.old.items) }
{
    match sorts.split_first() {
        None => push_cell(out, structure, symbol, tuple)?,
        Some((sort, rest)) => {
            for element in 0..structure.size(*sort) {
                tuple.push(element)?;
                push_cells(alloc, out, structure, symbol, rest, tuple)?;
                tuple.pop();
            }
        }
    }
    Ok(())
}

fn push_value(out: &mut Vec<u8>, structure: &Structure, symbol: Symbol) -> Mem<()>
    requires { IsCell structure.now symbol [] }
    ensures { OnOk result (out.new.items ≡ out.old.items ++ value_text structure.now symbol) }
{
    match symbol {
        Symbol::Relation(rel) => push_truth(out, structure.rel(rel, &[])),
        Symbol::Function(fun) => push_number(out, structure.fun(fun, &[]) as u64),
    }
}

// The one value of a symbol without arguments, or a cell for each tuple.
#[tactic(auto, using(std::proofs::Common::append_assoc))]
fn push_values(
    alloc: Global,
    out: &mut Vec<u8>,
    structure: &Structure,
    symbol: Symbol,
    sorts: &[Sort],
) -> Mem<()>
    requires { EachTuple structure.now.sizes (IsCell structure.now symbol) (numbers sorts.now) [] }
    ensures { OnOk result (out.new.items ≡ out.old.items ++ values_text structure.now symbol (numbers sorts.now)) }
{
    if sorts.is_empty() {
        push_text(out, " ")?;
        push_value(out, structure, symbol)?;
    } else {
        let mut tuple = Vec::new(alloc);
        push_cells(alloc, out, structure, symbol, sorts, &mut tuple)?;
    }
    Ok(())
}

// The word and the name of a symbol.
fn push_symbol(out: &mut Vec<u8>, names: &Names, symbol: Symbol, sorts: &[Sort]) -> Mem<()>
    ensures { OnOk result (out.new.items ≡ out.old.items ++ symbol_label names.now symbol (numbers sorts.now)) }
{
    match symbol {
        Symbol::Relation(rel) => {
            push_labelled(out, "    relation ", names.relations.as_slice(), rel.0, ":")
        }
        Symbol::Function(fun) if sorts.is_empty() => {
            push_labelled(out, "    variable ", names.functions.as_slice(), fun.0, ":")
        }
        Symbol::Function(fun) => {
            push_labelled(out, "    function ", names.functions.as_slice(), fun.0, ":")
        }
    }
}

#[tactic(auto, using(std::proofs::Common::append_assoc), unfolding(crate::specs::TableText::symbol_line))]
fn push_symbol_line(
    alloc: Global,
    out: &mut Vec<u8>,
    names: &Names,
    structure: &Structure,
    symbol: Symbol,
) -> Mem<()>
    requires whole { IsStructure structure.now }
    requires known { HasSymbol structure.now symbol }
    ensures { OnOk result (out.new.items ≡ out.old.items ++ symbol_line names.now structure.now symbol) }
{
    let sorts = structure.arguments(symbol);
    push_symbol(out, names, symbol, sorts)?;
    push_values(alloc, out, structure, symbol, sorts)?;
    push_text(out, "\n")?;
    Ok(())
}

#[tactic(auto, using(std::proofs::Common::append_assoc))]
fn push_relations(
    alloc: Global,
    out: &mut Vec<u8>,
    names: &Names,
    count: u32,
    structure: &Structure,
) -> Mem<()>
    requires whole { IsStructure structure.now }
    requires count { count ≡ length structure.now.relations }
    ensures { OnOk result (out.new.items ≡ out.old.items ++ join_below count (relation_line names.now structure.now)) }
{
    for rel in 0..count {
        push_symbol_line(alloc, out, names, structure, Symbol::Relation(RelId(rel)))?;
    }
    Ok(())
}

#[tactic(auto, using(std::proofs::Common::append_assoc))]
fn push_functions(
    alloc: Global,
    out: &mut Vec<u8>,
    names: &Names,
    count: u32,
    structure: &Structure,
) -> Mem<()>
    requires whole { IsStructure structure.now }
    requires count { count ≡ length structure.now.functions }
    ensures { OnOk result (out.new.items ≡ out.old.items ++ join_below count (function_line names.now structure.now)) }
{
    for fun in 0..count {
        push_symbol_line(alloc, out, names, structure, Symbol::Function(FunId(fun)))?;
    }
    Ok(())
}

/// Adds a line for each relation, function and variable.
#[tactic(auto, using(std::proofs::Common::append_assoc), unfolding(crate::specs::TableText::tables_text))]
pub fn push_tables(
    alloc: Global,
    out: &mut Vec<u8>,
    model: &Model,
    structure: &Structure,
) -> Mem<()>
    requires { FitsStructure (symbols model.now.signature) structure.now }
    ensures { OnOk result (out.new.items ≡ out.old.items ++ tables_text model.now.names structure.now) }
{
    let signature = model.signature();
    let names = model.names();
    push_relations(alloc, out, names, signature.relation_count(), structure)?;
    push_functions(alloc, out, names, signature.function_count(), structure)?;
    Ok(())
}

/// The lines of a structure's tables, in the order of the declarations.
pub fn tables(alloc: Global, model: &Model, structure: &Structure) -> Mem<Vec<u8>>
    requires { FitsStructure (symbols model.now.signature) structure.now }
    ensures { IfOk result (λ text. text.items ≡ tables_text model.now.names structure.now) }
{
    let mut out = Vec::new(alloc);
    push_tables(alloc, &mut out, model, structure)?;
    Ok(out)
}

#[tactic(auto, using(std::proofs::Common::append_assoc), unfolding(crate::specs::TableText::sort_line))]
fn push_sort(out: &mut Vec<u8>, names: &Names, sort: u32, size: u32) -> Mem<()>
    ensures { OnOk result (out.new.items ≡ out.old.items ++ sort_line names.now sort size) }
{
    push_labelled(out, "    sort ", names.sorts.as_slice(), sort, " ")?;
    push_number(out, size as u64)?;
    push_text(out, "\n")?;
    Ok(())
}

/// Adds a line for each sort.
#[tactic(auto, using(std::proofs::Common::append_assoc))]
pub fn push_sorts(out: &mut Vec<u8>, model: &Model, structure: &Structure) -> Mem<()>
    requires { FitsStructure (symbols model.now.signature) structure.now }
    ensures { OnOk result (out.new.items ≡ out.old.items ++ sorts_text model.now.names structure.now) }
{
    let names = model.names();
    for sort in 0..model.signature().sorts() {
        push_sort(out, names, sort, structure.size(Sort(sort)))?;
    }
    Ok(())
}
