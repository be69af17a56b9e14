// A structure.
ghost use Rattle.std.specs.Prelude.{◌≡◌, ◌<◌, length, IfOk, IsOkAnd};
ghost use Rattle.fol_sig.specs.Tables.{IsStructure};
ghost use Rattle.fol_sig.specs.Symbols.{FitsStructure, symbols};
ghost use Rattle.fol_sig.specs.SymbolTables.{HasSymbol, IsCell};
ghost use Rattle.told_states.specs.SymbolText.{relation_symbol};
ghost use Rattle.json_values.specs.Values.{IsListedBy, list_data};
ghost use Rattle.json_outcome.specs.GroupData.{name_data};
ghost use Rattle.json_outcome.specs.StructureData.{value_data, cell_data, cells_data, symbol_data, sort_data};
ghost use Rattle.json_outcome.specs.StructureData.{count_of, item_data, items_data, structure_data};
ghost use Rattle.json_outcome.specs.StructureData.{member_data, members_data};

use crate::group::name_value;
use base::Mem;
use fol_sig::{FunId, RelId, Sort, Structure, Symbol, Tuple, each_tuple};
use json_values::{Json, JsonList, ObjectBuilder, numbers};
use rml_command::{Model, Name, Names};
use std::alloc::Global;
use told_states::{has_tuple, sizes};

/// What a structure has a list of.
#[derive(Clone, Copy)]
pub enum Listed {
    Sorts,
    Relations,
    Functions,
}

// A tuple, with the value of a function there.
#[tactic(auto, unfolding(crate::specs::StructureData::value_data))]
fn value_at(alloc: Global, tuple: &[u32], value: u32) -> Mem<Json>
    ensures { IfOk result (λ j. j ≡ value_data tuple.now value) }
{
    ObjectBuilder::new(alloc)
        .with("at", numbers(alloc, tuple))
        .with_number("is", value as u64)
        .into_json()
}

// Adds what is told of a cell: the tuple, if the relation is true of it, or the tuple with the function's value.
fn push_cell(
    alloc: Global,
    list: &mut JsonList,
    structure: &Structure,
    symbol: Symbol,
    tuple: &[u32],
)
    requires { IsCell structure.now symbol tuple.now }
    ensures { IsListedBy list.old (cell_data structure.now symbol tuple.now) list.new }
{
    match symbol {
        Symbol::Relation(rel) => {
            if structure.rel(rel, tuple) {
                list.push(numbers(alloc, tuple));
            }
        }
        Symbol::Function(fun) => {
            list.push(value_at(alloc, tuple, structure.fun(fun, tuple)));
        }
    }
}

// What is told of the cells of a symbol.
fn cells(alloc: Global, structure: &Structure, sizes: &[u32], symbol: Symbol) -> Mem<Json>
    requires whole { IsStructure structure.now }
    requires sizes { sizes.now ≡ structure.now.sizes }
    requires known { HasSymbol structure.now symbol }
    ensures { IfOk result (λ j. j ≡ list_data (cells_data structure.now symbol)) }
{
    let sorts = structure.arguments(symbol);
    let tuples = each_tuple(alloc, sizes, sorts)?;
    let mut list = JsonList::new(alloc);
    for tuple in tuples {
        push_cell(alloc, &mut list, structure, symbol, tuple.as_slice());
        drop(tuple);
    }
    list.into_json()
}

// Adds the tuple, if it is one of the given ones.
fn push_member(alloc: Global, list: &mut JsonList, given: &[Tuple], tuple: &[u32])
    ensures { IsListedBy list.old (member_data given.now tuple.now) list.new }
{
    if has_tuple(given, tuple) {
        list.push(numbers(alloc, tuple));
    }
}

/// The given tuples of a relation, each once and in lexicographic order.
pub fn members_value(
    alloc: Global,
    model: &Model,
    structure: &Structure,
    rel: RelId,
    given: &[Tuple],
) -> Mem<Json>
    requires structure { FitsStructure (symbols model.now.signature) structure.now }
    requires known { rel.0 < length structure.now.relations }
    ensures { IfOk result (λ j. j ≡ list_data (members_data structure.now (relation_symbol rel.0) given.now)) }
{
    let sizes = sizes(alloc, model, structure)?;
    let sorts = structure.relation_sorts(rel);
    let tuples = each_tuple(alloc, &sizes, sorts)?;
    let mut list = JsonList::new(alloc);
    for tuple in tuples {
        push_member(alloc, &mut list, given, tuple.as_slice());
        drop(tuple);
    }
    list.into_json()
}

// The symbol of this name and number, with what is told of its cells under the word.
#[tactic(auto, unfolding(crate::specs::StructureData::symbol_data))]
fn symbol_value(
    alloc: Global,
    names: &[Name],
    number: u32,
    word: &str,
    cells: Mem<Json>,
) -> Mem<Json>
    ensures { IfOk result (λ j. IsOkAnd cells (λ d. j ≡ symbol_data (name_data names.now number) word.now d)) }
{
    ObjectBuilder::new(alloc)
        .with(word, cells)
        .with("name", name_value(alloc, names, number))
        .into_json()
}

#[tactic(auto, unfolding(crate::specs::StructureData::sort_data))]
fn sort_value(alloc: Global, names: &Names, sort: u32, size: u32) -> Mem<Json>
    ensures { IfOk result (λ j. j ≡ sort_data names.now sort size) }
{
    ObjectBuilder::new(alloc)
        .with("name", name_value(alloc, names.sorts.as_slice(), sort))
        .with_number("size", size as u64)
        .into_json()
}

// The sort, relation or function of this number.
fn item_value(
    alloc: Global,
    names: &Names,
    structure: &Structure,
    sizes: &[u32],
    listed: Listed,
    number: u32,
) -> Mem<Json>
    requires whole { IsStructure structure.now }
    requires sizes { sizes.now ≡ structure.now.sizes }
    requires known { number < count_of structure.now listed }
    ensures { IfOk result (λ j. j ≡ item_data names.now structure.now listed number) }
{
    match listed {
        Listed::Sorts => sort_value(alloc, names, number, structure.size(Sort(number))),
        Listed::Relations => {
            let tuples = cells(alloc, structure, sizes, Symbol::Relation(RelId(number)));
            symbol_value(alloc, names.relations.as_slice(), number, "tuples", tuples)
        }
        Listed::Functions => {
            let values = cells(alloc, structure, sizes, Symbol::Function(FunId(number)));
            symbol_value(alloc, names.functions.as_slice(), number, "values", values)
        }
    }
}

// How many there are.
fn count(model: &Model, structure: &Structure, listed: Listed) -> u32
    requires { FitsStructure (symbols model.now.signature) structure.now }
    ensures { result ≡ count_of structure.now listed }
{
    let signature = model.signature();
    match listed {
        Listed::Sorts => signature.sorts(),
        Listed::Relations => signature.relation_count(),
        Listed::Functions => signature.function_count(),
    }
}

// The list of all sorts, relations or functions.
fn items_value(
    alloc: Global,
    model: &Model,
    structure: &Structure,
    sizes: &[u32],
    listed: Listed,
) -> Mem<Json>
    requires fits { FitsStructure (symbols model.now.signature) structure.now }
    requires sizes { sizes.now ≡ structure.now.sizes }
    ensures { IfOk result (λ j. j ≡ items_data model.now.names structure.now listed) }
{
    let names = model.names();
    let mut list = JsonList::new(alloc);
    for number in 0..count(model, structure, listed) {
        list.push(item_value(alloc, names, structure, sizes, listed, number));
    }
    list.into_json()
}

/// A structure of the model.
#[tactic(auto, unfolding(crate::specs::StructureData::structure_data))]
pub fn structure_value(alloc: Global, model: &Model, structure: &Structure) -> Mem<Json>
    requires { FitsStructure (symbols model.now.signature) structure.now }
    ensures { IfOk result (λ j. j ≡ structure_data model.now.names structure.now) }
{
    let sizes = sizes(alloc, model, structure)?;
    let sorts = items_value(alloc, model, structure, &sizes, Listed::Sorts);
    let relations = items_value(alloc, model, structure, &sizes, Listed::Relations);
    let functions = items_value(alloc, model, structure, &sizes, Listed::Functions);
    ObjectBuilder::new(alloc)
        .with("sorts", sorts)
        .with("relations", relations)
        .with("functions", functions)
        .into_json()
}
