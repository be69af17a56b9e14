// Relations and functions, and their tuples.
ghost use Rattle.std.specs.Prelude.{◌≡◌, [], ◌∷◌, ◌++◌, OnOk, IfOk};
ghost use Rattle.told_text.specs.Written.{Wrote};
ghost use Rattle.fol_sig.specs.Symbols.{FitsStructure, symbols};
ghost use Rattle.std.specs.List.{AllByRecursion};
ghost use Rattle.fol_sig.specs.Tuples.{join_below};
ghost use Rattle.fol_sig.specs.SymbolTables.{arguments_of, HasSymbol};
ghost use Rattle.told_states.specs.SymbolText.{symbol_name, is_variable};
ghost use Rattle.told_states.specs.SymbolText.{relation_symbol, function_symbol, symbols_of};

use crate::names::push_name;
use base::Mem;
use fol_sig::{FunId, RelId, Sort, Structure, Symbol};
use rml_command::{Model, Names};
use std::alloc::Global;
use told_text::Text;

/// Whether it is a function without arguments.
pub fn is_variable(structure: &Structure, symbol: Symbol) -> bool
    requires { HasSymbol structure.now symbol }
    ensures { result ≡ is_variable symbol (arguments_of structure.now symbol) }
{
    match symbol {
        Symbol::Relation(_) => false,
        Symbol::Function(fun) => structure.function_sorts(fun).is_empty(),
    }
}

/// Adds the symbol's name.
pub fn push_symbol(out: &mut Text, names: &Names, symbol: Symbol)
    ensures { Wrote out.old out.new (symbol_name names.now symbol) }
{
    match symbol {
        Symbol::Relation(rel) => push_name(out, names.relations.as_slice(), rel.0),
        Symbol::Function(fun) => push_name(out, names.functions.as_slice(), fun.0),
    }
}

/// The sizes of a structure's sorts.
pub fn sizes(alloc: Global, model: &Model, structure: &Structure) -> Mem<Vec<u32>>
    requires { FitsStructure (symbols model.now.signature) structure.now }
    ensures { IfOk result (λ sizes. sizes.items ≡ structure.now.sizes) }
{
    let mut sizes = Vec::new(alloc);
    for sort in 0..model.signature().sorts() {
        sizes.push(structure.size(Sort(sort)))?;
    }
    Ok(sizes)
}

#[tactic(auto, using(std::proofs::Common::append_assoc))]
fn push_relations(symbols: &mut Vec<Symbol>, count: u32) -> Mem<()>
    ensures { OnOk result (symbols.new.items ≡ symbols.old.items ++ join_below count (λ r. relation_symbol r ∷ [])) }
{
    for rel in 0..count {
        symbols.push(Symbol::Relation(RelId(rel)))?;
    }
    Ok(())
}

#[tactic(auto, using(std::proofs::Common::append_assoc))]
fn push_functions(symbols: &mut Vec<Symbol>, count: u32) -> Mem<()>
    ensures { OnOk result (symbols.new.items ≡ symbols.old.items ++ join_below count (λ f. function_symbol f ∷ [])) }
{
    for fun in 0..count {
        symbols.push(Symbol::Function(FunId(fun)))?;
    }
    Ok(())
}

/// The symbols of a structure of the model: all relations in order, and then all functions.
pub fn all_symbols(alloc: Global, model: &Model, structure: &Structure) -> Mem<Vec<Symbol>>
    requires { FitsStructure (symbols model.now.signature) structure.now }
    ensures all { IfOk result (λ all. all.items ≡ symbols_of structure.now) }
    ensures known { IfOk result (λ all. AllByRecursion (HasSymbol structure.now) all.items) }
{
    let signature = model.signature();
    let mut all = Vec::new(alloc);
    push_relations(&mut all, signature.relation_count())?;
    push_functions(&mut all, signature.function_count())?;
    Ok(all)
}
