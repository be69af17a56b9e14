// The tables of the functions: at classes the class of the application to their members.
ghost use Rattle.std.specs.Prelude.{◌≡◌, ◌<◌, ◌^◌, IfOk, OnOk, length, slice_index};
ghost use Rattle.fol_sig.specs.Symbols.{FitsStructure};
ghost use Rattle.fol_sig.specs.Tables.{tuple_count};
ghost use Rattle.fol_sig.specs.Tuples.{tuple_at};
ghost use Rattle.ground_terms.specs.Terms.{term_counts};
ghost use Rattle.ground_terms.specs.Universe.{symbols_in, names_in};
ghost use Rattle.structure_back.specs.Rows.{looked_up};
ghost use Rattle.structure_back.specs.Tables.{HaveMembers, value_at, AreCells, AreFunctionsRead};

use crate::classes::TermClasses;
use crate::relations::elements;
use base::Mem;
use fol_sig::{FunId, Structure, count_tuples, range_laws, tuple_laws, tuple_of_number};
use ground_terms::Herbrand;
use std::alloc::Global;

/// Gives each function its values at the classes.
pub fn set_functions(
    alloc: Global,
    universe: &Herbrand,
    classes: &TermClasses,
    structure: &mut Structure,
) -> Mem<()>
    requires classes { HaveMembers (symbols_in universe.now)
        (term_counts universe.now.terms.now) classes.now.sizes.items classes.now.numbers classes.now.members }
    requires fits { FitsStructure (symbols_in universe.now) structure.old }
    requires sizes { structure.old.sizes ≡ classes.now.sizes.items }
    ensures fits { OnOk result (FitsStructure (symbols_in universe.now) structure.new) }
    ensures sizes { OnOk result (structure.new.sizes ≡ structure.old.sizes) }
    ensures relations { OnOk result (structure.new.relations ≡ structure.old.relations) }
    ensures read { OnOk result
        (AreFunctionsRead (symbols_in universe.now) (names_in universe.now)
        (looked_up classes.now.numbers) (looked_up classes.now.members) structure.new) }
{
    tuple_laws();
    let _sorts = universe.signature.sorts();
    for f in 0..universe.signature.function_count() {
        let cells = function_cells(alloc, universe, classes, FunId(f))?;
        structure.set_function_cells(FunId(f), cells);
    }
    Ok(())
}

// The values of a function, tuple by tuple.
fn function_cells(
    alloc: Global,
    universe: &Herbrand,
    classes: &TermClasses,
    function: FunId,
) -> Mem<Vec<u32>>
    requires classes { HaveMembers (symbols_in universe.now)
        (term_counts universe.now.terms.now) classes.now.sizes.items classes.now.numbers classes.now.members }
    requires known { function.0 < length universe.now.signature.now.functions }
    ensures { IfOk result
        (λ cells. AreCells (symbols_in universe.now) (names_in universe.now) classes.now.sizes.items
        (looked_up classes.now.numbers) (looked_up classes.now.members) function.0 cells.items) }
{
    let _sorts = universe.signature.sorts();
    let count = count_tuples(&classes.sizes, universe.signature.from_of(function));
    // So many cells are there once the memory has room for them, and only then is each tuple known to have a number.
    let mut cells = vec![in alloc; 0u32; count]?;
    for number in 0..cells.len() {
        cells[number] = function_cell(alloc, universe, classes, function, number);
    }
    Ok(cells)
}

// The value of a function at the tuple with a number.
fn function_cell(
    alloc: Global,
    universe: &Herbrand,
    classes: &TermClasses,
    function: FunId,
    number: usize,
) -> u32
    requires classes { HaveMembers (symbols_in universe.now)
        (term_counts universe.now.terms.now) classes.now.sizes.items classes.now.numbers classes.now.members }
    requires known { function.0 < length universe.now.signature.now.functions }
    requires number { number < tuple_count classes.now.sizes.items ((symbols_in universe.now).from_of function.0) }
    requires room { tuple_count classes.now.sizes.items ((symbols_in universe.now).from_of function.0) < 2 ^ 63 }
    ensures value { result ≡ value_at (symbols_in universe.now) (names_in universe.now)
        (looked_up classes.now.numbers) (looked_up classes.now.members) function.0
        (tuple_at classes.now.sizes.items ((symbols_in universe.now).from_of function.0) number) }
    ensures within { result < slice_index classes.now.sizes.items ((symbols_in universe.now).into_of function.0) }
{
    range_laws();
    let _sorts = universe.signature.sorts();
    let sorts = universe.signature.from_of(function);
    let tuple = tuple_of_number(alloc, &classes.sizes, sorts, number);
    let members = elements(alloc, &classes.members, sorts, tuple.as_slice());
    let place = universe.place(function, members.as_slice());
    let into = universe.signature.into_of(function);
    classes.numbers.get(into, place)
}
