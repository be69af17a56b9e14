// What is so of tuples of elements.
ghost use Rattle.std.specs.Prelude.{◌≡◌, ◌∷◌, ◌++◌, [], IfOk};
ghost use Rattle.fol_sig.specs.Symbols.{FitsStructure, symbols};
ghost use Rattle.fol_sig.specs.SymbolTables.{IsCell};
ghost use Rattle.told_text.specs.Written.{Wrote};
ghost use Rattle.told_states.specs.Alike.{AreAlike};
ghost use Rattle.dot_graph.specs.EdgeText.{cell_text, edges_text};

use crate::lines::push_tuple;
use crate::row::Row;
use base::Mem;
use fol_sig::{FunId, RelId, Structure, Symbol};
use rml_command::{Model, Names};
use std::alloc::Global;
use told_states::{OfCells, push_all_cells};
use told_text::Text;

// The items, and one more behind them.
fn with_last<T: Copy>(alloc: Global, items: &[T], last: T) -> Mem<Vec<T>>
    ensures { IfOk result (λ all. all.items ≡ items.now ++ last ∷ []) }
{
    let mut all = Vec::new(alloc);
    all.extend_from_slice(items)?;
    all.push(last)?;
    Ok(all)
}

// The arguments of a function, and the value behind them.
fn push_mapped(
    alloc: Global,
    out: &mut Text,
    letter: &str,
    names: &Names,
    now: &Structure,
    other: &Structure,
    fun: FunId,
    tuple: &[u32],
)
    requires now { IsCell now.now (Symbol.Function fun) tuple.now }
    requires other { IsCell other.now (Symbol.Function fun) tuple.now }
    ensures { Wrote out.old out.new
        (cell_text letter.now names.now now.now other.now (Symbol.Function fun) tuple.now) }
{
    let value = now.fun(fun, tuple);
    let changed = value != other.fun(fun, tuple);
    let Ok(sorts) = with_last(alloc, now.function_sorts(fun), now.function_into(fun)) else {
        out.want();
        return;
    };
    let Ok(elements) = with_last(alloc, tuple, value) else {
        out.want();
        return;
    };
    let row = Row {
        letter,
        names,
        symbol: Symbol::Function(fun),
        at: tuple,
        changed,
    };
    push_tuple(out, &row, &sorts, &elements);
}

fn push_true(
    out: &mut Text,
    letter: &str,
    names: &Names,
    now: &Structure,
    other: &Structure,
    rel: RelId,
    tuple: &[u32],
)
    requires now { IsCell now.now (Symbol.Relation rel) tuple.now }
    requires other { IsCell other.now (Symbol.Relation rel) tuple.now }
    ensures { Wrote out.old out.new
        (cell_text letter.now names.now now.now other.now (Symbol.Relation rel) tuple.now) }
{
    if now.rel(rel, tuple) {
        let row = Row {
            letter,
            names,
            symbol: Symbol::Relation(rel),
            at: tuple,
            changed: !other.rel(rel, tuple),
        };
        push_tuple(out, &row, now.relation_sorts(rel), tuple);
    }
}

// What is drawn of each tuple, under the letter of the structure.
#[derive(Clone, Copy)]
struct Edges<'a> {
    letter: &'a str,
    names: &'a Names,
}

impl<'a> OfCells for Edges<'a> {
    ghost text = { λ e s t q xs. cell_text e.letter.now e.names.now s t q xs };

    fn push(
        &self,
        alloc: Global,
        out: &mut Text,
        here: &Structure,
        there: &Structure,
        symbol: Symbol,
        tuple: &[u32],
    ) {
        let letter = self.letter;
        let names = self.names;
        match symbol {
            Symbol::Relation(rel) => push_true(out, letter, names, here, there, rel, tuple),
            Symbol::Function(fun) => push_mapped(
                alloc, out, letter, names, here, there, fun, tuple,
            ),
        }
    }
}

/// Adds what is drawn of the tuples of all symbols.
pub fn push_edges(
    alloc: Global,
    out: &mut Text,
    letter: &str,
    model: &Model,
    now: &Structure,
    other: &Structure,
)
    requires structure { FitsStructure (symbols model.now.signature) now.now }
    requires alike { AreAlike now.now other.now }
    ensures { Wrote out.old out.new (edges_text letter.now model.now.names now.now other.now) }
{
    let edges = Edges {
        letter,
        names: model.names(),
    };
    push_all_cells(alloc, out, &edges, model, now, other);
}
