// What is told of each cell of a structure's tables. The texts differ in what they say of a cell, so they share one
// walk.
ghost use Rattle.std.specs.Prelude.{◌≡◌, List, ℕ};
ghost use Rattle.fol_sig.specs.Tables.{Tables};
ghost use Rattle.fol_sig.specs.Symbols.{FitsStructure, symbols};
ghost use Rattle.told_states.specs.Alike.{AreAlike};
ghost use Rattle.fol_sig.specs.SymbolTables.{HasSymbol, IsCell};
ghost use Rattle.told_text.specs.Written.{Wrote};
ghost use Rattle.told_states.specs.SymbolText.{cells_text, all_cells};
ghost use Rattle.fol_sig.specs.declared.symbol.Symbol.{Symbol};

use crate::symbols::{all_symbols, sizes};
use fol_sig::{Structure, Symbol, each_tuple};
use rml_command::Model;
use std::alloc::Global;
use told_text::Text;

/// What is told of a cell of a structure, beside the same cell of another one.
pub trait OfCells {
    ghost text: { Self → Tables → Tables → Symbol → List ℕ → List ℕ };

    fn push(
        &self,
        alloc: Global,
        out: &mut Text,
        here: &Structure,
        there: &Structure,
        symbol: Symbol,
        tuple: &[u32],
    )
        requires here { IsCell here.now symbol tuple.now }
        requires there { IsCell there.now symbol tuple.now }
        ensures { Wrote out.old out.new (text self.now here.now there.now symbol tuple.now) };
}

/// Adds what is told of each cell of a symbol.
#[tactic(auto, using(std::proofs::Common::append_assoc))]
pub fn push_cells<T: OfCells>(
    alloc: Global,
    out: &mut Text,
    told: &T,
    here: &Structure,
    there: &Structure,
    sizes: &[u32],
    symbol: Symbol,
)
    requires alike { AreAlike here.now there.now }
    requires sizes { sizes.now ≡ here.now.sizes }
    requires known { HasSymbol here.now symbol }
    ensures { Wrote out.old out.new (cells_text here.now (T.text told.now here.now there.now) symbol) }
{
    let sorts = here.arguments(symbol);
    let Ok(tuples) = each_tuple(alloc, sizes, sorts) else {
        out.want();
        return;
    };
    for tuple in tuples {
        told.push(alloc, out, here, there, symbol, tuple.as_slice());
    }
}

/// Adds what is told of each cell of each symbol.
pub fn push_all_cells<T: OfCells>(
    alloc: Global,
    out: &mut Text,
    told: &T,
    model: &Model,
    here: &Structure,
    there: &Structure,
)
    requires structure { FitsStructure (symbols model.now.signature) here.now }
    requires alike { AreAlike here.now there.now }
    ensures { Wrote out.old out.new (all_cells here.now (T.text told.now here.now there.now)) }
{
    let Ok(sizes) = sizes(alloc, model, here) else {
        out.want();
        return;
    };
    let Ok(symbols) = all_symbols(alloc, model, here) else {
        out.want();
        return;
    };
    let mut rest = symbols.as_slice();
    while let [symbol, after @ ..] = rest {
        push_cells(alloc, out, told, here, there, &sizes, *symbol);
        rest = after;
    }
}
