// The structure in which an execution begins.
ghost use Rattle.std.specs.Prelude.{◌≡◌, length};
ghost use Rattle.fol_sig.specs.Tables.{IsStructure, size_at};
ghost use Rattle.fol_sig.specs.Symbols.{FitsStructure, symbols};
ghost use Rattle.fol_sig.specs.Tuples.{join_below};
ghost use Rattle.fol_sig.specs.SymbolTables.{HasSymbol};
ghost use Rattle.told_text.specs.Written.{Wrote};
ghost use Rattle.told_states.specs.Labels.{labels_of};
ghost use Rattle.told_states.specs.BeforeText.{cell_text, symbol_line, variable_text, structure_text, separator};
ghost use Rattle.told_states.specs.BeforeText.{sort_text, before_text};

use crate::cells::{OfCells, push_cells};
use crate::elements::{push_atom, push_label, push_line};
use crate::labels::Labels;
use crate::names::push_name;
use crate::symbols::{all_symbols, is_variable, sizes};
use fol_sig::{Sort, Structure, Symbol};
use rml_command::{Model, Names};
use std::alloc::Global;
use told_text::Text;

#[derive(Clone, Copy)]
struct Facts<'a> {
    labels: &'a Labels<'a>,
}

impl<'a> OfCells for Facts<'a> {
    ghost text = { λ f s t q xs. cell_text f.labels.now s q xs };

    // A comma, and a symbol with its arguments: a relation where it is true, a function with its value.
    #[tactic(auto, using(std::proofs::Common::append_assoc), unfolding(crate::specs::BeforeText::true_text))]
    fn push(
        &self,
        _alloc: Global,
        out: &mut Text,
        here: &Structure,
        _there: &Structure,
        symbol: Symbol,
        tuple: &[u32],
    ) {
        let labels = self.labels;
        match symbol {
            Symbol::Relation(rel) => {
                if here.rel(rel, tuple) {
                    out.push_str(", ");
                    push_atom(out, labels, here, symbol, tuple);
                }
            }
            Symbol::Function(fun) => {
                out.push_str(", ");
                push_atom(out, labels, here, symbol, tuple);
                out.push_str(" = ");
                push_label(out, labels, here.function_into(fun), here.fun(fun, tuple));
            }
        }
    }
}

// A symbol has a line of its own, or is told in the one of the variables.
#[tactic(auto, unfolding(crate::specs::BeforeText::symbol_line, crate::specs::BeforeText::variable_text))]
fn push_symbol(
    alloc: Global,
    out: &mut Text,
    variables: &mut Text,
    labels: &Labels,
    structure: &Structure,
    sizes: &[u32],
    symbol: Symbol,
)
    requires whole { IsStructure structure.now }
    requires sizes { sizes.now ≡ structure.now.sizes }
    requires known { HasSymbol structure.now symbol }
    ensures line { Wrote out.old out.new (symbol_line labels.now structure.now symbol) }
    ensures variable { Wrote variables.old variables.new (variable_text labels.now structure.now symbol) }
{
    let told = Facts { labels };
    let mut pieces = Text::new(alloc);
    push_cells(
        alloc,
        &mut pieces,
        &told,
        structure,
        structure,
        sizes,
        symbol,
    );
    if !is_variable(structure, symbol) {
        out.needs(&pieces);
        push_line(out, "    ", pieces.as_bytes());
    } else if !labels.is_called(symbol) {
        variables.needs(&pieces);
        variables.push_bytes(pieces.as_bytes());
    }
}

// A line for each symbol with arguments and each relation, and one for the variables.
#[tactic(auto, using(std::proofs::Common::append_assoc), unfolding(crate::specs::BeforeText::structure_text))]
fn push_structure(alloc: Global, out: &mut Text, model: &Model, structure: &Structure)
    requires { FitsStructure (symbols model.now.signature) structure.now }
    ensures { Wrote out.old out.new (structure_text (labels_of model.now structure.now) structure.now) }
{
    let Ok(labels) = Labels::of(alloc, model, structure) else {
        out.want();
        return;
    };
    let Ok(sizes) = sizes(alloc, model, structure) else {
        out.want();
        return;
    };
    let Ok(symbols) = all_symbols(alloc, model, structure) else {
        out.want();
        return;
    };
    let mut variables = Text::new(alloc);
    let mut rest = symbols.as_slice();
    while let [symbol, after @ ..] = rest {
        push_symbol(
            alloc,
            out,
            &mut variables,
            &labels,
            structure,
            &sizes,
            *symbol,
        );
        rest = after;
    }
    out.needs(&variables);
    push_line(out, "    ", variables.as_bytes());
}

fn push_separator(out: &mut Text, place: u32)
    ensures { Wrote out.old out.new (separator place) }
{
    if place == 0 {
        out.push_str(": ");
    } else {
        out.push_str(", ");
    }
}

#[tactic(auto, using(std::proofs::Common::append_assoc), unfolding(crate::specs::BeforeText::sort_text))]
fn push_sort(out: &mut Text, names: &Names, sort: u32, size: u32)
    ensures { Wrote out.old out.new (sort_text names.now sort size) }
{
    push_separator(out, sort);
    out.push_number(size as u64);
    out.push_str(" ");
    push_name(out, names.sorts.as_slice(), sort);
}

// How many elements each sort has.
fn push_sorts(out: &mut Text, model: &Model, structure: &Structure)
    requires { FitsStructure (symbols model.now.signature) structure.now }
    ensures { Wrote out.old out.new
        (join_below (length structure.now.sizes) (λ k. sort_text model.now.names k (size_at structure.now k))) }
{
    let names = model.names();
    for sort in 0..model.signature().sorts() {
        push_sort(out, names, sort, structure.size(Sort(sort)));
    }
}

/// Adds the line of the sorts, and a line for what is true.
#[tactic(auto, using(std::proofs::Common::append_assoc), unfolding(crate::specs::BeforeText::before_text))]
pub fn push_before(alloc: Global, out: &mut Text, model: &Model, structure: &Structure)
    requires { FitsStructure (symbols model.now.signature) structure.now }
    ensures { Wrote out.old out.new (before_text model.now structure.now) }
{
    out.push_str("  before");
    push_sorts(out, model, structure);
    out.push_str("\n");
    push_structure(alloc, out, model, structure);
}
