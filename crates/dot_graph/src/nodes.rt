// The elements, in a frame for each sort.
ghost use Rattle.std.specs.Prelude.{◌≡◌, ◌<◌, length};
ghost use Rattle.std.specs.List.{AllByRecursion, flat_map};
ghost use Rattle.fol_sig.specs.Tables.{numbers, size_at};
ghost use Rattle.fol_sig.specs.Symbols.{FitsStructure, symbols};
ghost use Rattle.fol_sig.specs.Tuples.{join_below};
ghost use Rattle.rml_report.specs.Words.{name_at};
ghost use Rattle.fol_sig.specs.SymbolTables.{HasSymbol};
ghost use Rattle.told_text.specs.Written.{Wrote};
ghost use Rattle.told_states.specs.SymbolText.{symbols_of};
ghost use Rattle.told_states.specs.Alike.{AreAlike};
ghost use Rattle.dot_graph.specs.NodeText.{so_text, is_only, is_none, relation_mark, variable_mark};
ghost use Rattle.dot_graph.specs.NodeText.{symbol_mark, node_line, frame_head, sort_frame, frames_text};

use crate::lines::push_node_id;
use fol_sig::{FunId, RelId, Sort, Structure, Symbol};
use rml_command::{Model, Name, Names};
use std::alloc::Global;
use std::slice::from_ref;
use told_states::{all_symbols, push_element, push_labelled};
use told_text::Text;

// A line of a node's label for what is so here, red where it is not so there.
fn push_so(out: &mut Text, names: &[Name], k: u32, here: bool, there: bool)
    ensures { Wrote out.old out.new (so_text (name_at names.now k) here there) }
{
    if here {
        if there {
            push_labelled(out, "<br/>", names, k, "");
        } else {
            push_labelled(out, "<br/><font color='red'>", names, k, "</font>");
        }
    }
}

// Whether the one sort of these is this one.
fn is_only(sorts: &[Sort], sort: Sort) -> bool
    ensures { result ≡ is_only (numbers sorts.now) sort.0 }
{
    match sorts.split_first() {
        None => false,
        Some((first, others)) => others.is_empty() && first.0 == sort.0,
    }
}

fn is_none(sorts: &[Sort]) -> bool
    ensures { result ≡ is_none (numbers sorts.now) }
{
    sorts.is_empty()
}

fn push_relation_mark(
    out: &mut Text,
    names: &Names,
    now: &Structure,
    other: &Structure,
    sort: Sort,
    element: u32,
    rel: RelId,
)
    requires alike { AreAlike now.now other.now }
    requires known { rel.0 < length now.now.relations }
    requires element { element < size_at now.now sort.0 }
    ensures { Wrote out.old out.new (relation_mark names.now now.now other.now sort.0 element rel.0) }
{
    if is_only(now.relation_sorts(rel), sort) {
        let here = now.rel(rel, from_ref(&element));
        let there = other.rel(rel, from_ref(&element));
        push_so(out, names.relations.as_slice(), rel.0, here, there);
    }
}

fn push_variable_mark(
    out: &mut Text,
    names: &Names,
    now: &Structure,
    other: &Structure,
    sort: Sort,
    element: u32,
    fun: FunId,
)
    requires alike { AreAlike now.now other.now }
    requires known { fun.0 < length now.now.functions }
    ensures { Wrote out.old out.new (variable_mark names.now now.now other.now sort.0 element fun.0) }
{
    if is_none(now.function_sorts(fun)) && now.function_into(fun).0 == sort.0 {
        let nothing = Default::default();
        let here = element == now.fun(fun, nothing);
        let there = element == other.fun(fun, nothing);
        push_so(out, names.functions.as_slice(), fun.0, here, there);
    }
}

fn push_symbol_mark(
    out: &mut Text,
    names: &Names,
    now: &Structure,
    other: &Structure,
    sort: Sort,
    element: u32,
    symbol: Symbol,
)
    requires alike { AreAlike now.now other.now }
    requires known { HasSymbol now.now symbol }
    requires element { element < size_at now.now sort.0 }
    ensures { Wrote out.old out.new (symbol_mark names.now now.now other.now sort.0 element symbol) }
{
    match symbol {
        Symbol::Relation(rel) => push_relation_mark(out, names, now, other, sort, element, rel),
        Symbol::Function(fun) => push_variable_mark(out, names, now, other, sort, element, fun),
    }
}

fn push_marks(
    out: &mut Text,
    names: &Names,
    symbols: &[Symbol],
    now: &Structure,
    other: &Structure,
    sort: Sort,
    element: u32,
)
    requires alike { AreAlike now.now other.now }
    requires known { AllByRecursion (HasSymbol now.now) symbols.now }
    requires element { element < size_at now.now sort.0 }
    ensures { Wrote out.old out.new
        (flat_map (symbol_mark names.now now.now other.now sort.0 element) symbols.now) }
{
    let mut rest = symbols;
    while let [symbol, after @ ..] = rest {
        push_symbol_mark(out, names, now, other, sort, element, *symbol);
        rest = after;
    }
}

#[tactic(auto, using(std::proofs::Common::append_assoc), unfolding(crate::specs::NodeText::node_line))]
fn push_node(
    out: &mut Text,
    letter: &str,
    names: &Names,
    symbols: &[Symbol],
    now: &Structure,
    other: &Structure,
    sort: Sort,
    element: u32,
)
    requires alike { AreAlike now.now other.now }
    requires symbols { symbols.now ≡ symbols_of now.now }
    requires known { AllByRecursion (HasSymbol now.now) symbols.now }
    requires element { element < size_at now.now sort.0 }
    ensures { Wrote out.old out.new (node_line letter.now names.now now.now other.now sort.0 element) }
{
    out.push_str("      ");
    push_node_id(out, letter, sort, element);
    out.push_str(" [label=<");
    push_element(out, names, sort, element);
    push_marks(out, names, symbols, now, other, sort, element);
    out.push_str(">];\n");
}

fn push_nodes(
    out: &mut Text,
    letter: &str,
    names: &Names,
    symbols: &[Symbol],
    now: &Structure,
    other: &Structure,
    sort: Sort,
)
    requires alike { AreAlike now.now other.now }
    requires symbols { symbols.now ≡ symbols_of now.now }
    requires known { AllByRecursion (HasSymbol now.now) symbols.now }
    requires sort { sort.0 < length now.now.sizes }
    ensures { Wrote out.old out.new
        (join_below (size_at now.now sort.0) (node_line letter.now names.now now.now other.now sort.0)) }
{
    for element in 0..now.size(sort) {
        push_node(out, letter, names, symbols, now, other, sort, element);
    }
}

#[tactic(auto, using(std::proofs::Common::append_assoc), unfolding(crate::specs::NodeText::frame_head))]
fn push_frame_head(out: &mut Text, letter: &str, names: &Names, sort: u32)
    ensures { Wrote out.old out.new (frame_head letter.now names.now sort) }
{
    out.push_str("    subgraph cluster_");
    out.push_str(letter);
    out.push_number(sort as u64);
    push_labelled(
        out,
        " {\n      label=<",
        names.sorts.as_slice(),
        sort,
        ">;\n",
    );
}

// The elements of a sort.
#[tactic(auto, using(std::proofs::Common::append_assoc), unfolding(crate::specs::NodeText::sort_frame))]
fn push_frame(
    out: &mut Text,
    letter: &str,
    names: &Names,
    symbols: &[Symbol],
    now: &Structure,
    other: &Structure,
    sort: u32,
)
    requires alike { AreAlike now.now other.now }
    requires symbols { symbols.now ≡ symbols_of now.now }
    requires known { AllByRecursion (HasSymbol now.now) symbols.now }
    requires sort { sort < length now.now.sizes }
    ensures { Wrote out.old out.new (sort_frame letter.now names.now now.now other.now sort) }
{
    push_frame_head(out, letter, names, sort);
    push_nodes(out, letter, names, symbols, now, other, Sort(sort));
    out.push_str("    }\n");
}

/// Adds the elements of all sorts.
pub fn push_frames(
    alloc: Global,
    out: &mut Text,
    letter: &str,
    model: &Model,
    now: &Structure,
    other: &Structure,
)
    requires structure { FitsStructure (symbols model.now.signature) now.now }
    requires alike { AreAlike now.now other.now }
    ensures { Wrote out.old out.new (frames_text letter.now model.now.names now.now other.now) }
{
    let names = model.names();
    let Ok(symbols) = all_symbols(alloc, model, now) else {
        out.want();
        return;
    };
    for sort in 0..model.signature().sorts() {
        push_frame(out, letter, names, &symbols, now, other, sort);
    }
}
