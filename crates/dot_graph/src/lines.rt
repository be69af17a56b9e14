// The lines of nodes and edges.
ghost use Rattle.std.specs.Prelude.{◌+◌, ◌<◌, ◌^◌, length};
ghost use Rattle.fol_sig.specs.Tables.{numbers};
ghost use Rattle.told_text.specs.Written.{Wrote};
ghost use Rattle.told_states.specs.SymbolText.{symbol_name};
ghost use Rattle.dot_graph.specs.NodeText.{node_id};
ghost use Rattle.dot_graph.specs.EdgeText.{digits_text, symbol_id, hub_id, colour_text, edge_line, small_node};
ghost use Rattle.dot_graph.specs.RowText.{node_of, label_of, row_edge, row_node, row_places, row_hub, row_text};

use crate::row::{Label, Node, Row};
use fol_sig::{Sort, Symbol};
use told_states::push_symbol;
use told_text::Text;

/// Adds the node of an element.
#[tactic(auto, using(std::proofs::Common::append_assoc), unfolding(crate::specs::NodeText::node_id))]
pub fn push_node_id(out: &mut Text, letter: &str, sort: Sort, element: u32)
    ensures { Wrote out.old out.new (node_id letter.now sort.0 element) }
{
    out.push_str(letter);
    out.push_number(sort.0 as u64);
    out.push_str("_");
    out.push_number(element as u64);
}

// Adds the numbers, each behind a line.
#[tactic(auto, using(std::proofs::Common::append_assoc), unfolding(crate::specs::EdgeText::digits_text))]
fn push_digits(out: &mut Text, elements: &[u32])
    ensures { Wrote out.old out.new (digits_text elements.now) }
{
    let mut rest = elements;
    while let [element, after @ ..] = rest {
        out.push_str("_");
        out.push_number(*element as u64);
        rest = after;
    }
}

#[tactic(auto, using(std::proofs::Common::append_assoc))]
fn push_symbol_id(out: &mut Text, symbol: Symbol)
    ensures { Wrote out.old out.new (symbol_id symbol) }
{
    match symbol {
        Symbol::Relation(rel) => {
            out.push_str("r");
            out.push_number(rel.0 as u64);
        }
        Symbol::Function(fun) => {
            out.push_str("f");
            out.push_number(fun.0 as u64);
        }
    }
}

// Adds the small node of a tuple.
#[tactic(auto, using(std::proofs::Common::append_assoc), unfolding(crate::specs::EdgeText::hub_id))]
fn push_hub_id(out: &mut Text, row: &Row)
    ensures { Wrote out.old out.new (hub_id row.now.letter.now row.now.symbol row.now.at.now) }
{
    out.push_str(row.letter);
    push_symbol_id(out, row.symbol);
    push_digits(out, row.at);
}

fn push_node(out: &mut Text, row: &Row, node: Node)
    ensures { Wrote out.old out.new (node_of row.now.letter.now row.now.symbol row.now.at.now node) }
{
    match node {
        Node::Hub => push_hub_id(out, row),
        Node::Element(sort, element) => push_node_id(out, row.letter, sort, element),
    }
}

fn push_label(out: &mut Text, row: &Row, label: Label)
    ensures { Wrote out.old out.new (label_of row.now.names.now row.now.symbol label) }
{
    match label {
        Label::Name => push_symbol(out, row.names, row.symbol),
        Label::Place(place) => out.push_number(place),
    }
}

#[tactic(auto, unfolding(crate::specs::EdgeText::colour_text))]
fn push_colour(out: &mut Text, changed: bool)
    ensures { Wrote out.old out.new (colour_text changed) }
{
    if changed {
        out.push_str("color=red, fontcolor=red, ");
    }
}

#[tactic(auto, using(std::proofs::Common::append_assoc), unfolding(crate::specs::EdgeText::edge_line))]
fn push_edge(out: &mut Text, row: &Row, from: Node, to: Node, label: Label)
    ensures { Wrote out.old out.new
        (row_edge row.now.letter.now row.now.names.now row.now.symbol row.now.at.now row.now.changed from to label) }
{
    out.push_str("    ");
    push_node(out, row, from);
    out.push_str(" -> ");
    push_node(out, row, to);
    out.push_str(" [");
    push_colour(out, row.changed);
    out.push_str("label=<");
    push_label(out, row, label);
    out.push_str(">];\n");
}

#[tactic(auto, using(std::proofs::Common::append_assoc), unfolding(crate::specs::EdgeText::small_node))]
fn push_small_node(out: &mut Text, row: &Row)
    ensures { Wrote out.old out.new
        (row_node row.now.letter.now row.now.names.now row.now.symbol row.now.at.now row.now.changed) }
{
    out.push_str("    ");
    push_hub_id(out, row);
    out.push_str(" [");
    push_colour(out, row.changed);
    out.push_str("shape=box, label=<");
    push_symbol(out, row.names, row.symbol);
    out.push_str(">];\n");
}

// An edge from the small node to each element, the places from this one on.
#[tactic(auto, using(std::proofs::Common::append_assoc), unfolding(crate::specs::EdgeText::place_edges))]
fn push_places(out: &mut Text, row: &Row, place: u64, sorts: &[Sort], tuple: &[u32])
    requires { place + length sorts.now < 2 ^ 64 }
    ensures { Wrote out.old out.new (row_places row.now.letter.now row.now.symbol row.now.at.now row.now.changed
        place (numbers sorts.now) tuple.now) }
{
    match sorts.split_first() {
        None => {}
        Some((sort, later)) => match tuple.split_first() {
            None => {}
            Some((element, others)) => {
                let to = Node::Element(*sort, *element);
                push_edge(out, row, Node::Hub, to, Label::Place(place));
                push_places(out, row, place + 1, later, others);
            }
        },
    }
}

// A small node, and an edge to each element.
#[tactic(auto, using(std::proofs::Common::append_assoc), unfolding(crate::specs::EdgeText::hub_text))]
fn push_hub(out: &mut Text, row: &Row, sorts: &[Sort], tuple: &[u32])
    ensures { Wrote out.old out.new (row_hub row.now.letter.now row.now.names.now row.now.symbol row.now.at.now
        row.now.changed (numbers sorts.now) tuple.now) }
{
    // That their number is one of 63 bits is known where it is looked at.
    let _count = sorts.len();
    push_small_node(out, row);
    push_places(out, row, 1, sorts, tuple);
}

/// Adds what is drawn of a tuple of these sorts: of a function it has the value behind the arguments.
pub fn push_tuple(out: &mut Text, row: &Row, sorts: &[Sort], tuple: &[u32])
    ensures { Wrote out.old out.new (row_text row.now.letter.now row.now.names.now row.now.symbol row.now.at.now
        row.now.changed (numbers sorts.now) tuple.now) }
{
    match sorts.split_first() {
        None => push_small_node(out, row),
        Some((k, ks)) => match tuple.split_first() {
            None => {}
            Some((x, xs)) => match ks.split_first() {
                None => {}
                Some((j, js)) => match xs.split_first() {
                    None => {}
                    Some((y, _)) => {
                        if js.is_empty() {
                            let from = Node::Element(*k, *x);
                            push_edge(out, row, from, Node::Element(*j, *y), Label::Name);
                        } else {
                            push_hub(out, row, sorts, tuple);
                        }
                    }
                },
            },
        },
    }
}
