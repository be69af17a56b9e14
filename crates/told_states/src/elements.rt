// Elements, and symbols at tuples of them. An element of a listed sort is told by its name, each other one by the name
// of its sort and its number.
ghost use Rattle.fol_sig.specs.Tables.{numbers};
ghost use Rattle.fol_formula.specs.View.{form};
ghost use Rattle.rml_command.specs.Goals.{leading_sorts};
ghost use Rattle.fol_sig.specs.SymbolTables.{HasSymbol};
ghost use Rattle.told_text.specs.Written.{Wrote};
ghost use Rattle.told_states.specs.ElementText.{element_text, label_text, elements_text, arguments_text};
ghost use Rattle.told_states.specs.ElementText.{atom_text, line_text};

use crate::labels::Labels;
use crate::names::push_name;
use crate::symbols::push_symbol;
use fol_formula::Formula;
use fol_sig::{Sort, Structure, Symbol};
use rml_command::Names;
use told_text::Text;

/// Adds the name of the element's sort, and its number.
#[tactic(auto, using(std::proofs::Common::append_assoc), unfolding(crate::specs::ElementText::element_text))]
pub fn push_element(out: &mut Text, names: &Names, sort: Sort, element: u32)
    ensures { Wrote out.old out.new (element_text names.now sort.0 element) }
{
    push_name(out, names.sorts.as_slice(), sort.0);
    out.push_number(element as u64);
}

/// Adds what the element is called: its name, or where it has none the name of its sort and its number.
#[tactic(auto, unfolding(crate::specs::ElementText::label_text))]
pub fn push_label(out: &mut Text, labels: &Labels, sort: Sort, element: u32)
    ensures { Wrote out.old out.new (label_text labels.now sort.0 element) }
{
    let names = labels.names();
    match labels.name_of(sort, element) {
        None => push_element(out, names, sort, element),
        Some(name) => push_name(out, names.functions.as_slice(), name.0),
    }
}

// The elements of a tuple of these sorts, the first behind the word.
#[tactic(auto, using(std::proofs::Common::append_assoc), unfolding(crate::specs::ElementText::elements_text))]
fn push_elements(out: &mut Text, labels: &Labels, word: &str, sorts: &[Sort], elements: &[u32])
    ensures { Wrote out.old out.new (elements_text labels.now word.now (numbers sorts.now) elements.now) }
{
    if let Some((sort, sorts)) = sorts.split_first() {
        if let Some((element, others)) = elements.split_first() {
            out.push_str(word);
            push_label(out, labels, *sort, *element);
            push_elements(out, labels, ", ", sorts, others);
        }
    }
}

/// Adds the arguments in brackets; nothing where there are none.
#[tactic(auto, using(std::proofs::Common::append_assoc))]
pub fn push_arguments(out: &mut Text, labels: &Labels, sorts: &[Sort], elements: &[u32])
    ensures { Wrote out.old out.new (arguments_text labels.now (numbers sorts.now) elements.now) }
{
    if !sorts.is_empty() {
        push_elements(out, labels, "(", sorts, elements);
        out.push_str(")");
    }
}

/// Adds the symbol with its arguments.
#[tactic(auto, using(std::proofs::Common::append_assoc), unfolding(crate::specs::ElementText::atom_text))]
pub fn push_atom(
    out: &mut Text,
    labels: &Labels,
    structure: &Structure,
    symbol: Symbol,
    tuple: &[u32],
)
    requires { HasSymbol structure.now symbol }
    ensures { Wrote out.old out.new (atom_text labels.now structure.now symbol tuple.now) }
{
    push_symbol(out, labels.names(), symbol);
    push_arguments(out, labels, structure.arguments(symbol), tuple);
}

/// Adds the values of the leading quantifiers of a formula, the first behind the word.
#[tactic(auto, using(std::proofs::Common::append_assoc), unfolding(crate::specs::ElementText::elements_text))]
pub fn push_values(out: &mut Text, labels: &Labels, word: &str, formula: &Formula, values: &[u32])
    ensures { Wrote out.old out.new (elements_text labels.now word.now (leading_sorts (form formula.now)) values.now) }
{
    if let Formula::Forall(sort, body) = formula {
        if let Some((value, others)) = values.split_first() {
            out.push_str(word);
            push_label(out, labels, *sort, *value);
            push_values(out, labels, ", ", body, others);
        }
    }
}

/// Adds a line of pieces, each of which begins with a comma and a blank; no line for no piece.
#[tactic(auto, using(std::proofs::Common::append_assoc))]
pub fn push_line(out: &mut Text, word: &str, pieces: &[u8])
    ensures { Wrote out.old out.new (line_text word.now pieces.now) }
{
    if let [_, _, listed @ ..] = pieces {
        out.push_str(word);
        out.push_bytes(listed);
        out.push_str("\n");
    }
}
