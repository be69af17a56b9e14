// The table that a relation takes, where its tuples are given in whatever order, and more than once or not.
ghost use Rattle.std.specs.Prelude.{◌≡◌, ◌<◌, length};
ghost use Rattle.fol_sig.specs.Symbols.{FitsStructure, symbols};
ghost use Rattle.fol_sig.specs.TupleSets as sets;
ghost use Rattle.told_text.specs.Written.{Wrote};
ghost use Rattle.told_states.specs.SymbolText.{relation_symbol};
ghost use Rattle.told_states.specs.TableText.{member_text, members_text, set_text};
ghost use Rattle.told_states.specs.TableText.{table_text};

use crate::cells::{OfCells, push_cells};
use crate::elements::push_arguments;
use crate::labels::Labels;
use crate::symbols::sizes;
use fol_sig::{RelId, Structure, Symbol, Tuple};
use rml_command::Model;
use std::alloc::Global;
use told_text::Text;

/// Whether a tuple is one of these.
pub fn has_tuple(tuples: &[Tuple], tuple: &[u32]) -> bool
    ensures { result ≡ sets.has_tuple tuples.now tuple.now }
{
    tuples.iter().any(|one| one.as_slice() == tuple)
}

// The tuples that are given.
#[derive(Clone, Copy)]
struct Members<'a> {
    labels: &'a Labels<'a>,
    tuples: &'a [Tuple],
}

impl<'a> OfCells for Members<'a> {
    ghost text = { λ m s t q xs. member_text m.labels.now m.tuples.now s q xs };

    // A comma, and the elements of a given tuple.
    #[tactic(auto, using(std::proofs::Common::append_assoc), unfolding(crate::specs::TableText::tuple_text))]
    fn push(
        &self,
        _alloc: Global,
        out: &mut Text,
        here: &Structure,
        _there: &Structure,
        symbol: Symbol,
        tuple: &[u32],
    ) {
        if has_tuple(self.tuples, tuple) {
            out.push_str(", ");
            push_arguments(out, self.labels, here.arguments(symbol), tuple);
        }
    }
}

// Pieces that begin with a comma, in braces.
#[tactic(auto, using(std::proofs::Common::append_assoc), unfolding(crate::specs::TableText::set_text))]
fn push_set(out: &mut Text, members: &[u8])
    ensures { Wrote out.old out.new (set_text members.now) }
{
    out.push_str("{");
    if let [_, _, listed @ ..] = members {
        out.push_bytes(listed);
    }
    out.push_str("}");
}

// The given tuples of a relation in lexicographic order, in braces.
fn push_members(
    alloc: Global,
    out: &mut Text,
    model: &Model,
    labels: &Labels,
    structure: &Structure,
    rel: RelId,
    tuples: &[Tuple],
)
    requires structure { FitsStructure (symbols model.now.signature) structure.now }
    requires known { rel.0 < length structure.now.relations }
    ensures { Wrote out.old out.new
        (set_text (members_text labels.now structure.now (relation_symbol rel.0) tuples.now)) }
{
    let Ok(sizes) = sizes(alloc, model, structure) else {
        out.want();
        return;
    };
    let symbol = Symbol::Relation(rel);
    let told = Members { labels, tuples };
    let mut found = Text::new(alloc);
    push_cells(
        alloc, &mut found, &told, structure, structure, &sizes, symbol,
    );
    out.needs(&found);
    push_set(out, found.as_bytes());
}

/// Adds the table of a relation that is true of these tuples: true or false where it has no arguments, else the tuples
/// in braces, each once and in lexicographic order.
pub fn push_table(
    alloc: Global,
    out: &mut Text,
    model: &Model,
    labels: &Labels,
    structure: &Structure,
    rel: RelId,
    tuples: &[Tuple],
)
    requires structure { FitsStructure (symbols model.now.signature) structure.now }
    requires known { rel.0 < length structure.now.relations }
    ensures { Wrote out.old out.new (table_text labels.now structure.now rel.0 tuples.now) }
{
    if !structure.relation_sorts(rel).is_empty() {
        push_members(alloc, out, model, labels, structure, rel, tuples);
    } else if has_tuple(tuples, &[]) {
        out.push_str("true");
    } else {
        out.push_str("false");
    }
}
