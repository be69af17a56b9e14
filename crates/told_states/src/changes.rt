// What differs between two structures of the same sizes.
ghost use Rattle.fol_sig.specs.Symbols.{FitsStructure, symbols};
ghost use Rattle.fol_sig.specs.SymbolTables.{HasSymbol};
ghost use Rattle.told_text.specs.Written.{Wrote};
ghost use Rattle.told_states.specs.Alike.{AreAlike};
ghost use Rattle.told_states.specs.ChangeText.{signed_text, moved_text, change_text, below_changes, changes_text};

use crate::cells::{OfCells, push_all_cells};
use crate::elements::{push_atom, push_label};
use crate::labels::Labels;
use fol_sig::{Sort, Structure, Symbol};
use rml_command::Model;
use std::alloc::Global;
use told_text::Text;

// A sign, and a symbol with its arguments.
#[tactic(auto, using(std::proofs::Common::append_assoc), unfolding(crate::specs::ChangeText::signed_text))]
fn push_signed(
    out: &mut Text,
    labels: &Labels,
    structure: &Structure,
    sign: &str,
    symbol: Symbol,
    tuple: &[u32],
)
    requires { HasSymbol structure.now symbol }
    ensures { Wrote out.old out.new (signed_text labels.now structure.now sign.now symbol tuple.now) }
{
    out.push_str(sign);
    push_atom(out, labels, structure, symbol, tuple);
    out.push_str("\n");
}

// An old and a new value.
#[tactic(auto, using(std::proofs::Common::append_assoc), unfolding(crate::specs::ChangeText::moved_text))]
fn push_moved(
    out: &mut Text,
    labels: &Labels,
    structure: &Structure,
    symbol: Symbol,
    tuple: &[u32],
    sort: Sort,
    old: u32,
    new: u32,
)
    requires { HasSymbol structure.now symbol }
    ensures { Wrote out.old out.new (moved_text labels.now structure.now symbol tuple.now sort.0 old new) }
{
    out.push_str("    ");
    push_atom(out, labels, structure, symbol, tuple);
    out.push_str(": ");
    push_label(out, labels, sort, old);
    out.push_str(" -> ");
    push_label(out, labels, sort, new);
    out.push_str("\n");
}

#[derive(Clone, Copy)]
struct Changes<'a> {
    labels: &'a Labels<'a>,
}

impl<'a> OfCells for Changes<'a> {
    ghost text = { λ c s t q xs. change_text c.labels.now s t q xs };

    // What a relation was, and what it is; or the value that a function had, and the one that it has.
    fn push(
        &self,
        _alloc: Global,
        out: &mut Text,
        here: &Structure,
        there: &Structure,
        symbol: Symbol,
        tuple: &[u32],
    ) {
        let labels = self.labels;
        match symbol {
            Symbol::Relation(rel) => match (here.rel(rel, tuple), there.rel(rel, tuple)) {
                (false, true) => push_signed(out, labels, here, "    + ", symbol, tuple),
                (true, false) => push_signed(out, labels, here, "    - ", symbol, tuple),
                _ => {}
            },
            Symbol::Function(fun) => {
                let old = here.fun(fun, tuple);
                let new = there.fun(fun, tuple);
                if old != new {
                    let sort = here.function_into(fun);
                    push_moved(out, labels, here, symbol, tuple, sort, old, new);
                }
            }
        }
    }
}

// A head over the lines, or that there are none.
#[tactic(auto, using(std::proofs::Common::append_assoc))]
fn push_below(out: &mut Text, lines: &[u8])
    ensures { Wrote out.old out.new (below_changes lines.now) }
{
    if lines.is_empty() {
        out.push_str("  changes nothing\n");
    } else {
        out.push_str("  changes\n");
        out.push_bytes(lines);
    }
}

/// Adds what has changed between two structures of the model.
pub fn push_changes(
    alloc: Global,
    out: &mut Text,
    model: &Model,
    before: &Structure,
    after: &Structure,
)
    requires structure { FitsStructure (symbols model.now.signature) before.now }
    requires alike { AreAlike before.now after.now }
    ensures { Wrote out.old out.new (changes_text model.now before.now after.now) }
{
    let Ok(labels) = Labels::of(alloc, model, before) else {
        out.want();
        return;
    };
    let told = Changes { labels: &labels };
    let mut lines = Text::new(alloc);
    push_all_cells(alloc, &mut lines, &told, model, before, after);
    out.needs(&lines);
    push_below(out, lines.as_bytes());
}
