// The conjectures that are dropped.
ghost use Rattle.std.specs.List.{AllByRecursion, flat_map};
ghost use Rattle.fol_sig.specs.Symbols.{symbols};
ghost use Rattle.rml_houdini.specs.HoudiniText.{CanRender};
ghost use Rattle.told_text.specs.Written.{Wrote};
ghost use Rattle.told_answers.specs.SubsetText.{drop_text};

use rml_command::Checked;
use rml_houdini::Dropped;
use std::alloc::Global;
use told_report::{InText, push_execution, push_path};
use told_states::{push_labelled, push_stage};
use told_text::Text;

// Which conjecture is dropped, by what, and the execution that breaks it.
#[tactic(auto, using(std::proofs::Common::append_assoc), unfolding(crate::specs::SubsetText::drop_text))]
fn push_drop<T: InText>(
    alloc: Global,
    out: &mut Text,
    checked: &Checked,
    source: &T,
    drop: &Dropped,
)
    requires source { T.is_over source.now (symbols checked.now.signature) }
    requires drop { CanRender checked.now drop.now }
    ensures { Wrote out.old out.new (drop_text checked.now (T.told source.now) drop.now) }
{
    let names = checked.model().names();
    let shown = &drop.shown;
    let stage = shown.goal.stage;
    let paths = checked.stage_paths(stage).len();
    push_labelled(
        out,
        "\ndrops ",
        names.conjectures.as_slice(),
        drop.conjecture,
        ": ",
    );
    push_stage(out, names, stage);
    out.push_str(" breaks it");
    push_path(out, shown.trace.path, paths as u64);
    push_execution(alloc, out, checked, source, shown.goal.about, shown);
}

/// Adds each drop with the execution that breaks the conjecture.
#[tactic(auto, using(std::proofs::Common::append_assoc))]
pub fn push_drops<T: InText>(
    alloc: Global,
    out: &mut Text,
    checked: &Checked,
    source: &T,
    drops: &[Dropped],
)
    requires source { T.is_over source.now (symbols checked.now.signature) }
    requires drops { AllByRecursion (CanRender checked.now) drops.now }
    ensures { Wrote out.old out.new (flat_map (drop_text checked.now (T.told source.now)) drops.now) }
{
    let mut rest = drops;
    while let [drop, after @ ..] = rest {
        push_drop(alloc, out, checked, source, drop);
        rest = after;
    }
}
