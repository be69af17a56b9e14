// The tuples of which a derived relation is true, and those of which it comes to be true or false.
ghost use Rattle.std.specs.Prelude.{◌≡◌};
ghost use Rattle.fol_sig.specs.Tables.{InRange};
ghost use Rattle.told_text.specs.Written.{Wrote};
ghost use Rattle.told_derived.specs.Definitions.{CanAsk};
ghost use Rattle.told_derived.specs.DerivedText.{fact_text, facts_line, signed_text, change_text, change_lines};

use crate::derived::Derived;
use fol_sig::{Structure, each_tuple};
use std::alloc::Global;
use told_states::{Labels, push_arguments, push_line};
use told_text::Text;

// A comma, and the name with the arguments, where it is true of them.
#[tactic(auto, using(std::proofs::Common::append_assoc), unfolding(crate::specs::DerivedText::true_text))]
fn push_fact(
    out: &mut Text,
    labels: &Labels,
    structure: &Structure,
    derived: &Derived,
    tuple: &[u32],
)
    requires can { CanAsk structure.now derived.now }
    requires in_range { InRange structure.now.sizes derived.now.sorts tuple.now }
    ensures { Wrote out.old out.new (fact_text labels.now structure.now derived.now tuple.now) }
{
    if derived.is_true_of(structure, tuple) {
        out.push_str(", ");
        out.push_bytes(derived.name);
        push_arguments(out, labels, derived.sorts, tuple);
    }
}

/// Adds the line of a derived relation.
#[tactic(auto, using(std::proofs::Common::append_assoc))]
pub fn push_facts_line(
    alloc: Global,
    out: &mut Text,
    labels: &Labels,
    structure: &Structure,
    sizes: &[u32],
    derived: &Derived,
)
    requires can { CanAsk structure.now derived.now }
    requires sizes { sizes.now ≡ structure.now.sizes }
    ensures { Wrote out.old out.new (facts_line labels.now structure.now derived.now) }
{
    let Ok(tuples) = each_tuple(alloc, sizes, derived.sorts) else {
        out.want();
        return;
    };
    let mut pieces = Text::new(alloc);
    for tuple in tuples {
        push_fact(&mut pieces, labels, structure, derived, tuple.as_slice());
    }
    out.needs(&pieces);
    push_line(out, "    ", pieces.as_bytes());
}

// A sign before it.
#[tactic(auto, using(std::proofs::Common::append_assoc), unfolding(crate::specs::DerivedText::signed_text))]
fn push_signed(out: &mut Text, labels: &Labels, sign: &str, derived: &Derived, tuple: &[u32])
    ensures { Wrote out.old out.new (signed_text labels.now sign.now derived.now tuple.now) }
{
    out.push_str(sign);
    out.push_bytes(derived.name);
    push_arguments(out, labels, derived.sorts, tuple);
    out.push_str("\n");
}

// What it was of a tuple, and what it is.
fn push_change(
    out: &mut Text,
    labels: &Labels,
    before: &Structure,
    after: &Structure,
    derived: &Derived,
    tuple: &[u32],
)
    requires before { CanAsk before.now derived.now }
    requires after { CanAsk after.now derived.now }
    requires in_before { InRange before.now.sizes derived.now.sorts tuple.now }
    requires in_after { InRange after.now.sizes derived.now.sorts tuple.now }
    ensures { Wrote out.old out.new (change_text labels.now before.now after.now derived.now tuple.now) }
{
    let old = derived.is_true_of(before, tuple);
    let new = derived.is_true_of(after, tuple);
    match (old, new) {
        (false, true) => push_signed(out, labels, "    + ", derived, tuple),
        (true, false) => push_signed(out, labels, "    - ", derived, tuple),
        _ => {}
    }
}

/// Adds what differs of a derived relation between two structures of the same sizes.
#[tactic(auto, using(std::proofs::Common::append_assoc))]
pub fn push_change_lines(
    alloc: Global,
    out: &mut Text,
    labels: &Labels,
    before: &Structure,
    after: &Structure,
    sizes: &[u32],
    derived: &Derived,
)
    requires before { CanAsk before.now derived.now }
    requires after { CanAsk after.now derived.now }
    requires sizes { sizes.now ≡ before.now.sizes }
    requires alike { sizes.now ≡ after.now.sizes }
    ensures { Wrote out.old out.new (change_lines labels.now before.now after.now derived.now) }
{
    let Ok(tuples) = each_tuple(alloc, sizes, derived.sorts) else {
        out.want();
        return;
    };
    for tuple in tuples {
        push_change(out, labels, before, after, derived, tuple.as_slice());
    }
}
