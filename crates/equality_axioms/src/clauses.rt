// Single axioms, as calls of a sink.
ghost use Rattle.std.specs.Prelude.{◌≡◌, ◌<◌, ◌∷◌, [], length, slice_set};
ghost use Rattle.ground_terms.specs.Calls.{calls_of};
ghost use Rattle.ground_terms.specs.Taking.{Hands};
ghost use Rattle.equality_axioms.specs.Axioms.{clause};

use base::Mem;
use fol_sig::Tuple;
use ground_terms::{Atom, GroundSink, Junction, hand_literal, hand_node};
use std::alloc::Global;

/// That a premise implies the conclusion.
pub fn hand_implication<S: GroundSink>(premise: Atom, conclusion: Atom, sink: &mut S) -> Mem<()>
    ensures { Hands (S.stands sink.old) (S.stands sink.new) result (calls_of (clause (premise ∷ []) conclusion)) }
{
    hand_node(sink, Junction::Or, 2)?;
    hand_literal(sink, premise, false)?;
    hand_literal(sink, conclusion, true)
}

/// That two premises imply the conclusion.
pub fn hand_implication_of_two<S: GroundSink>(
    first: Atom,
    second: Atom,
    conclusion: Atom,
    sink: &mut S,
) -> Mem<()>
    ensures { Hands (S.stands sink.old) (S.stands sink.new) result
        (calls_of (clause (first ∷ second ∷ []) conclusion)) }
{
    hand_node(sink, Junction::Or, 3)?;
    hand_literal(sink, first, false)?;
    hand_literal(sink, second, false)?;
    hand_literal(sink, conclusion, true)
}

/// The tuple with another element at one place.
#[tactic(auto, using(crate::proofs::Elements::elements))]
pub fn with_element(alloc: Global, tuple: &Tuple, place: usize, element: u32) -> Tuple
    ensures { result ≡ slice_set tuple.now place element }
{
    let mut changed = Tuple::new(alloc);
    let elements = tuple.as_slice();
    for i in 0..elements.len() {
        if i == place {
            changed.push(element);
        } else {
            changed.push(elements[i]);
        }
    }
    changed
}
