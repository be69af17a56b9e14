// The calls of a sink, each with what it did to the sink in one clause.
ghost use Rattle.std.specs.Prelude.{[], ◌∷◌};
ghost use Rattle.ground_terms.specs.Calls.{a_node, a_literal};
ghost use Rattle.ground_terms.specs.Taking.{Hands};

use crate::{Atom, GroundSink, Junction};
use base::Mem;

/// Hands a node with so many parts to a sink.
pub fn hand_node<S: GroundSink>(sink: &mut S, junction: Junction, parts: u64) -> Mem<()>
    ensures { Hands (S.stands sink.old) (S.stands sink.new) result (a_node junction parts ∷ []) }
{
    match junction {
        Junction::And => sink.and(parts),
        Junction::Or => sink.or(parts),
    }
}

/// Hands a literal to a sink.
pub fn hand_literal<S: GroundSink>(sink: &mut S, atom: Atom, positive: bool) -> Mem<()>
    ensures { Hands (S.stands sink.old) (S.stands sink.new) result (a_literal atom positive ∷ []) }
{
    sink.literal(atom, positive)
}
