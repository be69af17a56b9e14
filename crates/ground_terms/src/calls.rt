// Trees into a sink.
ghost use Rattle.ground_terms.specs.Calls.{calls_of, calls_of_all};
ghost use Rattle.ground_terms.specs.Taking.{Hands};
ghost use Rattle.ground_terms.specs.View.{tree, trees};

use crate::{Ground, GroundSink, Junction, hand_literal, hand_node};
use base::Mem;

/// Hands a formula to a sink, in prefix order. After want of memory the sink has taken a front of the calls.
#[cycle(feed)]
pub fn feed<S: GroundSink>(sink: &mut S, formula: &Ground) -> Mem<()>
    ensures { Hands (S.stands sink.old) (S.stands sink.new) result (calls_of (tree formula.now)) }
{
    match formula {
        Ground::Literal(atom, positive) => hand_literal(sink, atom.copy(), *positive),
        Ground::And(parts) => {
            hand_node(sink, Junction::And, parts.len() as u64)?;
            feed_all(sink, parts)
        }
        Ground::Or(parts) => {
            hand_node(sink, Junction::Or, parts.len() as u64)?;
            feed_all(sink, parts)
        }
    }
}

/// Hands formulas to a sink, one after another. After want of memory the sink has taken a front of the calls.
#[cycle(feed)]
pub fn feed_all<S: GroundSink>(sink: &mut S, formulas: &[Ground]) -> Mem<()>
    ensures { Hands (S.stands sink.old) (S.stands sink.new) result (calls_of_all (trees formulas.now)) }
{
    for formula in formulas {
        feed(sink, formula)?;
    }
    Ok(())
}
