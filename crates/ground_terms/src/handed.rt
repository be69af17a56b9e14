// A sink that keeps what it is handed, so that formulas can be looked at as a list.
use crate::{Atom, GroundSink, Junction};
use base::Mem;

/// A call of a sink. In a list the parts of a node follow it.
#[derive(Drop)]
pub enum SinkCall {
    /// The atom, or its negation where the flag is false.
    Literal(Atom, bool),
    /// An And or an Or of so many parts.
    Node(Junction, u64),
}

impl GroundSink for Vec<SinkCall> {
    ghost use Rattle.std.specs.Prelude.{◌≡◌, map};
    ghost use Rattle.ground_terms.specs.CallViews.{plain_call};

    ghost stands = { λ held calls. map plain_call held.items ≡ calls };

    fn and(&mut self, parts: u64) -> Mem<()> {
        self.push(SinkCall::Node(Junction::And, parts))?;
        Ok(())
    }

    fn or(&mut self, parts: u64) -> Mem<()> {
        self.push(SinkCall::Node(Junction::Or, parts))?;
        Ok(())
    }

    fn literal(&mut self, atom: Atom, positive: bool) -> Mem<()> {
        self.push(SinkCall::Literal(atom, positive))?;
        Ok(())
    }
}
