//! A model of any size that is inductive: a chain of relations, each of which holds only where the one before it does.
//! Its text serves to measure the checker.
#![tactic(auto)]

mod pushing;

ghost use Rattle.std.specs.Prelude.{◌≡◌, ◌≤◌, IfOk};
ghost use Rattle.rml_sample.specs.Sample.{sample_text};

use base::{Mem, push_text};
use pushing::{Piece, push_pieces};
use std::alloc::Global;

/// The text of the model with relations r0 to rN, so many actions, and a conjecture for each two neighbours.
#[tactic(auto, using(std::proofs::Common::append_assoc), unfolding(crate::specs::Sample::sample_text))]
pub fn sample_text(alloc: Global, n: u64) -> Mem<Vec<u8>>
    requires { n ≤ 1000000 }
    ensures { IfOk result (λ text. text.items ≡ sample_text n) }
{
    let mut out = Vec::new(alloc);
    push_text(&mut out, "sort node\nvariable v : node\n")?;
    push_pieces(&mut out, Piece::Relation, 0, n + 1)?;
    push_text(&mut out, "init { r0(x) := false")?;
    push_pieces(&mut out, Piece::Start, 1, n)?;
    push_text(&mut out, " }\naction a0 { v := *; insert r0(v) }\n")?;
    push_pieces(&mut out, Piece::Action, 1, n)?;
    push_pieces(&mut out, Piece::Conjecture, 1, n)?;
    Ok(out)
}
