//! The commands on clauses: `emit` writes those of a goal, or the log that refutes them, and `lrat` judges a log that
//! any solver wrote. What both say together is a proof of the goal (`evidence_law`).
#![tactic(auto)]

mod emit;
mod emit_text;
mod laws;
mod lrat;

pub use emit::{Emit, EmitAnswer, Emitted};
pub use laws::evidence_law;
pub use lrat::{Lrat, LratAnswer};
