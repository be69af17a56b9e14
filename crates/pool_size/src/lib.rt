//! How large the ground formulas of a sentence will be, where the sentence stands in a pool of formulas of which equal
//! parts are kept once: each node is counted once, where its tree would be walked in each place. What is counted is
//! said by `ground_size`, of trees.
#![tactic(auto)]

mod existentials;
mod instance;
mod measure;
mod room;
mod size;

pub use room::Room;
pub use size::ground_size;
