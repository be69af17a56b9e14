//! How large the ground formulas of a sentence will be, before any is made.
#![tactic(auto)]

mod axioms;
mod counting;
mod counts;
mod existentials;
mod found;
mod laws;
mod leaves;
mod parts;
mod signed;
mod sizes;

pub use axioms::with_axioms;
pub use counting::{count, count_with};
pub use counts::Counts;
pub use found::GroundSize;
pub use laws::{existential_laws, size_laws};
pub use leaves::LeafCount;
pub use parts::{Part, count_parts, ground_size_of_parts};
pub use signed::SignedCount;
pub use sizes::ground_size;
