//! Whether a model is in the fragment in which its goals can be decided, and where it leaves it.
//!
//! The functions must have no cycle of sorts, each axiom, conjecture and condition must be of its class, and no
//! quantifier may stand inside an `ite` or on the right of an update; then each block must have few paths. `check`
//! hands on what it found on its way, or answers a fault: the first by which the text leaves the fragment, and where
//! there is none, that of the first long block.
#![tactic(auto)]

mod checking;
mod demand;
mod first;
mod fragment;
mod laws;
mod long;

pub use checking::check;
pub use demand::Demand;
pub use laws::{fault_law, place_law};
