//! Why a model holds: each of its groups of goals with the conjectures that carry it, or with what it lacks. And which
//! conjectures carry no group but their own. Nothing else rests on such, so a designer may leave them out, but for
//! those that the model is written to show.
#![tactic(auto)]

mod laws;
mod listing;
mod reason;
mod serving;

pub use laws::{idle_law, showing_law};
pub use listing::reasons;
pub use reason::Reason;
pub use serving::{are_carried, idle};
