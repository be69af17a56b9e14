//! What is answered besides a report, as a person wants to read it: bounded runs, the greatest inductive set of a
//! model's conjectures, and which of them carry which group.
//!
//! Of runs stand the verdict and the run that aborts or breaks a conjecture, part by part with what each takes and
//! changes; of the set how many are kept, and each that is dropped with the execution that breaks it; of the reasons a
//! line for each group, and the conjectures that carry no group but their own. Behind them stands which option to raise
//! for what is left open, if one helps.
#![tactic(auto)]

mod drops;
mod laws;
mod lengths;
mod reasons;
mod showing;
mod subset;

pub use laws::telling_law;
pub use lengths::tell_runs;
pub use reasons::tell_reasons;
pub use subset::tell_subset;
