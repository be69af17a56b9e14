//! The report on a model: every goal is decided under limits, and each group shows the first of its paths that fails,
//! else the first that was left open. The limits are those of whole refuting sentences, or of lean ones.
#![tactic(auto)]

mod deciding;
mod laws;
mod listing;
mod reporting;

pub use laws::report_law;
pub use reporting::report;
