//! Preconditions of paths, made in a pool of formulas of which equal parts are kept once: what is done to a formula is
//! done to each node once, where its tree would be walked in each place. What a precondition is, and the limit of its
//! size, is said by `rml_wp`, of trees.
#![tactic(auto)]

mod goal;
mod model_nodes;
mod model_pool;
mod path;
mod refuted;
mod steps;

pub use model_pool::ModelPool;
