//! Formulas and terms of which equal parts are kept once: a node for each, whose parts are nodes.
#![tactic(auto)]

mod counts;
mod facts;
mod pool;
mod rows;
mod shape;
mod taking;
mod unfolding;

pub use pool::Pool;
pub use shape::{Node, Shape};
