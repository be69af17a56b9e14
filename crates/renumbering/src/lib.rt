//! A formula whose variables have sparse numbers is the same as one over the numbers 1, 2, .., under other names. So
//! the tables of a solver, which go by the greatest variable, take memory by the literals of the formula.
#![tactic(auto)]

mod back;
mod dense;
mod extent;
mod laws;
mod names;

pub use back::{hand_over, values_back};
pub use dense::{Renumbered, renumber};
pub use extent::is_sparse;
pub use laws::{renumbering_laws, variable_laws};
