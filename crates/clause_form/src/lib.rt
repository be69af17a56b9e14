//! The clauses of ground formulas: a variable for each atom and for each And and Or, and clauses that say what each And
//! and Or implies. They are written as the formulas come, part by part.
#![tactic(auto)]

mod atom_map;
mod atom_table;
mod board;
mod clauser;
mod frame;
mod laws;
mod stack;

pub use atom_map::AtomMap;
pub use clauser::{Clauser, clauses};
pub use laws::{clause_laws, size_laws};
