//! Elaboration: the formulas, terms and primitives that expressions and updates stand for, with all uses of derived
//! relations written out; and how large they are, which is found without building them. What has a fault of names or
//! sorts is built too, so that no contract here speaks of faults.
#![tactic(auto)]

mod formulas;
mod large;
mod sizes;
mod update_sizes;
mod updates;
mod uses;

pub use large::{
    large_use_in_assignment, large_use_in_definition, large_use_in_formula, large_use_in_insertion,
    large_use_in_placement, large_use_in_removal,
};
pub use updates::{assignment, definition, formula_outside, insertion, placement, removal};
