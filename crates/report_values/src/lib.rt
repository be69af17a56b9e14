//! What a line of a printed report gives of values: elements, the cells of a table, the entries of a path's havocs.
//! What the lines say one after another is for the crate above.
#![tactic(auto)]

mod cells;
mod elements;
mod havocs;

pub use cells::{behind_labelled, truths_in, values_in};
pub use elements::elements_in;
pub use havocs::entries_in;
