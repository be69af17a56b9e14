//! The states of an execution as a person wants to see them. Elements have the names of their sorts with a number,
//! those of a listed sort their own; of a structure stands what is true in it, and of two what differs. What is told
//! of each cell of the tables is one walk, whatever it is.
#![tactic(auto)]

mod before;
mod cells;
mod changes;
mod elements;
mod label;
mod labels;
mod laws;
mod names;
mod steps;
mod symbols;
mod tables;

pub use before::push_before;
pub use cells::{OfCells, push_all_cells, push_cells};
pub use changes::push_changes;
pub use elements::{push_arguments, push_element, push_label, push_line, push_values};
pub use label::Label;
pub use labels::Labels;
pub use laws::end_law;
pub use names::{push_head, push_labelled, push_name, push_stage};
pub use steps::path_at;
pub use symbols::{all_symbols, is_variable, push_symbol, sizes};
pub use tables::{has_tuple, push_table};
