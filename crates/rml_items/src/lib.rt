//! Items: what each declares, and whether its names and sorts are right. A whole text is judged before anything is
//! built of it, since a formula may be far larger than its text, where relations are defined by others.
#![tactic(auto)]

mod blocks;
mod heads;
mod items;
mod laws;
mod whole_tree;

pub use heads::{
    add_action, add_axiom, add_conjecture, add_definition, add_function, add_relation, add_sort,
    add_variable,
};
pub use laws::{fault_law, met_law, order_law, sorted_law};
pub use whole_tree::judge;
