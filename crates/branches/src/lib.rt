//! Which way a path of a block takes at each `if`, `choose` and `assert` of the source. A report knows a path by its
//! number in its block alone; whoever reads the model wants to see where the path goes, by line and column.
#![tactic(auto)]

mod laws;
mod lines;
mod mark;
mod marked;
mod search;
mod source;
mod stages;

pub use laws::{branch_law, mark_law};
pub use lines::push_marks;
pub use mark::{Branch, Mark, Turn};
pub use marked::marks_of;
pub use source::Source;
