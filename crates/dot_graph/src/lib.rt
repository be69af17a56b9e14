//! Pictures of states and steps, as graphs in the language of Graphviz. An element is a node in the frame of its sort,
//! marked with the relations that are true of it alone and with the variables that are it; a pair of elements is an
//! edge, and a longer tuple a small node with edges. A step has its two structures side by side, and in red what
//! differs. Of a report all counterexamples are drawn, of what is dropped each execution that breaks a conjecture, and
//! of a run each state; the graphs of one text have names of their own.
//!
//! Labels stand between `<` and `>` and are not escaped: the names of a model are letters, digits and `_`.
#![tactic(auto)]

mod answers;
mod edges;
mod graphs;
mod lines;
mod nodes;
mod row;

pub use answers::{drops_graphs, report_graphs, run_graphs};
