//! The meaning of a protocol: what a block may do from a structure, its paths, what a run is, when a
//! model is safe, what a goal is and what refutes it. The definitions stand in `specs`.
#![tactic(auto)]

mod block_paths;
mod checked;
mod command;
mod drafts;
mod goal;
mod groups;
mod havoc;
mod laws;
mod listing;
mod model;
mod names;
mod path;
mod places;
mod route;
mod span;

pub use block_paths::Paths;
pub use checked::Checked;
pub use command::{Command, Primitive};
pub use goal::{About, Goal, Head, Stage};
pub use groups::{heads, is_for};
pub use havoc::{Havoc, copy_havocs, havocs_of};
pub use laws::{
    block_law, each_goal_law, fresh_law, goal_law, inductive_law, invariant_law, list_law,
    path_law, run_law, update_law, value_law,
};
pub use listing::{MAX_PATHS, TooManyPaths, few_paths, has_few_paths, paths};
pub use model::{Model, Parts};
pub use names::{Name, Names};
pub use path::{Path, Primitives};
pub use places::{Condition, Places, Word};
