//! Names: the tables of what is declared, the binders around an expression, and what a name means between them; and the
//! draft of a model, which grows by one part at a time.
#![tactic(auto)]

mod declarations;
mod declaring;
mod draft;
mod finishing;
mod meaning;
mod scope;
mod table;

pub use declarations::{Declarations, NameTables, bytes};
pub use draft::{ListedAxioms, ModelDraft, PlaceLists};
pub use meaning::Meaning;
pub use scope::{Bound, Scope};
pub use table::{MAX_NAMES, NameTable};
