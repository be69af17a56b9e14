// The names that a model's text gives.
use base::Row;

/// The bytes of a name.
pub type Name = Row<u8>;

/// The names of what a model declares, each list in the order of the file.
#[derive(Drop)]
pub struct Names {
    /// Sorts.
    pub sorts: Row<Name>,
    /// Relations.
    pub relations: Row<Name>,
    /// Functions and variables, in one list.
    pub functions: Row<Name>,
    /// Axioms.
    pub axioms: Row<Name>,
    /// Conjectures.
    pub conjectures: Row<Name>,
    /// Actions.
    pub actions: Row<Name>,
}
