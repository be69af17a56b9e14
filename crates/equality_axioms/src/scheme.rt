// The kinds of axioms.
use fol_sig::{FunId, RelId, Sort};

/// A scheme of axioms: equality of a sort is reflexive, symmetric or transitive, or a relation or a function keeps
/// equality in one argument place.
#[derive(Clone, Copy)]
pub enum Scheme {
    Reflexive(Sort),
    Symmetric(Sort),
    Transitive(Sort),
    Relation(RelId, usize),
    Function(FunId, usize),
}
