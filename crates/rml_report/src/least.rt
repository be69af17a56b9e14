// Whether a shown structure is least.
use fol_sig::{RelId, Sort};
use limits::Cause;

/// What a trial bounds: how many elements a sort has, or of how many tuples a relation is true.
#[derive(Clone, Copy, Debug, PartialEq, Eq)]
pub enum Bound {
    Sort(Sort),
    Rel(RelId),
}

/// Whether the sizes of the sorts and then the numbers of true tuples of the relations, each taken in order of
/// declaration, are least among the counterexamples of the goal.
#[derive(Clone, Copy, Debug, PartialEq, Eq)]
pub enum Least {
    Yes,
    /// Whether there may be at most `size` elements, or true tuples, was left open.
    Stopped { at: Bound, size: u64, cause: Cause },
}
