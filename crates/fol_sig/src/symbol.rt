// Relations and functions, where both are spoken of alike.
use crate::{FunId, RelId};

/// A relation or a function of a signature.
#[derive(Clone, Copy, PartialEq, Eq, Debug)]
pub enum Symbol {
    Relation(RelId),
    Function(FunId),
}
