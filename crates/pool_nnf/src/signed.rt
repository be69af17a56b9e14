// What a normal form is looked up by.
use fol_pool::Node;

/// The formula at a node, or its negation where it is not positive.
#[derive(Clone, Copy, PartialEq, Eq, Hash)]
pub struct Signed {
    pub node: Node,
    pub positive: bool,
}
