// A leaf of a term: what the term may be, and under which conditions.
use fol_pool::Node;

/// What a term, a row of terms or an atom may be. Its conditions are a row of formulas of the pool, so a leaf takes
/// eight bytes, and conditions that several leaves end with are kept once.
#[derive(Clone, Copy)]
pub struct Leaf {
    /// In normal form, the outermost first; where all hold the term has the value of this leaf.
    pub conditions: Node,
    /// What it is there.
    pub node: Node,
}
