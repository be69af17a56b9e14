// What is counted at a node.
use ground_size::{LeafCount, SignedCount};

// Of a formula or a row of formulas the sizes, and of a term or a row of terms the leaves.
#[derive(Clone, Copy)]
pub enum Measure {
    Sizes(SignedCount),
    Leaves(LeafCount),
}
