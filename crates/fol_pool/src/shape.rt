// What stands at a node.
use fol_sig::{FunId, RelId, Sort};

/// A node of a pool: a formula, a term, or a row of these, by its number. The first that was added has the number 0.
#[derive(Clone, Copy, PartialEq, Eq, Hash)]
pub struct Node(pub u32);

/// A formula, a term, or a row of these, whose parts are nodes. The variants are those of `Formula` and `Term`; a list
/// of parts is a node too, an empty row or a part and the row behind it, so that ends that are the same are kept once,
/// and a shape owns no memory.
#[derive(Clone, Copy, PartialEq, Eq, Hash)]
pub enum Shape {
    True,
    False,
    /// A relation and the row of its arguments.
    Rel(RelId, Node),
    Eq(Node, Node),
    Not(Node),
    /// The row of the parts.
    And(Node),
    /// The row of the parts.
    Or(Node),
    Implies(Node, Node),
    Iff(Node, Node),
    Forall(Sort, Node),
    Exists(Sort, Node),
    /// The row without formulas.
    NoForms,
    /// A formula and the row behind it.
    FormThen(Node, Node),
    Bound(u32),
    /// A function and the row of its arguments.
    App(FunId, Node),
    Ite(Node, Node, Node),
    /// The row without terms.
    NoTerms,
    /// A term and the row behind it.
    TermThen(Node, Node),
}
