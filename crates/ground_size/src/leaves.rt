// How many leaves the `Ite`s of terms make, and the nodes of the conditions on the way to them.
ghost use Rattle.std.specs.Prelude.{◌+◌, ◌*◌, List, ℕ};
ghost use Rattle.fol_formula.specs.Syntax.{FormTree, TermTree, TermTrees, rel, equal, app, ite, term_then};
ghost use Rattle.fol_nnf.specs.Normal.{leaves, leaves_of_terms};
ghost use Rattle.ground_size.specs.Leaves.{AreSigned, AreSizesOf, AreLeaves, AreLeavesOf, literal_nodes};

use crate::signed::SignedCount;

/// In 64 bits: a number that they do not hold is the greatest that they hold.
#[derive(Clone, Copy)]
pub struct LeafCount {
    pub leaves: u64,
    pub conditions: u64,
}

impl LeafCount {
    /// Of a term without `Ite`.
    pub const ONE: LeafCount = LeafCount {
        leaves: 1,
        conditions: 0,
    };

    /// The sizes of a relation's literal, where these are the leaves of its arguments.
    pub fn relation(self) -> SignedCount
        ensures { (counts : List ℕ) (r : ℕ) (args : TermTrees) → AreLeavesOf counts (leaves_of_terms args) self
            → AreSizesOf counts (rel r args) result }
    {
        self.literal()
    }

    /// The sizes of an equation's literal.
    pub fn equation(self, other: LeafCount) -> SignedCount
        ensures { (counts : List ℕ) (a b : TermTree) → AreLeavesOf counts (leaves a) self
            → AreLeavesOf counts (leaves b) other → AreSizesOf counts (equal a b) result }
    {
        self.joined(other).literal()
    }

    /// The leaves of a function's application, which are those of its arguments.
    pub fn application(self) -> LeafCount
        ensures { (counts : List ℕ) (f : ℕ) (args : TermTrees) → AreLeavesOf counts (leaves_of_terms args) self
            → AreLeavesOf counts (leaves (app f args)) result }
    {
        self
    }

    /// The leaves of an `Ite`: those of one term after those of the other, each under the condition or its negation.
    pub fn chosen(self, other: LeafCount, condition: SignedCount) -> LeafCount
        ensures { (counts : List ℕ) (c : FormTree) (a b : TermTree) → AreSizesOf counts c condition
            → AreLeavesOf counts (leaves a) self → AreLeavesOf counts (leaves b) other
            → AreLeavesOf counts (leaves (ite c a b)) result }
    {
        let first = self.leaves.saturating_mul(condition.positive);
        let second = other.leaves.saturating_mul(condition.negative);
        let conditions = self.conditions.saturating_add(other.conditions);
        LeafCount {
            leaves: self.leaves.saturating_add(other.leaves),
            conditions: first.saturating_add(second).saturating_add(conditions),
        }
    }

    /// The leaves of a row of terms, of which this is the first.
    pub fn in_front_of(self, row: LeafCount) -> LeafCount
        ensures { (counts : List ℕ) (t : TermTree) (ts : TermTrees) → AreLeavesOf counts (leaves t) self
            → AreLeavesOf counts (leaves_of_terms ts) row
            → AreLeavesOf counts (leaves_of_terms (term_then t ts)) result }
    {
        self.joined(row)
    }

    // Each leaf with each other.
    fn joined(self, other: LeafCount) -> LeafCount
        ensures { AreLeaves result (self.leaves * other.leaves)
            (self.conditions * other.leaves + self.leaves * other.conditions) }
    {
        LeafCount {
            leaves: self.leaves.saturating_mul(other.leaves),
            conditions: self
                .conditions
                .saturating_mul(other.leaves)
                .saturating_add(self.leaves.saturating_mul(other.conditions)),
        }
    }

    // A literal over the leaves: an Or with an And of conditions and a literal for each, but for a leaf without `Ite`.
    fn literal(self) -> SignedCount
        ensures { AreSigned result
            (literal_nodes self.leaves self.conditions) (literal_nodes self.leaves self.conditions) }
    {
        if self.leaves == 1 && self.conditions == 0 {
            return SignedCount::ONE;
        }
        let all = self
            .leaves
            .saturating_mul(2)
            .saturating_add(self.conditions)
            .saturating_add(1);
        SignedCount::of_both(all)
    }
}
