// What is counted of a formula's normal form and of that of its negation: an equivalence needs both of both sides.
ghost use Rattle.std.specs.Prelude.{◌≡◌, ◌+◌, List, ℕ, slice_index};
ghost use Rattle.fol_formula.specs.Syntax.{FormTree, for_all, for_some};
ghost use Rattle.ground_size.specs.Leaves.{AreSigned, AreSizesOf};

/// In 64 bits: a number that they do not hold is the greatest that they hold.
#[derive(Clone, Copy)]
pub struct SignedCount {
    pub positive: u64,
    pub negative: u64,
}

impl SignedCount {
    /// Of no formula.
    pub const NONE: SignedCount = SignedCount {
        positive: 0,
        negative: 0,
    };

    /// Of a formula whose normal forms have one node each.
    pub const ONE: SignedCount = SignedCount {
        positive: 1,
        negative: 1,
    };

    /// The same number of both.
    pub fn of_both(count: u64) -> SignedCount
        ensures positive { result.positive ≡ count }
        ensures negative { result.negative ≡ count }
    {
        SignedCount {
            positive: count,
            negative: count,
        }
    }

    /// Those of both together.
    pub fn beside(self, other: SignedCount) -> SignedCount
        ensures { AreSigned result (self.positive + other.positive) (self.negative + other.negative) }
    {
        SignedCount {
            positive: self.positive.saturating_add(other.positive),
            negative: self.negative.saturating_add(other.negative),
        }
    }

    /// The sizes of an And or an Or, where these are those of its parts together.
    pub fn gathered(self) -> SignedCount
        ensures { AreSigned result (self.positive + 1) (self.negative + 1) }
    {
        self.beside(SignedCount::ONE)
    }

    /// Those of the negation.
    pub fn opposite(self) -> SignedCount
        ensures positive { result.positive ≡ self.negative }
        ensures negative { result.negative ≡ self.positive }
    {
        SignedCount {
            positive: self.negative,
            negative: self.positive,
        }
    }

    /// Both sides of an equivalence, each with itself and with its opposite, and so many nodes that join them.
    pub fn equivalent(self, other: SignedCount, nodes: u64) -> SignedCount
        ensures { AreSigned result
            (self.positive + self.negative + (other.positive + other.negative) + nodes)
            (self.positive + self.negative + (other.positive + other.negative) + nodes) }
    {
        let own = self.positive.saturating_add(self.negative);
        let others = other.positive.saturating_add(other.negative);
        SignedCount::of_both(own.saturating_add(others).saturating_add(nodes))
    }

    /// The sizes of a universal from those of what it says of each of so many terms: it is an existential in the
    /// negation.
    pub fn under_all(self, terms: u64) -> SignedCount
        ensures { (counts : List ℕ) (k : ℕ) (p : FormTree) → terms ≡ slice_index counts k
            → AreSizesOf counts p self → AreSizesOf counts (for_all k p) result }
    {
        SignedCount {
            positive: terms.saturating_mul(self.positive).saturating_add(1),
            negative: self.negative,
        }
    }

    /// The sizes of an existential, which is a universal in the negation.
    pub fn under_some(self, terms: u64) -> SignedCount
        ensures { (counts : List ℕ) (k : ℕ) (p : FormTree) → terms ≡ slice_index counts k
            → AreSizesOf counts p self → AreSizesOf counts (for_some k p) result }
    {
        SignedCount {
            positive: self.positive,
            negative: terms.saturating_mul(self.negative).saturating_add(1),
        }
    }
}
