// What is known of a tree: how many nodes it has and how deep it is, as far as 64 bits count, and whether an
// existential stands in it.
ghost use Rattle.std.specs.Prelude.{◌≡◌, ◌+◌, ◌||◌, max};
ghost use Rattle.fol_formula.specs.Counts.{saturated};

// Of a formula, a term, or a row of these, which is no node itself.
#[derive(Clone, Copy)]
pub struct TreeFacts {
    pub nodes: u64,
    pub depth: u64,
    // As it is written; those of terms don't count.
    pub existential: bool,
}

impl TreeFacts {
    // A row without parts.
    pub const NONE: TreeFacts = TreeFacts {
        nodes: 0,
        depth: 0,
        existential: false,
    };

    // A node without parts.
    pub const ONE: TreeFacts = TreeFacts {
        nodes: 1,
        depth: 1,
        existential: false,
    };

    // Both, beside one another.
    pub fn beside(self, other: TreeFacts) -> TreeFacts
        ensures nodes { result.nodes ≡ saturated (self.nodes + other.nodes) }
        ensures depth { result.depth ≡ max self.depth other.depth }
        ensures existential { result.existential ≡ self.existential || other.existential }
    {
        TreeFacts {
            nodes: self.nodes.saturating_add(other.nodes),
            depth: self.depth.max(other.depth),
            existential: self.existential || other.existential,
        }
    }

    // With one node above.
    pub fn over(self) -> TreeFacts
        ensures nodes { result.nodes ≡ saturated (self.nodes + 1) }
        ensures depth { result.depth ≡ saturated (self.depth + 1) }
        ensures existential { result.existential ≡ self.existential }
    {
        TreeFacts {
            nodes: self.nodes.saturating_add(1),
            depth: self.depth.saturating_add(1),
            existential: self.existential,
        }
    }
}
