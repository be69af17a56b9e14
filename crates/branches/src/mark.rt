// What a path does at a place of the source where it could have gone another way.

/// A branch of a `choose`.
#[derive(Clone, Copy)]
pub struct Branch {
    /// Its number, from 1.
    pub number: u64,
    /// How many branches there are.
    pub count: u64,
}

/// The way that a path takes.
#[derive(Clone, Copy)]
pub enum Turn {
    /// The condition of an `assert` is false, and the path aborts.
    AssertFails,
    /// The path goes on behind an `assert`; nothing is assumed of its condition.
    AssertPasses,
    /// The condition of an `if` is true.
    IfHolds,
    /// The condition of an `if` is false.
    IfFails,
    /// A `choose` takes this branch.
    Takes(Branch),
}

/// The way that a path takes at a place of the text, that of the word `if`, `choose` or `assert`.
#[derive(Clone, Copy)]
pub struct Mark {
    /// The place.
    pub at: u64,
    /// The way.
    pub turn: Turn,
}
