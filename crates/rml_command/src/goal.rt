// What is to be decided of a model: that one path of one of its blocks does not do what is forbidden.

/// A block of a model; an action is told by its number, from 0.
#[derive(Clone, Copy, Debug, PartialEq, Eq)]
pub enum Stage {
    /// The block `init`.
    Init,
    /// An action.
    Action(u32),
    /// The block `final`.
    Final,
}

/// What is forbidden; a conjecture is told by its number, from 0.
#[derive(Clone, Copy, Debug, PartialEq, Eq)]
pub enum About {
    /// An abort.
    Abort,
    /// An end where this conjecture is false.
    Conjecture(u32),
}

/// What a stage must not do: the head of a group of goals, one for each path of its block that could.
#[derive(Clone, Copy, Debug, PartialEq, Eq)]
pub struct Head {
    /// The block.
    pub stage: Stage,
    /// What its paths must not do.
    pub about: About,
}

/// A path of a stage's block, by its number from 1, and what it must not do.
#[derive(Clone, Copy, Debug, PartialEq, Eq)]
pub struct Goal {
    /// The block.
    pub stage: Stage,
    /// The number of its path, from 1.
    pub path: u32,
    /// What the path must not do.
    pub about: About,
}
