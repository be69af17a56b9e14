//! How far a long answer has come, for whoever waits for it. What decides tells numbers, and hears nothing back: no
//! answer depends on who listens, and nothing is promised of what a listener does with them.
#![tactic(auto)]

/// What is counted.
#[derive(Clone, Copy, Debug, PartialEq, Eq)]
pub enum Work {
    /// Groups of goals.
    Groups,
    /// Walks with so many actions.
    Walks(u32),
    /// Conjectures that were dropped.
    Drops,
}

/// What hears how far an answer has come.
pub trait Progress {
    /// So many of all are done.
    fn tell(&mut self, work: Work, done: u64, all: u64);

    /// Nothing more will be told: what is shown of it may go.
    fn end(&mut self);
}

/// What hears it, and does nothing.
#[derive(Drop)]
pub struct Silent;

impl Progress for Silent {
    fn tell(&mut self, work: Work, done: u64, all: u64) {}

    fn end(&mut self) {}
}
