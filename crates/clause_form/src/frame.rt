// Nodes that are open. They never change while they are open: how many parts a node has by now is a count of literals.
use cnf_base::Lit;
use ground_terms::Junction;

/// An And or an Or that is open: its own literal, how many parts it has, and the place where their literals begin.
#[derive(Clone, Copy)]
pub struct Frame {
    pub junction: Junction,
    pub own: Lit,
    pub parts: u64,
    pub start: usize,
}
