// Room to count in, kept from one sentence to the next.
use crate::measure::Measure;
use ground_size::SignedCount;
use std::alloc::Global;

/// Room for what is counted of nodes. Nothing is known of what stands here: each count begins anew. Where the sentences
/// of many goals are counted one after another, the room is taken once, and not twice for each.
#[derive(Drop)]
pub struct Room {
    // Of each node before the sentence, how often it stands there as it is, and how often negated.
    pub(crate) times: Vec<SignedCount>,
    // Of each node up to the sentence, how large what is made of it will be.
    pub(crate) measures: Vec<Measure>,
}

impl Room {
    /// Without room yet.
    pub fn new(alloc: Global) -> Room {
        Room {
            times: Vec::new(alloc),
            measures: Vec::new(alloc),
        }
    }
}
