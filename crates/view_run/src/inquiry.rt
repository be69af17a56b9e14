// What is asked of the texts, as that which answers it.
use crate::why::Why;
use model_commands::{Bmc, Check, Houdini};

/// A question that is answered as `ivycheck` answers it, but `why`, which it has not.
#[derive(Drop)]
pub enum Inquiry {
    Check(Check),
    Houdini(Houdini),
    Bmc(Bmc),
    Why(Why),
    Replay,
}
