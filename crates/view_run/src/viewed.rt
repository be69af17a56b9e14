// An answer about a model, with what its text tells beside it.
use crate::why::WhyAnswer;
use model_commands::{BmcAnswer, CheckAnswer, HoudiniAnswer};
use replay_command::ReplayAnswer;
use told_fault::Reading;

/// What a question about a model is answered with.
#[derive(Drop)]
pub enum ModelAnswer {
    Check(CheckAnswer),
    Houdini(HoudiniAnswer),
    Bmc(BmcAnswer),
    Why(WhyAnswer),
    Replay(ReplayAnswer),
}

/// The answer, and the text of the model as far as it can be read.
#[derive(Drop)]
pub struct Viewed {
    pub answer: ModelAnswer,
    pub reading: Reading,
}
