// A text that is due.
use crate::side::Side;
use std::marker::Model;

/// The text that is due on one sink, and the status that goes with it.
#[derive(Drop)]
pub struct Said {
    pub side: Side,
    pub status: u8,
    pub text: Vec<u8>,
}

impl Model for Said {
    ghost use Rattle.commands.specs.Due.{Due};

    ghost Value = { Due };

    ghost view = { λ s. record { side = s.side; text = s.text.items; status = s.status } };
}
