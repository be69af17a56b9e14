//! What may stand where the fault of a text stands: the kinds of token with which the tokens in front begin a file, and
//! a line that names them.
//!
//! Nothing new is proved of the grammar: each of the 46 kinds is tried, by a run of the parser over the tokens in front
//! with one token of the kind behind them, and the parser's contract says whether no file goes on with that token. So
//! the front is read 46 times, which is linear in the text, and only where there is a fault.
//!
//! The token that is tried stands behind the text and is written `1`. So no other token, and not the text's end, stands
//! where it stands, and a number behind `rml` is one that is allowed there.
#![tactic(auto)]

mod kinds;
mod telling;
mod trying;

pub use telling::expected_text;
pub use trying::expected;
