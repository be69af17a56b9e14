//! What every crate of the checker shares: a list that contracts see as a list, places in it, the two ways in which a
//! call can give no answer, and the bytes and numbers of a text.
#![tactic(auto)]

mod place;
mod refused;
mod row;
mod text;

pub use place::place_of;
pub use refused::{Mem, Refused};
pub use row::Row;
pub use text::{is_blank, is_digit, push_number, push_text};
