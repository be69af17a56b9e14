//! A text that many calls write. It keeps a want of memory to itself until the text is asked for, so what writes a
//! piece can not fail, and no writer has to ask after each word whether there was room for it.
#![tactic(auto)]

mod text;

pub use text::Text;
