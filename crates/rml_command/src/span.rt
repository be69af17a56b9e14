// A run of primitives behind one another.

/// The places from `start` to before `end`, from 0, in the list of a block's primitives.
#[derive(Clone, Copy, Debug)]
pub struct Span {
    pub start: u32,
    pub end: u32,
}
