// What an expression has to be where it stands. The grammar does not tell formulas from terms: to it both are
// expressions, and only the place of one says which of the two is meant.

/// What an expression has to be where it stands.
#[derive(Clone, Copy, Debug)]
pub enum Wanted {
    /// A formula.
    Formula,
    /// A term, of this sort where one is expected.
    Term(Option<u32>),
}
