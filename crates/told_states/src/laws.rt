// What follows from the definitions alone. The function is its contract, and does nothing.
ghost use Rattle.told_states.specs.Laws.{EndsAreAlike};

/// The structure in which a path ends has the sorts, sizes and symbols of the one in which it begins, where both are
/// over the same symbols.
pub fn end_law()
    ensures { EndsAreAlike }
{}
