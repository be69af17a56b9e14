// What follows from the definitions alone. The function is its contract, and does nothing.
ghost use Rattle.model_names.specs.ModelNames.{NamesAreWords};

/// Each name of a text's model is made of letters, digits and `_`.
pub fn names_law()
    ensures { NamesAreWords }
{}
