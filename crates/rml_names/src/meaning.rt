// What a name is. A name has one meaning at each place of a text, whichever crate asks: the one that judges an
// expression and the one that builds its formula both go by it.

/// What a name in an expression is.
#[derive(Clone, Copy, Debug)]
pub enum Meaning {
    /// A bound name: its index, counted from the nearest binder, and its sort.
    Bound(u32, u32),
    /// A relation, by its number.
    Relation(u32),
    /// A function, or a variable, which is a function without arguments, by its number.
    Function(u32),
    /// A derived relation, by its number.
    Derived(u32),
    /// Nothing declares the name.
    Unknown,
}
