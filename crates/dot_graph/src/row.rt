// What is drawn of one tuple: which symbol it is a tuple of, and how its lines begin and end.
use fol_sig::{Sort, Symbol};
use rml_command::Names;

/// A tuple of a symbol in a structure that has a letter. `at` is the tuple; of a function it has the arguments alone.
/// It is red where it has changed.
#[derive(Clone, Copy)]
pub struct Row<'a> {
    pub letter: &'a str,
    pub names: &'a Names,
    pub symbol: Symbol,
    pub at: &'a [u32],
    pub changed: bool,
}

/// Where an edge begins or ends.
#[derive(Clone, Copy)]
pub enum Node {
    /// The small node of the tuple.
    Hub,
    Element(Sort, u32),
}

/// What stands at an edge.
#[derive(Clone, Copy)]
pub enum Label {
    /// The name of the symbol.
    Name,
    /// A place in the tuple, from 1.
    Place(u64),
}
