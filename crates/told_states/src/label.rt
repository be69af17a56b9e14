// The name of a listed sort's element, in a structure.
use fol_sig::{FunId, Sort};

/// A variable that names an element of a listed sort, and the element that it is.
#[derive(Clone, Copy)]
pub struct Label {
    pub name: FunId,
    pub sort: Sort,
    pub element: u32,
}
