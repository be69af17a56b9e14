//! The value of a term and the truth of a formula in a finite structure, by their definition and
//! without memory; and structures cut to a smaller signature, whose formulas keep their truth.
#![tactic(auto)]

mod cutting;
mod evaluation;

pub use cutting::cut;
pub use evaluation::{holds, satisfies, value};

/// The elements that the indices stand for, the nearest binder's first: a chain of borrowed links, so
/// that a quantifier puts an element in front without memory.
#[derive(Clone, Copy)]
pub enum Env<'a> {
    Empty,
    Bind { element: u32, outer: &'a Env<'a> },
}
