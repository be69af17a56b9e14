//! The symbols of many-sorted first-order logic, and finite structures.
//!
//! A signature declares sorts, relations and functions; a structure gives each sort a size, each
//! relation a truth value and each function an element at each tuple of elements of its argument
//! sorts. (Padon, McMillan, Panda, Sagiv and Shoham, "Ivy: Safety Verification by Interactive
//! Generalization", PLDI 2016.)
#![tactic(auto)]

mod growing;
mod laws;
mod order;
mod passes;
mod signature;
mod sorts;
mod structure;
mod symbol;
mod table;
mod tuple;
mod tuples;
mod walk;

pub use growing::{with_constants, with_fresh_relations};
pub use laws::{
    cycle_law, growth_laws, range_laws, relation_growth_laws, strata_laws, tuple_laws,
    tuple_set_laws, update_laws,
};
pub use order::{Cycle, Strata};
pub use passes::strata;
pub use signature::Signature;
pub use sorts::Sorts;
pub use structure::{Function, Structure};
pub use symbol::Symbol;
pub use table::Table;
pub use tuple::Tuple;
pub use tuples::{count_tuples, is_in_range, number_of_tuple, table_len, tuple_of_number};
pub use walk::{TuplesLeft, each_tuple};

/// A sort, by its place in the signature.
#[derive(Clone, Copy, PartialEq, Eq, Hash, Debug, Default)]
pub struct Sort(pub u32);

/// A relation, by its place in the signature.
#[derive(Clone, Copy, PartialEq, Eq, Hash, Debug)]
pub struct RelId(pub u32);

/// A function, by its place in the signature. A function without arguments is a variable.
#[derive(Clone, Copy, PartialEq, Eq, Hash, Debug)]
pub struct FunId(pub u32);

/// How many arguments a symbol may have.
pub const MAX_ARGUMENTS: usize = 8;
