//! Clauses over numbered variables, and their text.
#![tactic(auto)]

mod clause;
mod cnf;
mod fault_code;
mod fronts;
mod laws;
mod lit;
mod lit_set;
mod number;
mod reader;
mod text;
mod values;
mod words;
mod writer;

pub use clause::{Clause, entry};
pub use cnf::{Cnf, Entry};
pub use fault_code::CnfFaultCode;
pub use laws::{code_law, entry_laws, opposite_laws, piece_law, round_trip, word_laws};
pub use lit::Lit;
pub use lit_set::LitSet;
pub use number::{literal_of, number_of};
pub use reader::read_cnf;
pub use text::{CnfFault, LineMode, Numeral};
pub use values::Values;
pub use words::{Word, Words};
pub use writer::{push_literals, write_cnf};
