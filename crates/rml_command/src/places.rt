// Where a model's text may break the fragment. The check of the fragment sees formulas and no text, so the places that
// it reports are kept beside them.
use base::Row;
use fol_formula::Sentence;

/// The word before a condition, by which its rule is known.
#[derive(Clone, Copy, Debug)]
pub enum Word {
    /// `assume`
    Assume,
    /// `assert`
    Assert,
    /// `if`
    If,
}

/// The sentence behind `assume`, `assert` or `if`.
#[derive(Drop)]
pub struct Condition {
    /// The word.
    pub word: Word,
    /// The place of the word, in bytes from the start of the file.
    pub at: u64,
    /// The sentence.
    pub sentence: Sentence,
}

/// The places at which a fault of the fragment is reported, in bytes from the start of the file. The place of a block
/// that is missing is 0.
#[derive(Drop)]
pub struct Places {
    /// The names of the functions and variables.
    pub functions: Row<u64>,
    /// The names of the axioms.
    pub axioms: Row<u64>,
    /// The names of the conjectures.
    pub conjectures: Row<u64>,
    /// The word `init`.
    pub init: u64,
    /// The names of the actions.
    pub actions: Row<u64>,
    /// The word `final`.
    pub last: u64,
    /// The conditions of all blocks, in the order of the file.
    pub conditions: Row<Condition>,
    /// The quantifiers inside an `ite` and on the right of `:=`.
    pub quantifiers: Row<u64>,
}
