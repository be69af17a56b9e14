//! Formulas of first-order logic over many sorts: their truth in a finite structure, which signature
//! they fit, how large they are, and the fragments that can be decided.
#![tactic(auto)]

mod classes;
mod copies;
mod counts;
mod existentials;
mod fragment;
mod laws;
mod sentence;

pub use classes::PrefixClasses;
pub use copies::{copy_formulas, copy_terms};
pub use existentials::existentials_of_all;
use fol_sig::{FunId, RelId, Sort};
pub use fragment::{
    Ae, Ea, ExistsForall, ForallExists, Fragment, Normal, NormalExistsForall, PurelyUniversal,
    SentenceIn, Universal,
};
pub use laws::{
    agreement, classification, decision, growth, inclusion, indices, lists, quantified, witnesses,
};
pub use sentence::{Sentence, conjunction};

/// A term. The number in `Bound` counts binders outward; the nearest is 0. `Ite` has the value of its
/// second part where the formula is true, and that of its third part elsewhere.
#[cycle(formula)]
#[derive(Drop, Debug)]
pub enum Term {
    Bound(u32),
    App(FunId, Vec<Term>),
    Ite(Box<Formula>, Box<Term>, Box<Term>),
}

/// A formula. `And` without parts is true, and `Or` without parts is false. A quantifier binds the
/// index 0 of its body and ranges over the elements of its sort.
#[cycle(formula)]
#[derive(Drop, Debug)]
pub enum Formula {
    True,
    False,
    Rel(RelId, Vec<Term>),
    Eq(Term, Term),
    Not(Box<Formula>),
    And(Vec<Formula>),
    Or(Vec<Formula>),
    Implies(Box<Formula>, Box<Formula>),
    Iff(Box<Formula>, Box<Formula>),
    Forall(Sort, Box<Formula>),
    Exists(Sort, Box<Formula>),
}
