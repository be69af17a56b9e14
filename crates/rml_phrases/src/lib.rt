//! The words that a grammar is written in, over the tokens of a model's text.
//!
//! `specs` says of each word (one token, a and behind it b, a or b, a any number of times, a token that opens a level)
//! which tokens spell which value, how they may begin from the left, and what a parser reads there. `proofs` has one
//! lemma for each word, so that the proof of a production is the production said again: it serves the crates above as
//! the lemmas of `base` do. The code is the one place where tokens are taken.
#![tactic(auto)]

mod front;

pub use front::{Read, Stop, after, expect, start};
