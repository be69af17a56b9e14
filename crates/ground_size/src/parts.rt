// An And is counted where its parts stand: so one of many large parts need not be built to be counted.
ghost use Rattle.std.specs.Prelude.{◌≡◌, List, ℕ, true, [], map, IfOk};
ghost use Rattle.fol_sig.specs.Symbols.{symbols};
ghost use Rattle.fol_sig.specs.Strata.{IsStrata};
ghost use Rattle.fol_formula.specs.Syntax.{forms_of};
ghost use Rattle.fol_formula.specs.Counts.{saturated};
ghost use Rattle.fol_formula.specs.Fits.{FitsForm};
ghost use Rattle.fol_formula.specs.Fragments.{IsEa};
ghost use Rattle.fol_nnf.specs.Normal.{normals};
ghost use Rattle.ground_size.specs.Conjoined.{forms_at, parts_of, and_of};
ghost use Rattle.ground_size.specs.Counting.{AreCounted};
ghost use Rattle.ground_size.specs.Sizes.{all_instance_nodes, size_of};
ghost use Rattle.ground_size.specs.Walks.{all_raised};

use crate::Counts;
use crate::axioms::with_axioms;
use crate::counting::count_with;
use crate::existentials::add_existentials;
use crate::sizes::sizes_of;
use base::Mem;
use fol_formula::Sentence;
use fol_sig::{Signature, Strata};
use std::alloc::Global;

/// Parts of an And, which stand elsewhere.
#[derive(Clone, Copy)]
pub enum Part<'a> {
    /// The And of these.
    All(&'a [Sentence]),
    /// Each of these by itself.
    Each(&'a [Sentence]),
    /// The negation of this.
    Not(&'a Sentence),
}

/// Counts the ground terms of the signature with a constant for each existential of the And's normal form, as `count`
/// does. An error is want of memory: two numbers are kept for each sort.
pub fn count_parts(
    alloc: Global,
    signature: &Signature,
    strata: &Strata,
    parts: &[Part],
) -> Mem<Counts>
    requires strata { IsStrata (symbols signature.now) strata.now }
    requires fragment { IsEa (and_of parts.now) }
    requires fits { FitsForm (symbols signature.now) [] (and_of parts.now) }
    ensures { IfOk result (AreCounted signature.now (and_of parts.now)) }
{
    let mut constants = vec![in alloc; 0u64; signature.sorts() as usize]?;
    add_existentials_of_parts(&mut constants, parts);
    let counts = count_with(alloc, signature, strata, &constants)?;
    Ok(counts)
}

fn add_existentials_of_parts(counts: &mut [u64], parts: &[Part])
    ensures { counts.new ≡ all_raised 1 0 (forms_of (parts_of parts.now)) counts.old }
{
    for part in parts {
        add_existentials_of_part(counts, part);
    }
}

fn add_existentials_of_part(counts: &mut [u64], part: &Part)
    ensures { counts.new ≡ all_raised 1 0 (forms_of (forms_at part.now)) counts.old }
{
    match part {
        Part::All(sentences) => add_existentials_of_each(counts, sentences),
        Part::Each(sentences) => add_existentials_of_each(counts, sentences),
        Part::Not(sentence) => add_existentials(counts, sentence.formula(), 0, 1),
    }
}

fn add_existentials_of_each(counts: &mut [u64], sentences: &[Sentence])
    ensures { counts.new ≡ all_raised 1 0 (forms_of sentences.now) counts.old }
{
    for sentence in sentences {
        add_existentials(counts, sentence.formula(), 1, 0);
    }
}

/// The size of the And's ground formulas, as `ground_size` is that of a sentence's.
pub fn ground_size_of_parts(signature: &Signature, counts: &Counts, parts: &[Part]) -> u64
    ensures { (terms : List ℕ) → counts.now ≡ map saturated terms
        → result ≡ saturated (size_of signature.now terms (and_of parts.now)) }
{
    let nodes = nodes_of_parts(counts, parts).saturating_add(1);
    with_axioms(signature, counts, nodes)
}

// The nodes of the instances of the parts' normal forms.
fn nodes_of_parts(counts: &Counts, parts: &[Part]) -> u64
    ensures { result ≡ saturated (all_instance_nodes counts.now (normals true (forms_of (parts_of parts.now)))) }
{
    let mut nodes = 0u64;
    for part in parts {
        nodes = nodes.saturating_add(nodes_of_part(counts, part));
    }
    nodes
}

fn nodes_of_part(counts: &Counts, part: &Part) -> u64
    ensures { result ≡ saturated (all_instance_nodes counts.now (normals true (forms_of (forms_at part.now)))) }
{
    match part {
        Part::All(sentences) => nodes_of_each(counts, sentences).saturating_add(1),
        Part::Each(sentences) => nodes_of_each(counts, sentences),
        Part::Not(sentence) => sizes_of(counts, sentence.formula()).negative,
    }
}

fn nodes_of_each(counts: &Counts, sentences: &[Sentence]) -> u64
    ensures { result ≡ saturated (all_instance_nodes counts.now (normals true (forms_of sentences.now))) }
{
    let mut nodes = 0u64;
    for sentence in sentences {
        nodes = nodes.saturating_add(sizes_of(counts, sentence.formula()).positive);
    }
    nodes
}
