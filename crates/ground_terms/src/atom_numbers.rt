// The numbers of atoms, by which what is kept for each atom lies in a row and is found without a search.
ghost use Rattle.std.specs.Prelude.{◌≡◌, ◌<◌, ◌≤◌, ◌^◌, ◌+◌, ◌*◌, ℕ, IfOk, IfSome, None, length};
ghost use Rattle.std.specs.Prelude.{slice_index};
ghost use Rattle.fol_sig.specs.Symbols.{symbols};
ghost use Rattle.ground_terms.specs.declared.atom.Atom.TheVariants.{Rel};
ghost use Rattle.ground_terms.specs.AtomSpaces.{AreRelationFirsts, AreEquationFirsts, IsEquation};
ghost use Rattle.ground_terms.specs.AtomNumbers.{FitsAtom, atom_number, atom_count, relation_atoms, equation_atoms};

use crate::Atom;
use base::Mem;
use fol_sig::{RelId, Signature, Sort, count_tuples, is_in_range, number_of_tuple, tuple_laws};
use std::alloc::Global;
use std::marker::Model;

// Up to here atoms are numbered.
const MOST: usize = 4294967296;

/// The numbers of the atoms of a signature over so many terms of each sort: the relations at tuples of terms first,
/// then the equations sort by sort. Where there are 2^32 atoms or more none has a number.
#[derive(Drop)]
pub struct AtomNumbers {
    signature: Signature,
    counts: Vec<u32>,
    relations: Vec<usize>,
    equations: Vec<usize>,
    few: bool,
}

impl Model for AtomNumbers {
    ghost use Rattle.ground_terms.specs.AtomSpaces.{AtomSpace, AreFirsts};

    ghost Value = { AtomSpace };

    ghost view = { λ n. record { signature = n.signature; counts = n.counts.items } };

    ghost invariant = { λ n.
        AreFirsts (record { signature = n.signature; counts = n.counts.items }) n.relations.items n.equations.items
        n.few };
}

impl AtomNumbers {
    /// `counts` says how many terms each sort has.
    pub fn new(alloc: Global, signature: &Signature, counts: &[u32]) -> Mem<AtomNumbers>
        requires { length counts.now ≡ signature.now.sorts }
        ensures { IfOk result (λ made. made ≡ record { signature = signature.now; counts = counts.now }) }
    {
        let relations = relation_firsts(alloc, signature, counts)?;
        let equations = equation_firsts(alloc, counts)?;
        let all = relations[signature.relation_count() as usize].saturating_add(
            equations[counts.len()],
        );
        let signature = signature.copy(alloc)?;
        let mut own = Vec::new(alloc);
        own.extend_from_slice(counts)?;
        Ok(AtomNumbers {
            signature,
            counts: own,
            relations,
            equations,
            few: all < MOST,
        })
    }

    /// The number of an atom; none where it names a symbol or a term that there is not, or where there are 2^32 atoms
    /// or more.
    pub fn number(&self, atom: &Atom) -> Option<usize>
        ensures some { IfSome result (λ n. FitsAtom (symbols self.now.signature) self.now.counts atom.now
            × (n ≡ atom_number (symbols self.now.signature) self.now.counts atom.now)
            × (atom_count (symbols self.now.signature) self.now.counts < 2 ^ 32)) }
        ensures none { result ≡ None → FitsAtom (symbols self.now.signature) self.now.counts atom.now
            → 2 ^ 32 ≤ atom_count (symbols self.now.signature) self.now.counts }
    {
        if !self.few {
            return None;
        }
        match atom {
            Atom::Rel(relation, terms) => relation_number(
                &self.signature,
                &self.counts,
                &self.relations,
                *relation,
                terms.as_slice(),
            ),
            Atom::Eq(sort, left, right) => {
                let before = self.relations[self.signature.relation_count() as usize];
                let number = equation_number(&self.counts, &self.equations, *sort, *left, *right)?;
                Some(before + number)
            }
        }
    }
}

// For each relation how many atoms those before it have, and behind the last how many all have.
fn relation_firsts(alloc: Global, signature: &Signature, counts: &[u32]) -> Mem<Vec<usize>>
    requires { length counts.now ≡ signature.now.sorts }
    ensures { IfOk result (λ firsts.
        AreRelationFirsts (record { signature = signature.now; counts = counts.now }) firsts.items) }
{
    let _sorts = signature.sorts();
    let mut firsts = Vec::new(alloc);
    let mut before = 0usize;
    firsts.push(before)?;
    for r in 0..signature.relation_count() {
        before = before.saturating_add(count_tuples(counts, signature.sorts_of(RelId(r))));
        firsts.push(before)?;
    }
    Ok(firsts)
}

// For each sort how many equations those before it have, and behind the last how many all have.
fn equation_firsts(alloc: Global, counts: &[u32]) -> Mem<Vec<usize>>
    ensures { IfOk result (λ firsts. AreEquationFirsts counts.now firsts.items) }
{
    let mut firsts = Vec::new(alloc);
    let mut before = 0usize;
    firsts.push(before)?;
    for k in 0..counts.len() {
        let count = counts[k] as usize;
        before = before.saturating_add(count.saturating_mul(count));
        firsts.push(before)?;
    }
    Ok(firsts)
}

// The number of a relation at terms.
fn relation_number(
    signature: &Signature,
    counts: &[u32],
    firsts: &[usize],
    relation: RelId,
    terms: &[u32],
) -> Option<usize>
    requires counted { length counts.now ≡ signature.now.sorts }
    requires firsts { AreRelationFirsts (record { signature = signature.now; counts = counts.now }) firsts.now }
    requires few { relation_atoms (symbols signature.now) counts.now (length signature.now.relations) < 2 ^ 32 }
    ensures some { IfSome result (λ n. FitsAtom (symbols signature.now) counts.now (Rel relation terms.now)
        × (n ≡ atom_number (symbols signature.now) counts.now (Rel relation terms.now))) }
    ensures none { result ≡ None → FitsAtom (symbols signature.now) counts.now (Rel relation terms.now) → ⊥ }
{
    tuple_laws();
    let _sorts = signature.sorts();
    if relation.0 >= signature.relation_count() {
        return None;
    }
    let sorts = signature.sorts_of(relation);
    if !is_in_range(counts, sorts, terms) {
        return None;
    }
    Some(firsts[relation.0 as usize] + number_of_tuple(counts, sorts, terms))
}

// The number of an equation among the equations.
fn equation_number(
    counts: &[u32],
    firsts: &[usize],
    sort: Sort,
    left: u32,
    right: u32,
) -> Option<usize>
    requires firsts { AreEquationFirsts counts.now firsts.now }
    requires few { equation_atoms counts.now (length counts.now) < 2 ^ 32 }
    ensures some { IfSome result (λ n. IsEquation counts.now sort.0 left right
        × (n ≡ equation_atoms counts.now sort.0 + (left * slice_index counts.now sort.0 + right))
        × (n < equation_atoms counts.now (length counts.now))) }
    ensures none { result ≡ None → IsEquation counts.now sort.0 left right → ⊥ }
{
    if sort.0 as usize >= counts.len() {
        return None;
    }
    let count = counts[sort.0 as usize];
    if left >= count || right >= count {
        return None;
    }
    Some(firsts[sort.0 as usize] + (left as usize * count as usize + right as usize))
}
