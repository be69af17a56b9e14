// The tables of the relations: true at the classes of the terms of each true atom.
ghost use Rattle.std.specs.Prelude.{◌≡◌, ◌<◌, ◌≤◌, All, List, ℕ, false, length, map};
ghost use Rattle.fol_sig.specs.Symbols.{symbols, FitsStructure};
ghost use Rattle.fol_sig.specs.Tables.{InRange, numbers, rel_at};
ghost use Rattle.ground_terms.specs.Terms.{term_counts};
ghost use Rattle.ground_terms.specs.Universe.{symbols_in};
ghost use Rattle.ground_terms.specs.Same.{holds_in};
ghost use Rattle.ground_terms.specs.Values.{elements_of};
ghost use Rattle.ground_terms.specs.declared.atom.Atom.TheVariants.{Rel};
ghost use Rattle.structure_back.specs.Rows.{looked_up};
ghost use Rattle.structure_back.specs.Tables.{AreInClasses, SetsAtom, AreRelationsRead};

use crate::classes::TermClasses;
use crate::per_sort::PerSort;
use fol_sig::{RelId, Signature, Sort, Structure, Tuple, is_in_range, range_laws};
use ground_terms::{Assignment, Atom, Herbrand, atom_laws};
use std::alloc::Global;

/// Makes the relations true at the classes of the terms of each true atom. An atom that names a relation or a term
/// that there is not is passed over.
pub fn set_relations(
    alloc: Global,
    universe: &Herbrand,
    assignment: &Assignment,
    classes: &TermClasses,
    structure: &mut Structure,
)
    requires classes { AreInClasses (symbols_in universe.now)
        (term_counts universe.now.terms.now) classes.now.sizes.items classes.now.numbers }
    requires fits { FitsStructure (symbols_in universe.now) structure.old }
    requires sizes { structure.old.sizes ≡ classes.now.sizes.items }
    requires blank { (r : ℕ) (xs : List ℕ) → rel_at structure.old r xs ≡ false }
    ensures fits { FitsStructure (symbols_in universe.now) structure.new }
    ensures sizes { structure.new.sizes ≡ classes.now.sizes.items }
    ensures read { AreRelationsRead (symbols_in universe.now) (term_counts universe.now.terms.now)
        (holds_in assignment.now) (looked_up classes.now.numbers) structure.new }
{
    atom_laws();
    let _sorts = universe.signature.sorts();
    for atom in assignment.as_slice() {
        set_atom(
            alloc,
            universe.signature,
            universe.terms.counts(),
            atom,
            classes,
            structure,
        );
    }
}

fn set_atom(
    alloc: Global,
    signature: &Signature,
    counts: &[u32],
    atom: &Atom,
    classes: &TermClasses,
    structure: &mut Structure,
)
    requires sorts { length counts.now ≡ signature.now.sorts }
    requires classes { AreInClasses (symbols signature.now) counts.now classes.now.sizes.items classes.now.numbers }
    requires fits { FitsStructure (symbols signature.now) structure.old }
    requires sizes { structure.old.sizes ≡ classes.now.sizes.items }
    ensures fits { FitsStructure (symbols signature.now) structure.new }
    ensures sizes { structure.new.sizes ≡ classes.now.sizes.items }
    ensures set { SetsAtom (symbols signature.now) counts.now
        (looked_up classes.now.numbers) atom.now structure.old structure.new }
{
    if let Atom::Rel(relation, terms) = atom {
        set_relation(
            alloc,
            signature,
            counts,
            *relation,
            terms.as_slice(),
            classes,
            structure,
        );
    }
}

fn set_relation(
    alloc: Global,
    signature: &Signature,
    counts: &[u32],
    relation: RelId,
    terms: &[u32],
    classes: &TermClasses,
    structure: &mut Structure,
)
    requires sorts { length counts.now ≡ signature.now.sorts }
    requires classes { AreInClasses (symbols signature.now) counts.now classes.now.sizes.items classes.now.numbers }
    requires fits { FitsStructure (symbols signature.now) structure.old }
    requires sizes { structure.old.sizes ≡ classes.now.sizes.items }
    ensures fits { FitsStructure (symbols signature.now) structure.new }
    ensures sizes { structure.new.sizes ≡ classes.now.sizes.items }
    ensures set { SetsAtom (symbols signature.now) counts.now (looked_up classes.now.numbers)
        (Rel relation terms.now) structure.old structure.new }
{
    let _sorts = signature.sorts();
    if relation.0 >= signature.relation_count() {
        return;
    }
    let sorts = signature.sorts_of(relation);
    if !is_in_range(counts, sorts, terms) {
        return;
    }
    let elements = elements(alloc, &classes.numbers, sorts, terms);
    structure.set_rel(relation, elements.as_slice(), true);
}

/// What the rows have at some places.
pub fn elements(alloc: Global, rows: &PerSort, sorts: &[Sort], places: &[u32]) -> Tuple
    requires known { All (λ k. k < length rows.now) (numbers sorts.now) }
    requires short { length sorts.now ≤ 8 }
    requires in_range { InRange (map length rows.now) (numbers sorts.now) places.now }
    ensures { result ≡ elements_of (looked_up rows.now) (numbers sorts.now) places.now }
{
    range_laws();
    let mut tuple = Tuple::new(alloc);
    for i in 0..sorts.len() {
        tuple.push(rows.get(sorts[i], places[i]));
    }
    tuple
}
