//! A structure from the truth of ground atoms.
//!
//! Terms that the assignment calls equal become one element, and relations and functions are read off the terms that
//! stand for the elements. So each element is the value of a term: the structure is a quotient of the ground terms.
#![tactic(auto)]

ghost use Rattle.std.specs.Prelude.{◌≡◌, true, IfOk};
ghost use Rattle.ground_terms.specs.Universe.{symbols_in};
ghost use Rattle.ground_terms.specs.Trees.{all_true, trees_of};
ghost use Rattle.ground_terms.specs.Same.{holds_in};
ghost use Rattle.equality_axioms.specs.Axioms.{equality_axioms};
ghost use Rattle.structure_back.specs.ReadBack.{IsReadBack};

mod classes;
mod functions;
mod laws;
mod leaders;
mod per_sort;
mod relations;

use crate::classes::number_classes;
use crate::functions::set_functions;
use crate::leaders::find_leaders;
use crate::relations::set_relations;
use base::Mem;
use equality_axioms::equality_laws;
use fol_sig::Structure;
use ground_terms::{Assignment, Herbrand, place_laws};
pub use laws::reading_law;
use std::alloc::Global;

/// Reads a structure back from an assignment of the atoms over the ground terms that satisfies the axioms of equality.
pub fn read(alloc: Global, universe: &Herbrand, assignment: &Assignment) -> Mem<Structure>
    requires { all_true (holds_in assignment.now)
        (trees_of (equality_axioms (symbols_in universe.now) universe.now.terms.now)) ≡ true }
    ensures { IfOk result (IsReadBack (symbols_in universe.now) universe.now.terms.now (holds_in assignment.now)) }
{
    equality_laws();
    place_laws();
    let sorts = universe.signature.sorts();
    let leaders = find_leaders(alloc, sorts, universe.terms.counts(), assignment)?;
    let classes = number_classes(alloc, sorts, universe.terms.counts(), &leaders)?;
    let mut structure = Structure::new(alloc, universe.signature, &classes.sizes)?;
    set_relations(alloc, universe, assignment, &classes, &mut structure);
    set_functions(alloc, universe, &classes, &mut structure)?;
    Ok(structure)
}
