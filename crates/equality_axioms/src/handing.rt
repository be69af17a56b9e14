// All axioms, in order: sort by sort, then the relations and the functions place by place.
ghost use Rattle.std.specs.Prelude.{◌≡◌, ◌<◌, length};
ghost use Rattle.fol_sig.specs.Tables.{numbers};
ghost use Rattle.fol_sig.specs.Tuples.{join_below};
ghost use Rattle.ground_terms.specs.Universe.{symbols_in, names_in};
ghost use Rattle.ground_terms.specs.Taking.{Hands, calls_of_each};
ghost use Rattle.equality_axioms.specs.Axioms.{scheme_sorts, scheme_axioms, sort_axioms, relation_axioms};
ghost use Rattle.equality_axioms.specs.Axioms.{function_axioms, equality_axioms};
ghost use Rattle.equality_axioms.specs.Walk.{IsSchemeOf};

use crate::scheme::Scheme;
use crate::tuples::hand_tuples;
use base::Mem;
use fol_sig::{FunId, RelId, Sort, Tuple};
use ground_terms::{GroundSink, Herbrand};
use std::alloc::Global;

/// Hands the axioms of equality to a sink: reflexivity, symmetry and transitivity sort by sort, then congruence of
/// the relations and of the functions, each argument place in turn.
pub fn axioms_into<S: GroundSink>(alloc: Global, universe: &Herbrand, sink: &mut S) -> Mem<()>
    ensures { Hands (S.stands sink.old) (S.stands sink.new) result
        (calls_of_each (equality_axioms (symbols_in universe.now) universe.now.terms.now)) }
{
    hand_sorts(alloc, universe, sink)?;
    hand_relations(alloc, universe, sink)?;
    hand_functions(alloc, universe, sink)
}

fn hand_sorts<S: GroundSink>(alloc: Global, universe: &Herbrand, sink: &mut S) -> Mem<()>
    ensures { Hands (S.stands sink.old) (S.stands sink.new) result
        (calls_of_each
        (join_below universe.now.signature.now.sorts
        (sort_axioms (symbols_in universe.now) (names_in universe.now)))) }
{
    for k in 0..universe.signature.sorts() {
        hand_sort(alloc, universe, Sort(k), sink)?;
    }
    Ok(())
}

fn hand_sort<S: GroundSink>(alloc: Global, universe: &Herbrand, sort: Sort, sink: &mut S) -> Mem<()>
    requires { sort.0 < universe.now.signature.now.sorts }
    ensures { Hands (S.stands sink.old) (S.stands sink.new) result
        (calls_of_each (sort_axioms (symbols_in universe.now) (names_in universe.now) sort.0)) }
{
    let sorts = [sort, sort, sort];
    hand_scheme(alloc, universe, Scheme::Reflexive(sort), &sorts[..1], sink)?;
    hand_scheme(alloc, universe, Scheme::Symmetric(sort), &sorts[..2], sink)?;
    hand_scheme(alloc, universe, Scheme::Transitive(sort), &sorts, sink)
}

fn hand_relations<S: GroundSink>(alloc: Global, universe: &Herbrand, sink: &mut S) -> Mem<()>
    ensures { Hands (S.stands sink.old) (S.stands sink.new) result
        (calls_of_each
        (join_below (length universe.now.signature.now.relations)
        (relation_axioms (symbols_in universe.now) (names_in universe.now)))) }
{
    for r in 0..universe.signature.relation_count() {
        hand_relation(alloc, universe, RelId(r), sink)?;
    }
    Ok(())
}

fn hand_relation<S: GroundSink>(
    alloc: Global,
    universe: &Herbrand,
    relation: RelId,
    sink: &mut S,
) -> Mem<()>
    requires { relation.0 < length universe.now.signature.now.relations }
    ensures { Hands (S.stands sink.old) (S.stands sink.new) result
        (calls_of_each
        (relation_axioms (symbols_in universe.now) (names_in universe.now) relation.0)) }
{
    let sorts = universe.signature.sorts_of(relation);
    for place in 0..sorts.len() {
        let scheme = Scheme::Relation(relation, place);
        hand_scheme(alloc, universe, scheme, sorts, sink)?;
    }
    Ok(())
}

fn hand_functions<S: GroundSink>(alloc: Global, universe: &Herbrand, sink: &mut S) -> Mem<()>
    ensures { Hands (S.stands sink.old) (S.stands sink.new) result
        (calls_of_each
        (join_below (length universe.now.signature.now.functions)
        (function_axioms (symbols_in universe.now) (names_in universe.now)))) }
{
    for f in 0..universe.signature.function_count() {
        hand_function(alloc, universe, FunId(f), sink)?;
    }
    Ok(())
}

fn hand_function<S: GroundSink>(
    alloc: Global,
    universe: &Herbrand,
    function: FunId,
    sink: &mut S,
) -> Mem<()>
    requires { function.0 < length universe.now.signature.now.functions }
    ensures { Hands (S.stands sink.old) (S.stands sink.new) result
        (calls_of_each
        (function_axioms (symbols_in universe.now) (names_in universe.now) function.0)) }
{
    let sorts = universe.signature.from_of(function);
    for place in 0..sorts.len() {
        let scheme = Scheme::Function(function, place);
        hand_scheme(alloc, universe, scheme, sorts, sink)?;
    }
    Ok(())
}

// The axioms of a scheme, whose terms have these sorts.
fn hand_scheme<S: GroundSink>(
    alloc: Global,
    universe: &Herbrand,
    scheme: Scheme,
    sorts: &[Sort],
    sink: &mut S,
) -> Mem<()>
    requires scheme { IsSchemeOf (symbols_in universe.now) scheme }
    requires sorts { numbers sorts.now ≡ scheme_sorts (symbols_in universe.now) scheme }
    ensures { Hands (S.stands sink.old) (S.stands sink.new) result
        (calls_of_each (scheme_axioms (symbols_in universe.now) (names_in universe.now) scheme)) }
{
    let _sorts = universe.signature.sorts();
    hand_tuples(alloc, universe, scheme, &Tuple::new(alloc), sorts, sink)
}
