// The axioms of a scheme, tuple by tuple. The walk goes down the sorts of the terms, so that it takes no memory and
// needs no number of a tuple, of which there may be more than a number holds.
ghost use Rattle.std.specs.Prelude.{◌≡◌, ◌<◌, ◌≤◌, ◌+◌, ◌++◌, ◌∷◌, [], List, ℕ, length, slice_index, slice_set, All};
ghost use Rattle.fol_sig.specs.Tables.{InRange, numbers};
ghost use Rattle.fol_sig.specs.Tuples.{join_below};
ghost use Rattle.ground_terms.specs.Terms.{term_counts};
ghost use Rattle.ground_terms.specs.Universe.{symbols_in, names_in};
ghost use Rattle.ground_terms.specs.declared.atom.Atom.TheVariants.{Rel, Eq};
ghost use Rattle.ground_terms.specs.Calls.{calls_of};
ghost use Rattle.ground_terms.specs.Taking.{Hands, calls_of_each};
ghost use Rattle.equality_axioms.specs.Axioms.{scheme_sorts, axioms_at, clause, equation, join_tuples};
ghost use Rattle.equality_axioms.specs.Walk.{IsSchemeOf, FillsScheme};

use crate::clauses::{hand_implication, hand_implication_of_two, with_element};
use crate::scheme::Scheme;
use base::Mem;
use fol_sig::{FunId, RelId, Sort, Tuple, range_laws};
use ground_terms::{Atom, GroundSink, Herbrand, Terms, hand_literal};
use std::alloc::Global;

/// The axioms of a scheme for all tuples that begin with a given one and go on with terms of the given sorts.
#[cycle(tuples)]
pub fn hand_tuples<S: GroundSink>(
    alloc: Global,
    universe: &Herbrand,
    scheme: Scheme,
    tuple: &Tuple,
    sorts: &[Sort],
    sink: &mut S,
) -> Mem<()>
    requires scheme { IsSchemeOf (symbols_in universe.now) scheme }
    requires sorted { All (λ k. k < length universe.now.terms.now) (numbers sorts.now) }
    requires few { length tuple.now + length sorts.now ≤ 8 }
    requires filled { FillsScheme (symbols_in universe.now) (term_counts universe.now.terms.now) scheme tuple.now
        (numbers sorts.now) }
    ensures { Hands (S.stands sink.old) (S.stands sink.new) result
        (calls_of_each (join_tuples (term_counts universe.now.terms.now) (numbers sorts.now)
        (λ xs. axioms_at (symbols_in universe.now) (names_in universe.now) scheme
        (tuple.now ++ xs)))) }
{
    match sorts {
        [] => hand_at(alloc, universe, scheme, tuple, sink),
        [sort, rest @ ..] => hand_longer(alloc, universe, scheme, tuple, *sort, rest, sink),
    }
}

#[cycle(tuples)]
fn hand_longer<S: GroundSink>(
    alloc: Global,
    universe: &Herbrand,
    scheme: Scheme,
    tuple: &Tuple,
    sort: Sort,
    rest: &[Sort],
    sink: &mut S,
) -> Mem<()>
    requires scheme { IsSchemeOf (symbols_in universe.now) scheme }
    requires sort { sort.0 < length universe.now.terms.now }
    requires sorted { All (λ k. k < length universe.now.terms.now) (numbers rest.now) }
    requires few { length tuple.now + length rest.now < 8 }
    requires filled { FillsScheme (symbols_in universe.now) (term_counts universe.now.terms.now) scheme tuple.now
        (sort.0 ∷ numbers rest.now) }
    ensures { Hands (S.stands sink.old) (S.stands sink.new) result
        (calls_of_each (join_below (slice_index (term_counts universe.now.terms.now) sort.0)
        (λ x. join_tuples (term_counts universe.now.terms.now) (numbers rest.now)
        (λ xs. axioms_at (symbols_in universe.now) (names_in universe.now) scheme
        (tuple.now ++ (x ∷ xs)))))) }
{
    for term in 0..universe.terms.counts()[sort.0 as usize] {
        let longer = longer_tuple(tuple, term);
        hand_tuples(alloc, universe, scheme, &longer, rest, sink)?;
    }
    Ok(())
}

fn longer_tuple(tuple: &Tuple, term: u32) -> Tuple
    requires { length tuple.now < 8 }
    ensures { result ≡ tuple.now ++ term ∷ [] }
{
    let mut longer = tuple.copy();
    longer.push(term);
    longer
}

// The axioms of a scheme at one tuple.
fn hand_at<S: GroundSink>(
    alloc: Global,
    universe: &Herbrand,
    scheme: Scheme,
    tuple: &Tuple,
    sink: &mut S,
) -> Mem<()>
    requires scheme { IsSchemeOf (symbols_in universe.now) scheme }
    requires in_range { InRange (term_counts universe.now.terms.now) (scheme_sorts (symbols_in universe.now) scheme)
        tuple.now }
    ensures { Hands (S.stands sink.old) (S.stands sink.new) result
        (calls_of_each
        (axioms_at (symbols_in universe.now) (names_in universe.now) scheme tuple.now)) }
{
    range_laws();
    let _sorts = universe.signature.sorts();
    let x = tuple.as_slice();
    match scheme {
        Scheme::Reflexive(sort) => hand_literal(sink, Atom::Eq(sort, x[0], x[0]), true),
        Scheme::Symmetric(sort) => {
            let conclusion = Atom::Eq(sort, x[1], x[0]);
            hand_implication(Atom::Eq(sort, x[0], x[1]), conclusion, sink)
        }
        Scheme::Transitive(sort) => {
            let first = Atom::Eq(sort, x[0], x[1]);
            let second = Atom::Eq(sort, x[1], x[2]);
            hand_implication_of_two(first, second, Atom::Eq(sort, x[0], x[2]), sink)
        }
        Scheme::Relation(relation, place) => {
            let sort = sort_at(universe.signature.sorts_of(relation), place);
            hand_relation(alloc, universe.terms, relation, place, sort, tuple, sink)
        }
        Scheme::Function(function, place) => {
            let sort = sort_at(universe.signature.from_of(function), place);
            hand_function(alloc, universe, function, place, sort, tuple, sink)
        }
    }
}

fn sort_at(sorts: &[Sort], place: usize) -> Sort
    requires { place < length sorts.now }
    ensures { result.0 ≡ slice_index (numbers sorts.now) place }
{
    sorts[place]
}

// A relation at a tuple, with each term of the sort in one argument place.
fn hand_relation<S: GroundSink>(
    alloc: Global,
    terms: &Terms,
    relation: RelId,
    place: usize,
    sort: Sort,
    tuple: &Tuple,
    sink: &mut S,
) -> Mem<()>
    requires place { place < length tuple.now }
    requires sort { sort.0 < length terms.now }
    ensures { Hands (S.stands sink.old) (S.stands sink.new) result
        (calls_of_each (join_below (slice_index (term_counts terms.now) sort.0)
        (λ y. clause (Eq sort (slice_index tuple.now place) y ∷ Rel relation tuple.now ∷ [])
        (Rel relation (slice_set tuple.now place y)) ∷ []))) }
{
    for term in 0..terms.counts()[sort.0 as usize] {
        exchange_in_relation(alloc, relation, place, sort, tuple, term, sink)?;
    }
    Ok(())
}

fn exchange_in_relation<S: GroundSink>(
    alloc: Global,
    relation: RelId,
    place: usize,
    sort: Sort,
    tuple: &Tuple,
    term: u32,
    sink: &mut S,
) -> Mem<()>
    requires { place < length tuple.now }
    ensures { Hands (S.stands sink.old) (S.stands sink.new) result
        (calls_of (clause (Eq sort (slice_index tuple.now place) term ∷ Rel relation tuple.now ∷ [])
        (Rel relation (slice_set tuple.now place term)))) }
{
    let equation = Atom::Eq(sort, tuple.as_slice()[place], term);
    let conclusion = Atom::Rel(relation, with_element(alloc, tuple, place, term));
    hand_implication_of_two(
        equation,
        Atom::Rel(relation, tuple.copy()),
        conclusion,
        sink,
    )
}

// A function at a tuple, with each term of the sort in one argument place.
fn hand_function<S: GroundSink>(
    alloc: Global,
    universe: &Herbrand,
    function: FunId,
    place: usize,
    sort: Sort,
    tuple: &Tuple,
    sink: &mut S,
) -> Mem<()>
    requires known { function.0 < length universe.now.signature.now.functions }
    requires place { place < length ((symbols_in universe.now).from_of function.0) }
    requires sort { sort.0 ≡ slice_index ((symbols_in universe.now).from_of function.0) place }
    requires sorted { sort.0 < length universe.now.terms.now }
    requires in_range { InRange (term_counts universe.now.terms.now) ((symbols_in universe.now).from_of function.0)
        tuple.now }
    ensures { Hands (S.stands sink.old) (S.stands sink.new) result
        (calls_of_each (join_below (slice_index (term_counts universe.now.terms.now) sort.0)
        (λ y. clause (Eq sort (slice_index tuple.now place) y ∷ [])
        (equation ((symbols_in universe.now).into_of function.0)
        ((names_in universe.now).place function.0 tuple.now)
        ((names_in universe.now).place function.0 (slice_set tuple.now place y))) ∷ []))) }
{
    let value = universe.place(function, tuple.as_slice());
    for term in 0..universe.terms.counts()[sort.0 as usize] {
        exchange_in_function(
            alloc, universe, function, place, sort, tuple, value, term, sink,
        )?;
    }
    Ok(())
}

fn exchange_in_function<S: GroundSink>(
    alloc: Global,
    universe: &Herbrand,
    function: FunId,
    place: usize,
    sort: Sort,
    tuple: &Tuple,
    value: u32,
    term: u32,
    sink: &mut S,
) -> Mem<()>
    requires known { function.0 < length universe.now.signature.now.functions }
    requires place { place < length tuple.now }
    requires value { value ≡ (names_in universe.now).place function.0 tuple.now }
    requires term { InRange (term_counts universe.now.terms.now) ((symbols_in universe.now).from_of function.0)
        (slice_set tuple.now place term) }
    ensures { Hands (S.stands sink.old) (S.stands sink.new) result
        (calls_of (clause (Eq sort (slice_index tuple.now place) term ∷ [])
        (equation ((symbols_in universe.now).into_of function.0)
        ((names_in universe.now).place function.0 tuple.now)
        ((names_in universe.now).place function.0 (slice_set tuple.now place term))))) }
{
    let changed = changed_value(alloc, universe, function, place, tuple, term);
    let premise = Atom::Eq(sort, tuple.as_slice()[place], term);
    let conclusion = Atom::Eq(universe.signature.into_of(function), value, changed);
    hand_implication(premise, conclusion, sink)
}

// The place of a function's application to the tuple with another term in one place.
fn changed_value(
    alloc: Global,
    universe: &Herbrand,
    function: FunId,
    place: usize,
    tuple: &Tuple,
    term: u32,
) -> u32
    requires known { function.0 < length universe.now.signature.now.functions }
    requires in_range { InRange (term_counts universe.now.terms.now) ((symbols_in universe.now).from_of function.0)
        (slice_set tuple.now place term) }
    ensures { result ≡ (names_in universe.now).place function.0 (slice_set tuple.now place term) }
{
    let changed = with_element(alloc, tuple, place, term);
    universe.place(function, changed.as_slice())
}
