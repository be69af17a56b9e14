// The walk over a sentence that hands its instance to a sink. It takes no memory of its own: the bound variables
// lie in a chain on the stack, and the arguments of an atom in a tuple.
ghost use Rattle.std.specs.Prelude.{◌≡◌, ◌<◌, ◌∷◌, [], slice_index};
ghost use Rattle.fol_sig.specs.Tables.{InRange};
ghost use Rattle.fol_formula.specs.Syntax.{for_all};
ghost use Rattle.fol_formula.specs.View.{form, forms};
ghost use Rattle.fol_formula.specs.Fits.{FitsForm};
ghost use Rattle.fol_formula.specs.Fragments.{IsNormalForm};
ghost use Rattle.ground_terms.specs.Terms.{term_counts};
ghost use Rattle.ground_terms.specs.Universe.{symbols_in, names_in};
ghost use Rattle.ground_terms.specs.Trees.{node};
ghost use Rattle.ground_terms.specs.Calls.{calls_of};
ghost use Rattle.ground_terms.specs.Taking.{Hands};
ghost use Rattle.ground_expand.specs.Instance.{instance, instances, instance_of, literal_at};
ghost use Rattle.ground_expand.specs.Scopes.{sorts_in, terms_in};
ghost use Rattle.ground_expand.specs.Groundable.{IsGroundable, AreGroundable, IsGroundableAtom};

use crate::places::atom;
use crate::scope::Scope;
use base::Mem;
use fol_formula::{Formula, Universal, lists};
use fol_sig::Sort;
use ground_terms::{GroundSink, Herbrand, Junction, hand_literal, hand_node};
use std::alloc::Global;

/// Hands the instance of a sentence in normal form to a sink, in prefix order.
pub fn expand_into<S: GroundSink>(
    alloc: Global,
    universe: &Herbrand,
    sentence: &Universal,
    sink: &mut S,
) -> Mem<()>
    requires fits { FitsForm (symbols_in universe.now) [] sentence.now }
    requires normal { IsNormalForm sentence.now }
    ensures { Hands (S.stands sink.old) (S.stands sink.new) result
        (calls_of (instance_of (symbols_in universe.now) universe.now.terms.now sentence.now)) }
{
    let formula = sentence.sentence().formula();
    expand(alloc, universe, formula, &Scope::Outside, sink)
}

#[cycle(expand)]
fn expand<S: GroundSink>(
    alloc: Global,
    universe: &Herbrand,
    p: &Formula,
    scope: &Scope,
    sink: &mut S,
) -> Mem<()>
    requires in_range { InRange (term_counts universe.now.terms.now) (sorts_in scope.now) (terms_in scope.now) }
    requires known { IsGroundable (symbols_in universe.now) (sorts_in scope.now) (form p.now) }
    ensures { Hands (S.stands sink.old) (S.stands sink.new) result
        (calls_of (instance (symbols_in universe.now) (names_in universe.now) (sorts_in scope.now)
        (form p.now) (terms_in scope.now))) }
{
    match p {
        Formula::True => hand_node(sink, Junction::And, 0),
        Formula::False => hand_node(sink, Junction::Or, 0),
        Formula::Rel(_, _) => expand_atom(alloc, universe, p, true, scope, sink),
        Formula::Eq(_, _) => expand_atom(alloc, universe, p, true, scope, sink),
        Formula::Not(q) => expand_atom(alloc, universe, q, false, scope, sink),
        Formula::And(ps) => expand_parts(alloc, universe, Junction::And, ps, scope, sink),
        Formula::Or(ps) => expand_parts(alloc, universe, Junction::Or, ps, scope, sink),
        Formula::Forall(sort, q) => expand_each(alloc, universe, *sort, q, scope, sink),
        _ => unreachable!(),
    }
}

fn expand_atom<S: GroundSink>(
    alloc: Global,
    universe: &Herbrand,
    p: &Formula,
    positive: bool,
    scope: &Scope,
    sink: &mut S,
) -> Mem<()>
    requires in_range { InRange (term_counts universe.now.terms.now) (sorts_in scope.now) (terms_in scope.now) }
    requires known { IsGroundableAtom (symbols_in universe.now) (sorts_in scope.now) (form p.now) }
    ensures { Hands (S.stands sink.old) (S.stands sink.new) result
        (calls_of (literal_at (symbols_in universe.now) (names_in universe.now) (sorts_in scope.now)
        (form p.now) (terms_in scope.now) positive)) }
{
    let atom = atom(alloc, universe, p, scope);
    hand_literal(sink, atom, positive)
}

#[cycle(expand)]
fn expand_parts<S: GroundSink>(
    alloc: Global,
    universe: &Herbrand,
    junction: Junction,
    ps: &[Formula],
    scope: &Scope,
    sink: &mut S,
) -> Mem<()>
    requires in_range { InRange (term_counts universe.now.terms.now) (sorts_in scope.now) (terms_in scope.now) }
    requires known { AreGroundable (symbols_in universe.now) (sorts_in scope.now) (forms ps.now) }
    ensures { Hands (S.stands sink.old) (S.stands sink.new) result
        (calls_of (node junction
        (instances (symbols_in universe.now) (names_in universe.now) (sorts_in scope.now)
        (forms ps.now) (terms_in scope.now)))) }
{
    lists();
    hand_node(sink, junction, ps.len() as u64)?;
    for p in ps {
        expand(alloc, universe, p, scope, sink)?;
    }
    Ok(())
}

// An And over the terms of a sort.
#[cycle(expand)]
fn expand_each<S: GroundSink>(
    alloc: Global,
    universe: &Herbrand,
    sort: Sort,
    p: &Formula,
    scope: &Scope,
    sink: &mut S,
) -> Mem<()>
    requires in_range { InRange (term_counts universe.now.terms.now) (sorts_in scope.now) (terms_in scope.now) }
    requires sort { sort.0 < universe.now.signature.now.sorts }
    requires known { IsGroundable (symbols_in universe.now) (sort.0 ∷ sorts_in scope.now) (form p.now) }
    ensures { Hands (S.stands sink.old) (S.stands sink.new) result
        (calls_of (instance (symbols_in universe.now) (names_in universe.now) (sorts_in scope.now)
        (for_all sort.0 (form p.now)) (terms_in scope.now))) }
{
    let count = universe.terms.counts()[sort.0 as usize];
    hand_node(sink, Junction::And, count as u64)?;
    for term in 0..count {
        let inner = Scope::Bound {
            sort,
            term,
            outer: &*scope,
        };
        expand(alloc, universe, p, &inner, sink)?;
    }
    Ok(())
}
