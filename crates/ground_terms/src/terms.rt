// The closed lists of ground terms.
ghost use Rattle.std.specs.Prelude.{◌≡◌, ◌<◌, ◌≤◌, ◌^◌, ◌+◌, ◌++◌, ℕ, [], length, map, replicate, slice_index};
ghost use Rattle.std.specs.Prelude.{All, IfOk, flat_map};
ghost use Rattle.fol_sig.specs.Symbols.{symbols};
ghost use Rattle.fol_sig.specs.Strata.{IsStrata};
ghost use Rattle.fol_sig.specs.Tables.{InRange, tuple_count, place_of, numbers};
ghost use Rattle.fol_sig.specs.Tuples.{tuples};
ghost use Rattle.ground_terms.specs.Terms.{AreClosed, StandOnce, term_counts, terms_into, terms_at, term_at};
ghost use Rattle.ground_terms.specs.Terms.{application};
ghost use Rattle.ground_terms.specs.TermCounts.{AreCounts, HasFewTerms};
ghost use Rattle.ground_terms.specs.FunctionRows.{functions_into, own_constant, own_applications};
ghost use Rattle.ground_terms.specs.FunctionRows.{IsOfFirst, noted, noted_at};
ghost use Rattle.ground_terms.specs.Numberings.{numbering, AreFirsts, IsPlaced};
ghost use Rattle.ground_terms.specs.TermViews.{plain_term};

use crate::functions_into::FunctionsInto;
use base::Mem;
use fol_sig::{
    FunId, Signature, Sort, Strata, Tuple, count_tuples, number_of_tuple, tuple_laws,
    tuple_of_number,
};
use std::alloc::Global;
use std::marker::Model;

/// The constant of a sort without other terms, or a function applied to terms. A number is the place of a term
/// in the list of its sort.
#[derive(Drop, Debug)]
pub enum GroundTerm {
    Default,
    App(FunId, Tuple),
}

/// The terms of each sort: its constants, then the applications of functions to terms, by function and tuple.
#[derive(Drop, Debug)]
pub struct Terms {
    lists: Vec<Vec<GroundTerm>>,
    counts: Vec<u32>,
    firsts: Vec<u32>,
}

impl Model for Terms {
    ghost use Rattle.std.specs.Prelude.{◌≡◌, map};
    ghost use Rattle.ground_terms.specs.Terms.{Lists, term_counts};
    ghost use Rattle.ground_terms.specs.Numberings.{AreFirsts};
    ghost use Rattle.ground_terms.specs.TermViews.{plain_term};

    ghost Value = { Lists };

    ghost view = { λ s. map (λ v. map plain_term v.items) s.lists.items };

    ghost invariant = { λ s. (s.counts.items ≡ term_counts (map (λ v. map plain_term v.items) s.lists.items))
        × AreFirsts (map (λ v. map plain_term v.items) s.lists.items) s.firsts.items };
}

impl Terms {
    /// The closed lists of a signature.
    pub fn new(alloc: Global, signature: &Signature, strata: &Strata) -> Mem<Terms>
        requires strata { IsStrata (symbols signature.now) strata.now }
        requires few { HasFewTerms (symbols signature.now) }
        ensures closed { IfOk result (AreClosed (symbols signature.now)) }
        ensures once { IfOk result (StandOnce (symbols signature.now)) }
        ensures counted { IfOk result (λ terms. AreCounts (symbols signature.now) (term_counts terms)) }
    {
        tuple_laws();
        let (lists, counts) = closed_lists(alloc, signature, strata)?;
        let firsts = first_places(alloc, signature, &lists, &counts)?;
        Ok(Terms {
            lists,
            counts,
            firsts,
        })
    }

    /// How many terms each sort has.
    pub fn counts(&self) -> &[u32]
        ensures { result.now ≡ term_counts self.now }
    {
        &self.counts
    }

    /// The terms of a sort.
    pub fn of_sort(&self, sort: Sort) -> &[GroundTerm]
        requires { sort.0 < length self.now }
        ensures { map plain_term result.now ≡ terms_at self.now sort.0 }
    {
        &self.lists[sort.0 as usize]
    }
}

/// A signature and its ground terms, of each sort all: its Herbrand universe.
#[derive(Clone, Copy)]
pub struct Herbrand<'a> {
    pub signature: &'a Signature,
    pub terms: &'a Terms,
    ghost closed: { AreClosed (symbols signature.now) terms.now },
}

impl<'a> Herbrand<'a> {
    /// The place of a function's application to terms, in the list of the function's sort.
    pub fn place(&self, function: FunId, arguments: &[u32]) -> u32
        requires known { function.0 < length self.now.signature.now.functions }
        requires in_range { InRange (term_counts self.now.terms.now)
            ((symbols self.now.signature.now).from_of function.0) arguments.now }
        ensures value { result
            ≡ (numbering (symbols self.now.signature.now) self.now.terms.now).place function.0 arguments.now }
        ensures placed { IsPlaced (symbols self.now.signature.now) self.now.terms.now function.0 arguments.now }
    {
        tuple_laws();
        let _sorts = self.signature.sorts();
        let terms = self.terms;
        place_in(
            &terms.counts,
            &terms.firsts,
            self.signature.from_of(function),
            function,
            arguments,
        )
    }
}

fn place_in(
    counts: &[u32],
    firsts: &[u32],
    sorts: &[Sort],
    function: FunId,
    arguments: &[u32],
) -> u32
    requires sorted { All (λ k. k < length counts.now) (numbers sorts.now) }
    requires in_range { InRange counts.now (numbers sorts.now) arguments.now }
    requires known { function.0 < length firsts.now }
    requires room { (k : ℕ)
        × (slice_index firsts.now function.0 + tuple_count counts.now (numbers sorts.now) ≤ slice_index counts.now k) }
    ensures { result ≡ slice_index firsts.now function.0 + place_of counts.now (numbers sorts.now) arguments.now }
{
    firsts[function.0 as usize] + number_of_tuple(counts, sorts, arguments) as u32
}

// The lists, and how long each is.
fn closed_lists(
    alloc: Global,
    signature: &Signature,
    strata: &Strata,
) -> Mem<(Vec<Vec<GroundTerm>>, Vec<u32>)>
    requires strata { IsStrata (symbols signature.now) strata.now }
    requires few { HasFewTerms (symbols signature.now) }
    ensures closed { IfOk result
        (λ made. AreClosed (symbols signature.now) (map (λ v. map plain_term v.items) made.0.items)) }
    ensures counted { IfOk result
        (λ made. made.1.items ≡ term_counts (map (λ v. map plain_term v.items) made.0.items)) }
{
    tuple_laws();
    let functions = FunctionsInto::new(alloc, signature)?;
    let mut lists = empty_lists(alloc, signature.sorts())?;
    let mut counts = vec![in alloc; 0u32; signature.sorts() as usize]?;
    for sort in strata.order() {
        let list = terms_of(alloc, signature, &counts, *sort, functions.of_sort(*sort))?;
        counts[sort.0 as usize] = list.len() as u32;
        lists[sort.0 as usize] = list;
    }
    Ok((lists, counts))
}

// An empty list for each of so many sorts.
fn empty_lists(alloc: Global, sorts: u32) -> Mem<Vec<Vec<GroundTerm>>>
    ensures { IfOk result (λ lists. map (λ v. map plain_term v.items) lists.items ≡ replicate sorts []) }
{
    let mut lists = Vec::new(alloc);
    for _k in 0..sorts {
        lists.push(Vec::new(alloc))?;
    }
    Ok(lists)
}

// The terms of a sort, where each sort has so many, and these are the functions into it.
fn terms_of(
    alloc: Global,
    signature: &Signature,
    counts: &[u32],
    sort: Sort,
    functions: &[FunId],
) -> Mem<Vec<GroundTerm>>
    requires each { length counts.now ≡ signature.now.sorts }
    requires into { map (λ f. f.0) functions.now
        ≡ functions_into (symbols signature.now) (length signature.now.functions) sort.0 }
    requires few { length (terms_into (symbols signature.now) counts.now sort.0) < 2 ^ 32 }
    ensures { IfOk result (λ ts. map plain_term ts.items ≡ terms_into (symbols signature.now) counts.now sort.0) }
{
    tuple_laws();
    let mut all = Vec::new(alloc);
    push_constants(alloc, signature, functions, &mut all)?;
    push_applications(alloc, signature, counts, functions, &mut all)?;
    if all.is_empty() {
        all.push(GroundTerm::Default)?;
    }
    Ok(all)
}

fn push_constants(
    alloc: Global,
    signature: &Signature,
    functions: &[FunId],
    all: &mut Vec<GroundTerm>,
) -> Mem<()>
    requires { All (λ f. f < length signature.now.functions) (map (λ f. f.0) functions.now) }
    ensures { IfOk result (λ _. map plain_term all.new.items ≡ map plain_term all.old.items
        ++ flat_map (own_constant (symbols signature.now)) (map (λ f. f.0) functions.now)) }
{
    for function in functions {
        push_constant(alloc, signature, *function, all)?;
    }
    Ok(())
}

fn push_constant(
    alloc: Global,
    signature: &Signature,
    function: FunId,
    all: &mut Vec<GroundTerm>,
) -> Mem<()>
    requires { function.0 < length signature.now.functions }
    ensures { IfOk result (λ _. map plain_term all.new.items ≡ map plain_term all.old.items
        ++ own_constant (symbols signature.now) function.0) }
{
    if signature.from_of(function).is_empty() {
        all.push(GroundTerm::App(function, Tuple::new(alloc)))?;
    }
    Ok(())
}

fn push_applications(
    alloc: Global,
    signature: &Signature,
    counts: &[u32],
    functions: &[FunId],
    all: &mut Vec<GroundTerm>,
) -> Mem<()>
    requires each { length counts.now ≡ signature.now.sorts }
    requires known { All (λ f. f < length signature.now.functions) (map (λ f. f.0) functions.now) }
    requires few { All (λ f. tuple_count counts.now ((symbols signature.now).from_of f) < 2 ^ 32)
        (map (λ f. f.0) functions.now) }
    ensures { IfOk result (λ _. map plain_term all.new.items ≡ map plain_term all.old.items
        ++ flat_map (own_applications (symbols signature.now) counts.now) (map (λ f. f.0) functions.now)) }
{
    for function in functions {
        push_applications_of(alloc, signature, counts, *function, all)?;
    }
    Ok(())
}

fn push_applications_of(
    alloc: Global,
    signature: &Signature,
    counts: &[u32],
    function: FunId,
    all: &mut Vec<GroundTerm>,
) -> Mem<()>
    requires each { length counts.now ≡ signature.now.sorts }
    requires known { function.0 < length signature.now.functions }
    requires few { tuple_count counts.now ((symbols signature.now).from_of function.0) < 2 ^ 32 }
    ensures { IfOk result (λ _. map plain_term all.new.items ≡ map plain_term all.old.items
        ++ own_applications (symbols signature.now) counts.now function.0) }
{
    let _sorts = signature.sorts();
    let from = signature.from_of(function);
    if !from.is_empty() {
        push_each(alloc, counts, from, function, all)?;
    }
    Ok(())
}

// Pushes the application to each tuple.
fn push_each(
    alloc: Global,
    counts: &[u32],
    sorts: &[Sort],
    function: FunId,
    all: &mut Vec<GroundTerm>,
) -> Mem<()>
    requires sorted { All (λ k. k < length counts.now) (numbers sorts.now) }
    requires short { length sorts.now ≤ 8 }
    requires few { tuple_count counts.now (numbers sorts.now) < 2 ^ 32 }
    ensures { IfOk result (λ _. map plain_term all.new.items ≡ map plain_term all.old.items
        ++ map (application function.0) (tuples counts.now (numbers sorts.now))) }
{
    tuple_laws();
    for number in 0..count_tuples(counts, sorts) {
        let arguments = tuple_of_number(alloc, counts, sorts, number);
        all.push(GroundTerm::App(function, arguments))?;
    }
    Ok(())
}

// The place of the first application of each function.
fn first_places(
    alloc: Global,
    signature: &Signature,
    lists: &[Vec<GroundTerm>],
    counts: &[u32],
) -> Mem<Vec<u32>>
    requires closed { AreClosed (symbols signature.now) (map (λ v. map plain_term v.items) lists.now) }
    requires counted { counts.now ≡ term_counts (map (λ v. map plain_term v.items) lists.now) }
    ensures { IfOk result (λ firsts. AreFirsts (map (λ v. map plain_term v.items) lists.now) firsts.items) }
{
    let mut firsts = vec![in alloc; 0u32; signature.function_count() as usize]?;
    for k in 0..signature.sorts() as usize {
        note_firsts(&lists[k], counts[k], &mut firsts);
    }
    Ok(firsts)
}

// Writes down the place of each term for its function, from the last term to the first, so that the first one stays.
fn note_firsts(terms: &[GroundTerm], count: u32, firsts: &mut Vec<u32>)
    requires counted { count ≡ length terms.now }
    requires known { All (IsOfFirst (length firsts.old.items)) (map plain_term terms.now) }
    ensures { firsts.new.items ≡ noted 0 (map plain_term terms.now) firsts.old.items }
{
    let mut place = count;
    while place > 0 {
        place -= 1;
        note_first(&terms[place as usize], place, firsts);
    }
}

fn note_first(term: &GroundTerm, place: u32, firsts: &mut Vec<u32>)
    requires { IsOfFirst (length firsts.old.items) (plain_term term.now) }
    ensures { firsts.new.items ≡ noted_at place (plain_term term.now) firsts.old.items }
{
    if let GroundTerm::App(function, _) = term {
        firsts[function.0 as usize] = place;
    }
}
