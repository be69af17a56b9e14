// Bounds as sentences.
ghost use Rattle.std.specs.Prelude.{◌≡◌, ◌-◌, ◌≤◌, ◌<◌, ◌^◌, [], map, IfOk, OnOk};
ghost use Rattle.fol_formula.specs.Syntax.{FormTrees, equal, disjunction, for_all, forms_then, bound as variable};
ghost use Rattle.fol_formula.specs.View.{form, forms};
ghost use Rattle.fol_formula.specs.Fits.{FitsForm};
ghost use Rattle.fol_formula.specs.Fragments.{IsEa};
ghost use Rattle.fol_sig.specs.Symbols.{symbols};
ghost use Rattle.std.specs.List.{AllByRecursion};
ghost use Rattle.cti_minimise.specs.SizeBounds.{equations, for_some_times, size_bound};
ghost use Rattle.cti_minimise.specs.SizeBounds.{equations_with, pair_equations, for_all_times, pair_bound};
ghost use Rattle.cti_minimise.specs.SizeBounds.{most_paired, short_bound};
ghost use Rattle.cti_minimise.specs.Extents.{places};
ghost use Rattle.cti_minimise.specs.Bounding.{relation_bound, bound_at, bounds_by};
ghost use Rattle.cti_minimise.specs.Saying.{short_at, sparse_at, said_by};
ghost use Rattle.cti_minimise.specs.Within.{numbers_within, AreBoundsFor};

use crate::laws::{bound_law, saying_law};
use crate::tuple_bounds::tuple_bound;
use base::Mem;
use fol_formula::{Formula, Sentence, Term};
use fol_sig::{RelId, Signature, Sort};
use std::alloc::{AllocError, Global};

/// The most elements on which a bound is said by pairs. On more it would pass any limit: a sort that has more than
/// seven elements has as many ground terms, and a bound on seven has an instance for each eight of these.
pub const MOST_PAIRED: u32 = 6;

/// How bounds are said.
#[derive(Clone, Copy)]
pub enum Saying {
    /// Each element, or true tuple, is one of so many that there are: a constant for each, or for each of its elements.
    Named,
    /// On few elements: of one more elements two are equal. That needs no constants.
    Short,
    /// The same, and nothing of the relations before the bounded place.
    Sparse,
}

/// Bounds: before a place an extent has at most these numbers, and there at most this.
#[derive(Clone, Copy)]
pub struct Bounds<'a> {
    pub numbers: &'a [u64],
    pub place: usize,
    pub most: u64,
}

/// The sentences that say bounds.
pub fn bounds_on(
    alloc: Global,
    signature: &Signature,
    bounds: &Bounds,
    saying: Saying,
) -> Mem<Vec<Sentence>>
    requires { AreBoundsFor signature.now bounds.now }
    ensures said { IfOk result (λ v. v.items ≡ bounds_by
        (said_by signature.now saying bounds.now.place) 0 (numbers_within bounds.now)) }
    ensures fragment { IfOk result (λ v. AllByRecursion IsEa v.items) }
    ensures fits { IfOk result (λ v. AllByRecursion (FitsForm (symbols signature.now) []) v.items) }
{
    saying_law();
    let _sorts = signature.sorts();
    let sentences = sentences(alloc, signature, bounds, saying)?;
    Ok(sentences)
}

// One sentence for each.
fn sentences(
    alloc: Global,
    signature: &Signature,
    bounds: &Bounds,
    saying: Saying,
) -> Mem<Vec<Sentence>>
    requires { AreBoundsFor signature.now bounds.now }
    ensures { IfOk result (λ v. v.items ≡ bounds_by (said_by signature.now saying bounds.now.place) 0
        (numbers_within bounds.now)) }
{
    let last = bounds.place;
    let mut sentences = Vec::new(alloc);
    for place in 0..last {
        let most = bounds.numbers[place];
        sentences.push(said(alloc, signature, saying, last, place, most)?)?;
    }
    sentences.push(said(alloc, signature, saying, last, last, bounds.most)?)?;
    Ok(sentences)
}

// The sentence that says the bound at a place, where the last bounded place is this.
fn said(
    alloc: Global,
    signature: &Signature,
    saying: Saying,
    last: usize,
    place: usize,
    most: u64,
) -> Mem<Sentence>
    requires { place < places signature.now }
    ensures { IfOk result (λ s. s ≡ said_by signature.now saying last place most) }
{
    match saying {
        Saying::Named => named(alloc, signature, place, most),
        Saying::Short => short(alloc, signature, place, most),
        Saying::Sparse => sparse(alloc, signature, last, place, most),
    }
}

// By constants.
fn named(alloc: Global, signature: &Signature, place: usize, most: u64) -> Mem<Sentence>
    requires { place < places signature.now }
    ensures { IfOk result (λ s. s ≡ bound_at signature.now place most) }
{
    if place < signature.sorts() as usize {
        size_bound(alloc, Sort(place as u32), few(most)?)
    } else {
        relation_bound(alloc, signature, place, most)
    }
}

// Without constants for few elements of a sort.
fn short(alloc: Global, signature: &Signature, place: usize, most: u64) -> Mem<Sentence>
    requires { place < places signature.now }
    ensures { IfOk result (λ s. s ≡ short_at signature.now place most) }
{
    if place < signature.sorts() as usize {
        short_bound(alloc, Sort(place as u32), few(most)?)
    } else {
        relation_bound(alloc, signature, place, most)
    }
}

// The same, and nothing of the relations before the last place.
fn sparse(
    alloc: Global,
    signature: &Signature,
    last: usize,
    place: usize,
    most: u64,
) -> Mem<Sentence>
    requires { place < places signature.now }
    ensures { IfOk result (λ s. s ≡ sparse_at signature.now last place most) }
{
    if place >= signature.sorts() as usize && place < last {
        Ok(Sentence::of(Formula::True))
    } else {
        short(alloc, signature, place, most)
    }
}

// The bound on the relation at a place behind the sorts.
fn relation_bound(alloc: Global, signature: &Signature, place: usize, most: u64) -> Mem<Sentence>
    requires place { place < places signature.now }
    requires behind { signature.now.sorts ≤ place }
    ensures { IfOk result (λ s. s ≡ relation_bound signature.now (place - signature.now.sorts) most) }
{
    let rel = RelId((place - signature.sorts() as usize) as u32);
    tuple_bound(alloc, signature, rel, few(most)?)
}

// A number of things that a sentence can name. A sentence that names more has no room in memory.
fn few(most: u64) -> Mem<u32>
    ensures value { IfOk result (λ n. n ≡ most) }
    ensures few { IfOk result (λ n. n < 2 ^ 28) }
{
    if most < 1 << 28 {
        Ok(most as u32)
    } else {
        Err(AllocError)
    }
}

// By a constant for each of the elements.
fn size_bound(alloc: Global, sort: Sort, most: u32) -> Mem<Sentence>
    ensures { IfOk result (λ s. s ≡ size_bound sort.0 most) }
{
    bound_law();
    fol_formula::indices();
    let each = each_is_one(alloc, sort, most)?;
    let formula = exists_times(alloc, most, sort, each)?;
    Ok(Sentence::of(formula))
}

// Without constants, where it is on few elements.
fn short_bound(alloc: Global, sort: Sort, most: u32) -> Mem<Sentence>
    ensures { IfOk result (λ s. s ≡ short_bound sort.0 most) }
{
    if most <= MOST_PAIRED {
        pair_bound(alloc, sort, most)
    } else {
        size_bound(alloc, sort, most)
    }
}

// Of one more elements two are equal.
fn pair_bound(alloc: Global, sort: Sort, most: u32) -> Mem<Sentence>
    requires { most ≤ most_paired }
    ensures { IfOk result (λ s. s ≡ pair_bound sort.0 most) }
{
    bound_law();
    fol_formula::indices();
    let some = some_are_equal(alloc, most)?;
    let formula = forall_times(alloc, most + 1, sort, some)?;
    Ok(Sentence::of(formula))
}

// Each element of the sort is one of so many that are bound around this.
fn each_is_one(alloc: Global, sort: Sort, count: u32) -> Mem<Formula>
    ensures { IfOk result (λ f. form f ≡ for_all sort.0 (disjunction (equations count))) }
{
    let equations = equations(alloc, count)?;
    let one = Box::new(alloc, Formula::Or(equations))?;
    Ok(Formula::Forall(sort, one))
}

// Two of the variables from 0 to this one are equal.
fn some_are_equal(alloc: Global, last: u32) -> Mem<Formula>
    ensures { IfOk result (λ f. form f ≡ disjunction (pair_equations last)) }
{
    let equations = pair_equations(alloc, last)?;
    Ok(Formula::Or(equations))
}

// The formula under so many existential quantifiers.
fn exists_times(alloc: Global, count: u32, sort: Sort, body: Formula) -> Mem<Formula>
    ensures { IfOk result (λ f. form f ≡ for_some_times count sort.0 (form body)) }
{
    let mut formula = body;
    for _i in 0..count {
        formula = Formula::Exists(sort, Box::new(alloc, formula)?);
    }
    Ok(formula)
}

// The formula under so many universal quantifiers.
fn forall_times(alloc: Global, count: u32, sort: Sort, body: Formula) -> Mem<Formula>
    ensures { IfOk result (λ f. form f ≡ for_all_times count sort.0 (form body)) }
{
    let mut formula = body;
    for _i in 0..count {
        formula = Formula::Forall(sort, Box::new(alloc, formula)?);
    }
    Ok(formula)
}

// The equations of the nearest variable with each of so many around it, the outermost first.
fn equations(alloc: Global, count: u32) -> Mem<Vec<Formula>>
    ensures { IfOk result (λ ps. forms ps.items ≡ equations count) }
{
    fol_formula::lists();
    let mut all = Vec::new(alloc);
    let mut left = count;
    while left > 0 {
        all.push(Formula::Eq(Term::Bound(0), Term::Bound(left)))?;
        left -= 1;
    }
    Ok(all)
}

// The equations of each two of the variables from 0 to this one, the outermost first.
fn pair_equations(alloc: Global, last: u32) -> Mem<Vec<Formula>>
    ensures { IfOk result (λ ps. forms ps.items ≡ pair_equations last) }
{
    fol_formula::lists();
    let mut all = Vec::new(alloc);
    let mut left = last;
    while left > 0 {
        push_equations(&mut all, left)?;
        left -= 1;
    }
    Ok(all)
}

// Pushes the equations of a variable with each that is nearer, the outermost first.
fn push_equations(all: &mut Vec<Formula>, last: u32) -> Mem<()>
    ensures { OnOk result ((others : FormTrees) → forms_then (map form all.new.items) others
        ≡ forms_then (map form all.old.items) (equations_with last last others)) }
{
    fol_formula::lists();
    let mut left = last;
    while left > 0 {
        left -= 1;
        all.push(equation(left, last))?;
    }
    Ok(())
}

// That two variables are equal.
fn equation(one: u32, other: u32) -> Formula
    ensures { form result ≡ equal (variable one) (variable other) }
{
    Formula::Eq(Term::Bound(one), Term::Bound(other))
}
