// A sentence's instance over its ground terms, and the axioms of equality over these.
ghost use Rattle.std.specs.Prelude.{◌≡◌, IfOk, OnOk};
ghost use Rattle.fol_formula.specs.View.{form};
ghost use Rattle.show_symbols.specs.Samples.{no_symbols, two_variables, alone, all_alone};

use base::Mem;
use equality_axioms::axioms;
use fol_formula::{Formula, Sentence, Term, Universal};
use fol_sig::{RelId, Signature, Sort, Sorts, strata};
use ground_expand::expand;
use ground_terms::{Atom, Herbrand, Junction, SinkCall, Terms};
use std::alloc::Global;
use std::io;

fn declare(alloc: Global, signature: &mut Signature) -> Mem<()>
    requires { signature.old ≡ no_symbols }
    ensures { OnOk result (signature.new ≡ two_variables) }
{
    let sort = signature.add_sort();
    let mut one = Sorts::new(alloc);
    one.push(sort);
    signature.add_relation(one)?;
    signature.add_function(Sorts::new(alloc), sort)?;
    signature.add_function(Sorts::new(alloc), sort)?;
    Ok(())
}

// A sort, a relation over it, and two variables.
fn signature(alloc: Global) -> Mem<Signature>
    ensures { IfOk result (λ s. s ≡ two_variables) }
{
    let mut signature = Signature::empty(alloc);
    match declare(alloc, &mut signature) {
        Ok(()) => Ok(signature),
        Err(wanting) => {
            drop(signature);
            Err(wanting)
        }
    }
}

// not r(x) or x = y, for the variables x and, nearer, y
fn matrix(alloc: Global) -> Mem<Formula>
    ensures { IfOk result (λ p. form p ≡ alone) }
{
    let mut args = Vec::new(alloc);
    args.push(Term::Bound(1))?;
    let related = Box::new(alloc, Formula::Rel(RelId(0), args))?;
    let mut parts = Vec::new(alloc);
    parts.push(Formula::Not(related))?;
    parts.push(Formula::Eq(Term::Bound(1), Term::Bound(0)))?;
    Ok(Formula::Or(parts))
}

// forall x. forall y. not r(x) or x = y
fn sentence(alloc: Global) -> Mem<Formula>
    ensures { IfOk result (λ p. form p ≡ all_alone) }
{
    let inner = Box::new(alloc, matrix(alloc)?)?;
    let outer = Box::new(alloc, Formula::Forall(Sort(0), inner))?;
    Ok(Formula::Forall(Sort(0), outer))
}

fn atom_text(alloc: Global, atom: &Atom, sign: &str) -> Mem<String> {
    match atom {
        Atom::Rel(relation, terms) => {
            let (r, terms) = (relation.0, terms.as_slice());
            format!(in alloc; "{sign}r{r}{terms:?}")
        }
        Atom::Eq(_, left, right) => format!(in alloc; "{sign}{left}={right}"),
    }
}

fn call_text(alloc: Global, call: &SinkCall) -> Mem<String> {
    match call {
        SinkCall::Literal(atom, true) => atom_text(alloc, atom, ""),
        SinkCall::Literal(atom, false) => atom_text(alloc, atom, "not "),
        SinkCall::Node(Junction::And, parts) => format!(in alloc; "and {parts}"),
        SinkCall::Node(Junction::Or, parts) => format!(in alloc; "or {parts}"),
    }
}

// How many formulas are to come, behind a call.
fn left_behind(left: u64, call: &SinkCall) -> u64 {
    match call {
        SinkCall::Literal(_, _) => left.saturating_sub(1),
        SinkCall::Node(_, parts) => left.saturating_sub(1).saturating_add(*parts),
    }
}

// A line for each formula.
fn tell_calls<R: Print>(rt: &R, alloc: Global, calls: &[SinkCall]) -> io::Result<()> {
    let mut left = 1u64;
    for call in calls {
        let text = call_text(alloc, call)?;
        let text = text.as_str();
        left = left_behind(left, call);
        if left == 0 {
            left = 1;
            println!(rt; "  {text}")?;
        } else {
            print!(rt; "  {text}")?;
        }
    }
    Ok(())
}

fn tell_instance<R: Print>(rt: &R, alloc: Global, universe: &Herbrand) -> io::Result<()>
    requires { universe.now.signature.now ≡ two_variables }
{
    let sentence = Universal::new(Sentence::of(sentence(alloc)?));
    let instance = expand(alloc, universe, &sentence);
    drop(sentence);
    let instance = instance?;
    let told = tell_calls(rt, alloc, &instance);
    drop(instance);
    told
}

fn tell_axioms<R: Print>(rt: &R, alloc: Global, universe: &Herbrand) -> io::Result<()> {
    let axioms = axioms(alloc, universe)?;
    let told = tell_calls(rt, alloc, &axioms);
    drop(axioms);
    told
}

fn tell_both<R: Print>(rt: &R, alloc: Global, universe: &Herbrand) -> io::Result<()>
    requires { universe.now.signature.now ≡ two_variables }
{
    println!(rt; "Instance of: forall x. forall y. not r0(x) or x = y, over two constants")?;
    tell_instance(rt, alloc, universe)?;
    println!(rt; "Axioms of equality:")?;
    tell_axioms(rt, alloc, universe)
}

// The signature has no function of arguments, so it has strata.
fn tell_over<R: Print>(rt: &R, alloc: Global, signature: &Signature) -> io::Result<()>
    requires { signature.now ≡ two_variables }
{
    let Ok(strata) = strata(alloc, signature) else {
        return Ok(());
    };
    let terms = Terms::new(alloc, signature, &strata);
    drop(strata);
    let terms = terms?;
    let universe = Herbrand {
        signature,
        terms: &terms,
    };
    let told = tell_both(rt, alloc, &universe);
    drop(terms);
    told
}

pub fn tell<R: Print>(rt: &R, alloc: Global) -> io::Result<()> {
    let signature = signature(alloc)?;
    let told = tell_over(rt, alloc, &signature);
    drop(signature);
    told
}
