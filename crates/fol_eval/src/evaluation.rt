// Evaluation along the formula.
ghost use Rattle.std.specs.Prelude.{◌≡◌, ◌<◌, ◌≤◌, length, slice_index, take};
ghost use Rattle.fol_sig.specs.Tables.{reading};
ghost use Rattle.fol_formula.specs.View.{form, term as term_view, forms, terms as terms_view};
ghost use Rattle.fol_formula.specs.Syntax.{for_all, for_some, size_of};
ghost use Rattle.fol_formula.specs.Truth.{truth, all_true, any_true, value as value_of, values};
ghost use Rattle.fol_formula.specs.Fits.{HasTruth, HaveTruth, HasValue};
ghost use Rattle.fol_formula.specs.Sentences.{satisfies};
ghost use Rattle.fol_eval.specs.Elements.{elements};
ghost use Rattle.fol_eval.specs.Safe.{SafeForm, SafeForms, SafeTerm, SafeTerms};
ghost use Rattle.fol_sig.specs.Arguments.{max_arguments};

use crate::Env;
use fol_formula::{Formula, Sentence, Term};
use fol_sig::{Sort, Structure, range_laws};

/// Whether the formula is true.
pub fn holds(structure: &Structure, formula: &Formula, env: &Env) -> bool
    requires { HasTruth structure.now (form formula.now) (elements env.now) }
    ensures { result ≡ truth (reading structure.now) (form formula.now) (elements env.now) }
{
    range_laws();
    is_true(structure, formula, env)
}

/// Whether a structure satisfies all of these sentences.
pub fn satisfies(structure: &Structure, sentences: &[Sentence]) -> bool
    requires { HaveTruth structure.now sentences.now }
    ensures { result ≡ satisfies structure.now sentences.now }
{
    for sentence in sentences {
        if !holds(structure, sentence.formula(), &Env::Empty) {
            return false;
        }
    }
    true
}

/// The value of a term.
pub fn value(structure: &Structure, term: &Term, env: &Env) -> u32
    requires { HasValue structure.now (term_view term.now) (elements env.now) }
    ensures { result ≡ value_of (reading structure.now) (term_view term.now) (elements env.now) }
{
    range_laws();
    evaluate(structure, term, env)
}

fn element_at(env: &Env, index: u32) -> u32
    requires { index < length (elements env.now) }
    ensures { result ≡ slice_index (elements env.now) index }
{
    match env {
        Env::Empty => unreachable!(),
        Env::Bind { element, outer } => {
            if index == 0 {
                *element
            } else {
                element_at(outer, index - 1)
            }
        }
    }
}

#[cycle(eval)]
fn is_true(structure: &Structure, formula: &Formula, env: &Env) -> bool
    requires { SafeForm structure.now (form formula.now) (elements env.now) }
    ensures { result ≡ truth (reading structure.now) (form formula.now) (elements env.now) }
{
    match formula {
        Formula::True => true,
        Formula::False => false,
        Formula::Rel(rel, args) => {
            let tuple = evaluate_all(structure, args, env);
            structure.rel(*rel, &tuple[..args.len()])
        }
        Formula::Eq(a, b) => evaluate(structure, a, env) == evaluate(structure, b, env),
        Formula::Not(p) => !is_true(structure, p, env),
        Formula::And(ps) => are_all_true(structure, ps, env),
        Formula::Or(ps) => is_any_true(structure, ps, env),
        Formula::Implies(p, q) => !is_true(structure, p, env) || is_true(structure, q, env),
        Formula::Iff(p, q) => is_true(structure, p, env) == is_true(structure, q, env),
        Formula::Forall(sort, p) => is_true_of_all(structure, *sort, p, env),
        Formula::Exists(sort, p) => is_true_of_some(structure, *sort, p, env),
    }
}

#[cycle(eval)]
fn are_all_true(structure: &Structure, formulas: &[Formula], env: &Env) -> bool
    requires { SafeForms structure.now (forms formulas.now) (elements env.now) }
    ensures { result ≡ all_true (reading structure.now) (forms formulas.now) (elements env.now) }
{
    for p in formulas {
        if !is_true(structure, p, env) {
            return false;
        }
    }
    true
}

#[cycle(eval)]
fn is_any_true(structure: &Structure, formulas: &[Formula], env: &Env) -> bool
    requires { SafeForms structure.now (forms formulas.now) (elements env.now) }
    ensures { result ≡ any_true (reading structure.now) (forms formulas.now) (elements env.now) }
{
    for p in formulas {
        if is_true(structure, p, env) {
            return true;
        }
    }
    false
}

#[cycle(eval)]
fn is_true_of_all(structure: &Structure, sort: Sort, body: &Formula, env: &Env) -> bool
    requires { SafeForm structure.now (for_all sort.0 (form body.now)) (elements env.now) }
    ensures { result ≡ truth (reading structure.now) (for_all sort.0 (form body.now)) (elements env.now) }
{
    for element in 0..structure.size(sort) {
        let inner = Env::Bind {
            element,
            outer: &*env,
        };
        if !is_true(structure, body, &inner) {
            return false;
        }
    }
    true
}

#[cycle(eval)]
fn is_true_of_some(structure: &Structure, sort: Sort, body: &Formula, env: &Env) -> bool
    requires { SafeForm structure.now (for_some sort.0 (form body.now)) (elements env.now) }
    ensures { result ≡ truth (reading structure.now) (for_some sort.0 (form body.now)) (elements env.now) }
{
    for element in 0..structure.size(sort) {
        let inner = Env::Bind {
            element,
            outer: &*env,
        };
        if is_true(structure, body, &inner) {
            return true;
        }
    }
    false
}

#[cycle(eval)]
fn evaluate(structure: &Structure, term: &Term, env: &Env) -> u32
    requires { SafeTerm structure.now (term_view term.now) (elements env.now) }
    ensures { result ≡ value_of (reading structure.now) (term_view term.now) (elements env.now) }
{
    match term {
        Term::Bound(index) => element_at(env, *index),
        Term::App(fun, args) => {
            let tuple = evaluate_all(structure, args, env);
            structure.fun(*fun, &tuple[..args.len()])
        }
        Term::Ite(p, a, b) => {
            if is_true(structure, p, env) {
                evaluate(structure, a, env)
            } else {
                evaluate(structure, b, env)
            }
        }
    }
}

#[cycle(eval)]
#[tactic(auto, using(crate::proofs::Laws::sizes))]
fn evaluate_all(structure: &Structure, terms: &[Term], env: &Env) -> [u32; 8]
    requires short { size_of (terms_view terms.now) ≤ max_arguments }
    requires safe { SafeTerms structure.now (terms_view terms.now) (elements env.now) }
    ensures room { length result ≡ max_arguments }
    ensures short { length terms.now ≤ max_arguments }
    ensures values { take (length terms.now) result ≡ values (reading structure.now) (terms_view terms.now)
        (elements env.now) }
{
    let mut tuple = [0u32; 8];
    for i in 0..terms.len() {
        tuple[i] = evaluate(structure, &terms[i], env);
    }
    tuple
}
