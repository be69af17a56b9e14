// How large a sentence is once it is ground: counted, and made.
ghost use Rattle.std.specs.Prelude.{[]};
ghost use Rattle.fol_sig.specs.Symbols.{symbols};
ghost use Rattle.fol_sig.specs.Strata.{IsStrata};
ghost use Rattle.fol_formula.specs.Fits.{FitsForm};

use base::Mem;
use ea_decide::{Decided, decide};
use fol_formula::{Ea, Normal};
use fol_nnf::normal;
use fol_sig::{Signature, Strata};
use ground_size::{count, ground_size};
use limits::Limits;
use skolem::constants;
use std::alloc::Global;

// No larger ground formulas are made.
const MOST: u64 = 1_000_000;

// How many terms there are, and the size of the ground formulas.
#[derive(Clone, Copy)]
struct Size {
    terms: u64,
    nodes: u64,
}

fn size_of(alloc: Global, signature: &Signature, strata: &Strata, sentence: &Ea) -> Mem<Size>
    requires strata { IsStrata (symbols signature.now) strata.now }
    requires fits { FitsForm (symbols signature.now) [] sentence.now }
{
    let counts = count(alloc, signature, strata, sentence)?;
    let terms = counts.total();
    let nodes = ground_size(signature, &counts, sentence);
    drop(counts);
    Ok(Size { terms, nodes })
}

fn constants_of(alloc: Global, signature: &Signature, sentence: &Normal) -> Mem<String>
    requires { FitsForm (symbols signature.now) [] sentence.now }
{
    skolem::exactness();
    let nodes = sentence.sentence().nodes();
    if nodes > MOST || signature.function_count() > 1000 {
        return String::from_str(alloc, "many constants");
    }
    let made = constants(alloc, signature, sentence)?;
    let sorts = made.constants.as_slice();
    let answer = format!(in alloc; "{nodes} nodes in normal form, constants of {sorts:?}");
    drop(made);
    answer
}

fn normal_form(alloc: Global, signature: &Signature, sentence: &Ea) -> Mem<String>
    requires { FitsForm (symbols signature.now) [] sentence.now }
{
    let normal = normal(alloc, sentence)?;
    let answer = constants_of(alloc, signature, &normal);
    drop(normal);
    answer
}

fn limits() -> Limits {
    Limits {
        terms: 1000,
        ground_size: MOST,
        conflicts: 10_000,
    }
}

fn decided(alloc: Global, signature: &Signature, strata: &Strata, sentence: &Ea) -> Mem<String>
    requires strata { IsStrata (symbols signature.now) strata.now }
    requires fits { FitsForm (symbols signature.now) [] sentence.now }
{
    match decide(alloc, signature, strata, sentence, &limits())? {
        Decided::Refuted(proof) => {
            let cnf = proof.formula();
            let (variables, clauses) = (cnf.variables(), cnf.clauses().len());
            drop(proof);
            format!(in alloc; "refuted over {variables} variables and {clauses} clauses")
        }
        Decided::Satisfied(satisfied) => {
            drop(satisfied);
            String::from_str(alloc, "satisfied")
        }
        Decided::Over(passed) => format!(in alloc; "over {passed:?}"),
    }
}

/// What is said of an exists-forall sentence.
pub fn ground_of(
    alloc: Global,
    signature: &Signature,
    strata: &Strata,
    sentence: &Ea,
) -> Mem<String>
    requires strata { IsStrata (symbols signature.now) strata.now }
    requires fits { FitsForm (symbols signature.now) [] sentence.now }
{
    let Size { terms, nodes } = size_of(alloc, signature, strata, sentence)?;
    if nodes > MOST {
        return format!(in alloc; "{terms} terms, ground size {nodes}");
    }
    let normal = normal_form(alloc, signature, sentence)?;
    let answer = decided(alloc, signature, strata, sentence)?;
    let (normal, answer) = (normal.as_str(), answer.as_str());
    format!(in alloc; "{normal}; {terms} terms, ground size {nodes}, {answer}")
}
