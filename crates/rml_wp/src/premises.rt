// Which axioms are the premises of what must hold behind a step.
ghost use Rattle.std.specs.Prelude.{◌≡◌, ◌++◌, map, drop, IfOk};
ghost use Rattle.fol_formula.specs.View.{form};
ghost use Rattle.fol_formula.specs.Counts.{saturated};
ghost use Rattle.fol_formula.specs.Witnesses.{existentials};
ghost use Rattle.fol_occurs.specs.View.{named};
ghost use Rattle.fol_formula.specs.Sentences.{all_of};
ghost use Rattle.rml_wp.specs.Preconditions.{mentioning, premises_at};

use base::Mem;
use fol_formula::{Formula, Sentence, conjunction, existentials_of_all};
use fol_occurs::mentions;
use fol_sig::Symbol;
use std::alloc::Global;

/// The axioms that stand in a precondition as premises behind an update or a havoc: all, or those alone in which the
/// changed symbol occurs. The others stay true by themselves.
#[derive(Clone, Copy, Debug)]
pub enum Premises {
    All,
    Affected,
}

impl Premises {
    // The And of the axioms that are premises behind a change of the symbol.
    pub(crate) fn lawful(self, alloc: Global, axioms: &[Sentence], symbol: Symbol) -> Mem<Formula>
        ensures { IfOk result (λ f. form f ≡ all_of (premises_at self axioms.now (named symbol))) }
    {
        match self {
            Premises::All => {
                let all = conjunction(alloc, axioms)?;
                Ok(all)
            }
            Premises::Affected => {
                let some = all_mentioning(alloc, axioms, symbol)?;
                Ok(some)
            }
        }
    }

    // How many existentials these have in normal form.
    pub(crate) fn existentials(self, axioms: &[Sentence], symbol: Symbol) -> u64
        ensures { result ≡ saturated (existentials (all_of (premises_at self axioms.now (named symbol)))) }
    {
        match self {
            Premises::All => existentials_of_all(axioms),
            Premises::Affected => existentials_mentioning(axioms, symbol),
        }
    }
}

// The And of those in which the symbol occurs.
fn all_mentioning(alloc: Global, sentences: &[Sentence], symbol: Symbol) -> Mem<Formula>
    ensures { IfOk result (λ f. form f ≡ all_of (mentioning (named symbol) sentences.now)) }
{
    let mut some = Vec::new(alloc);
    for sentence in sentences {
        let formula = sentence.formula();
        if mentions(formula, symbol) {
            some.push(formula.copy(alloc)?)?;
        }
    }
    Ok(Formula::And(some))
}

fn existentials_mentioning(sentences: &[Sentence], symbol: Symbol) -> u64
    ensures { result ≡ saturated (existentials (all_of (mentioning (named symbol) sentences.now))) }
{
    let mut count = 0u64;
    for sentence in sentences {
        let formula = sentence.formula();
        if mentions(formula, symbol) {
            count = count.saturating_add(formula.existentials());
        }
    }
    count
}
