// Formulas without free indices.
ghost use Rattle.std.specs.Prelude.{◌≡◌, IfOk};
ghost use Rattle.fol_formula.specs.View.{form};
ghost use Rattle.fol_formula.specs.Fits.{BoundForm};
ghost use Rattle.fol_formula.specs.Sentences.{all_of};
ghost use Rattle.fol_formula.specs.Counts.{form_nodes, form_depth, saturated};

use crate::Formula;
use base::Mem;
use std::alloc::Global;
use std::marker::Model;

/// A formula whose every index is bound inside it.
#[derive(Drop, Debug)]
pub struct Sentence {
    formula: Formula,
}

impl Model for Sentence {
    ghost use Rattle.fol_formula.specs.Syntax.{FormTree};
    ghost use Rattle.fol_formula.specs.Code.{form_code};

    ghost Value = { FormTree };

    ghost coded = { form_code };

    ghost use Rattle.fol_formula.specs.View.{form};
    ghost use Rattle.fol_formula.specs.Fits.{BoundForm};

    ghost view = { λ s. form s.formula };

    ghost invariant = { λ s. BoundForm 0 (form s.formula) };
}

impl Sentence {
    /// The formula, which has no free index.
    pub fn of(formula: Formula) -> Sentence
        requires { BoundForm 0 (form formula) }
        ensures { result ≡ form formula }
    {
        Sentence { formula }
    }

    pub fn formula(&self) -> &Formula
        ensures value { form result.now ≡ self.now }
        ensures bound { BoundForm 0 self.now }
    {
        &self.formula
    }

    pub fn into_formula(self) -> Formula
        ensures value { form result ≡ self }
        ensures bound { BoundForm 0 self }
    {
        self.formula
    }

    /// How many nodes the formula has, or the greatest number where it has more.
    pub fn nodes(&self) -> u64
        ensures { result ≡ saturated (form_nodes self.now) }
    {
        self.formula.nodes()
    }

    /// How deep the formula is, or the greatest number where it is deeper.
    pub fn depth(&self) -> u64
        ensures { result ≡ saturated (form_depth self.now) }
    {
        self.formula.depth()
    }

    /// A second sentence with the same tree.
    pub fn copy(&self, alloc: Global) -> Mem<Sentence>
        ensures { IfOk result (λ s. s ≡ self.now) }
    {
        Ok(Sentence {
            formula: self.formula.copy(alloc)?,
        })
    }
}

/// The And of sentences.
pub fn conjunction(alloc: Global, sentences: &[Sentence]) -> Mem<Formula>
    ensures { IfOk result (λ f. form f ≡ all_of sentences.now) }
{
    let mut all = Vec::new(alloc);
    for sentence in sentences {
        all.push(sentence.formula().copy(alloc)?)?;
    }
    Ok(Formula::And(all))
}
