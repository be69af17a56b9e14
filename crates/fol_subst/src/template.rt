// A formula with parameters, counted once: what it becomes where arguments stand in their place, and how large that is.
ghost use Rattle.std.specs.Prelude.{◌≡◌, IfOk};
ghost use Rattle.fol_formula.specs.View.{form, terms as terms_view};
ghost use Rattle.fol_formula.specs.Counts.{form_nodes, form_depth};
ghost use Rattle.fol_subst.specs.Extents.{extent, places_form};
ghost use Rattle.fol_subst.specs.Templates.{instance, mentions};

use crate::extent::Extent;
use crate::indices::{Put, copy_formula};
use crate::measure::Measure;
use crate::places::places_in_formula;
use crate::replacement::Replacement;
use base::Mem;
use fol_formula::{Formula, Term};
use fol_sig::RelId;
use std::alloc::Global;
use std::marker::Model;

/// A formula whose free indices are parameters, the last one 0, with its size and the places of the first eight.
#[derive(Drop)]
pub struct Template {
    formula: Formula,
    measure: Measure,
}

impl Model for Template {
    ghost use Rattle.fol_formula.specs.Syntax.{FormTree};
    ghost use Rattle.fol_formula.specs.Code.{form_code};

    ghost Value = { FormTree };

    ghost coded = { form_code };

    ghost use Rattle.fol_formula.specs.View.{form};
    ghost use Rattle.fol_subst.specs.Replace.{change_rel};
    ghost use Rattle.fol_subst.specs.Measured.{Measures};

    ghost view = { λ t. form t.formula };

    ghost invariant = { λ t. Measures t.measure (change_rel 0 (form t.formula)) };
}

impl Template {
    /// The formula, which is counted here.
    pub fn of(formula: Formula) -> Template
        ensures { result ≡ form formula }
    {
        let measure = Measure::of(&Replacement::Rel(RelId(0), &formula));
        Template { formula, measure }
    }

    /// The formula.
    pub fn formula(&self) -> &Formula
        ensures { form result.now ≡ self.now }
    {
        &self.formula
    }

    /// The formula with the arguments in the place of its parameters. An index that four bytes do not hold is taken
    /// for want of memory.
    pub fn instance(&self, alloc: Global, mut args: Vec<Term>) -> Mem<Formula>
        ensures { IfOk result (λ f. form f ≡ instance self.now (terms_view args.items)) }
    {
        fol_formula::lists();
        args.reverse();
        let f = copy_formula(alloc, &self.formula, &Put { args: &args }, 0)?;
        Ok(f)
    }

    /// Whether a parameter stands in the formula. The last one is 0.
    pub fn mentions(&self, parameter: usize) -> bool
        ensures { result ≡ mentions self.now parameter }
    {
        self.places(parameter).depth > 0
    }

    /// The extent of the formula as it is.
    pub fn extent(&self) -> Extent
        ensures { result ≡ extent (form_nodes self.now) (form_depth self.now) }
    {
        self.measure.whole
    }

    /// The places of a parameter in the formula. The last one is 0.
    pub fn places(&self, parameter: usize) -> Extent
        ensures { result ≡ places_form parameter self.now }
    {
        if parameter < 8 {
            self.measure.places[parameter]
        } else {
            places_in_formula(&self.formula, parameter as u64)
        }
    }
}
