// Whether the axioms of a model can be satisfied.
ghost use Rattle.std.specs.Prelude.{◌≡◌, IfOk};
ghost use Rattle.fol_formula.specs.Sentences.{all_of};
ghost use Rattle.limits.specs.Ceilings.{ceilings};
ghost use Rattle.obligation_decide.specs.GoalDecisions.{AreAxiomsDecided};

use crate::cause_of;
use base::Mem;
use ea_decide::Decided;
use fol_formula::{Ea, Sentence, conjunction};
use limits::Limits;
use rml_command::Checked;
use rml_report::Axioms;
use std::alloc::Global;

/// Decides whether some structure satisfies the axioms, under the limits of ground terms, ground size and conflicts.
pub fn decide_axioms(alloc: Global, checked: &Checked, limits: &Limits) -> Mem<Axioms>
    ensures { IfOk result (AreAxiomsDecided (ceilings limits.now) checked.now) }
{
    skolem::exactness();
    fol_nnf::exactness();
    let sentence = all_axioms(alloc, checked)?;
    let signature = checked.model().signature();
    let decided = ea_decide::decide(alloc, signature, checked.strata(), &sentence, limits);
    drop(sentence);
    match decided? {
        Decided::Refuted(_) => Ok(Axioms::Inconsistent),
        Decided::Satisfied(_) => Ok(Axioms::Consistent),
        Decided::Over(passed) => Ok(Axioms::Undecided(cause_of(passed))),
    }
}

/// The And of the axioms, by which they are decided.
pub fn all_axioms(alloc: Global, checked: &Checked) -> Mem<Ea>
    ensures { IfOk result (λ s. s ≡ all_of checked.now.axioms) }
{
    fol_formula::indices();
    let model = checked.model();
    let axioms = conjunction(alloc, model.axioms())?;
    Ok(Ea::new(Sentence::of(axioms)))
}
