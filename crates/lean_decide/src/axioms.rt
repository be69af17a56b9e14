// Whether the axioms of a model can be satisfied. They are decided as goals are, by the lean form of their And first.
ghost use Rattle.std.specs.Prelude.{◌≡◌, IfOk, None};
ghost use Rattle.fol_formula.specs.Sentences.{all_of};
ghost use Rattle.ea_decide.specs.Passing.{Passes};
ghost use Rattle.limits.specs.Ceilings.{ceilings};
ghost use Rattle.obligation_decide.specs.GoalDecisions.{AreAxiomsDecided};

use base::{Mem, Refused};
use ea_decide::{Decided, Measured, measure};
use fol_formula::Ea;
use limits::Limits;
use obligation_decide::{all_axioms, decide_axioms};
use rml_command::Checked;
use rml_report::Axioms;
use std::alloc::{AllocError, Global};

/// Decides whether some structure satisfies the axioms, under the limits of ground terms, ground size and conflicts.
/// Which of them they pass by their size is counted of their And; its lean form decides, and where that leaves them
/// open, the And itself, so that a budget is spent on the clauses of that.
pub fn settle_axioms(alloc: Global, checked: &Checked, limits: &Limits) -> Mem<Axioms>
    ensures { IfOk result (AreAxiomsDecided (ceilings limits.now) checked.now) }
{
    let sentence = all_axioms(alloc, checked)?;
    let settled = settle_all(alloc, checked, &sentence, limits);
    drop(sentence);
    settled
}

// By their And.
fn settle_all(alloc: Global, checked: &Checked, sentence: &Ea, limits: &Limits) -> Mem<Axioms>
    requires sentence { sentence.now ≡ all_of checked.now.axioms }
    ensures { IfOk result (AreAxiomsDecided (ceilings limits.now) checked.now) }
{
    obligation_decide::axioms_law();
    let signature = checked.model().signature();
    match measure(alloc, signature, checked.strata(), sentence, limits)? {
        Measured::Within(_) => settle_small(alloc, checked, sentence, limits),
        Measured::Over(_) => decide_axioms(alloc, checked, limits),
    }
}

// Where they pass no limit by their size.
fn settle_small(alloc: Global, checked: &Checked, sentence: &Ea, limits: &Limits) -> Mem<Axioms>
    requires sentence { sentence.now ≡ all_of checked.now.axioms }
    requires small { Passes (ceilings limits.now) checked.now.signature (all_of checked.now.axioms) None }
    ensures { IfOk result (AreAxiomsDecided (ceilings limits.now) checked.now) }
{
    obligation_decide::axioms_law();
    let signature = checked.model().signature();
    match pruned_decide::decide(alloc, signature, checked.strata(), sentence, limits) {
        Ok(Decided::Refuted(_)) => Ok(Axioms::Inconsistent),
        Ok(Decided::Satisfied(_)) => Ok(Axioms::Consistent),
        Err(Refused::NoMemory) => Err(AllocError),
        Ok(Decided::Over(_)) | Err(Refused::For(_)) => decide_axioms(alloc, checked, limits),
    }
}
