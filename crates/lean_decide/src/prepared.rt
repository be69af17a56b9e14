// What is built once of a goal that is asked for counterexamples in structures that satisfy now these further
// sentences, now others: they are parts more in the And of its refuting sentence.
ghost use Rattle.std.specs.Prelude.{[], IfOk};
ghost use Rattle.std.specs.List.{AllByRecursion};
ghost use Rattle.fol_sig.specs.Symbols.{symbols};
ghost use Rattle.fol_formula.specs.Fits.{FitsForm};
ghost use Rattle.fol_formula.specs.Fragments.{IsEa};
ghost use Rattle.rml_command.specs.Goals.{IsGoal};
ghost use Rattle.limits.specs.Ceilings.{ceilings};
ghost use Rattle.obligation_decide.specs.Costs.{IsRestrictedMeasured};
ghost use Rattle.lean_decide.specs.Sought.{IsSought, IsAffected, IsCounted, IsPrepared};

use crate::seeking::{Sought, seek_by};
use base::{Mem, Refused};
use fol_formula::{Ae, Ea, Sentence};
use fol_sig::Signature;
use limits::{Cause, Limits};
use obligation_decide::{Measured, measure_by};
use rml_command::{Checked, Goal};
use rml_wp::{Premises, precondition, refuting};
use std::alloc::{AllocError, Global};

/// A goal whose sentences are built, each with the signature that it is over.
#[derive(Drop)]
pub struct Prepared {
    /// The refuting sentence with the affected axioms alone as premises. There is none where that passes the limit of
    /// formulas.
    pub affected: Option<(Signature, Ea)>,
    /// The precondition with all axioms as premises, by which the whole refuting sentence is counted. There is none
    /// where the goal passes the limit of formulas.
    pub precondition: Option<(Signature, Ae)>,
}

/// Builds the sentences of a goal of the model.
pub fn prepare(alloc: Global, checked: &Checked, goal: &Goal) -> Mem<Prepared>
    requires goal { IsGoal checked.now goal.now }
    ensures { IfOk result (IsPrepared checked.now goal.now) }
{
    let affected = affected_sentence(alloc, checked, goal)?;
    match whole_precondition(alloc, checked, goal) {
        Ok(precondition) => Ok(Prepared {
            affected,
            precondition,
        }),
        Err(wanting) => {
            drop(affected);
            Err(wanting)
        }
    }
}

// The refuting sentence with the affected axioms alone as premises.
fn affected_sentence(alloc: Global, checked: &Checked, goal: &Goal) -> Mem<Option<(Signature, Ea)>>
    requires goal { IsGoal checked.now goal.now }
    ensures { IfOk result (IsAffected checked.now goal.now) }
{
    match refuting(alloc, checked, Premises::Affected, goal) {
        Ok(sentence) => Ok(Some(sentence)),
        Err(Refused::NoMemory) => Err(AllocError),
        Err(Refused::For(_)) => Ok(None),
    }
}

// The precondition with all axioms as premises.
fn whole_precondition(alloc: Global, checked: &Checked, goal: &Goal) -> Mem<Option<(Signature, Ae)>>
    requires goal { IsGoal checked.now goal.now }
    ensures { IfOk result (IsCounted checked.now goal.now) }
{
    match precondition(alloc, checked, Premises::All, goal) {
        Ok(precondition) => Ok(Some(precondition)),
        Err(Refused::NoMemory) => Err(AllocError),
        Err(Refused::For(_)) => Ok(None),
    }
}

impl Prepared {
    /// What it would cost to decide whether the goal has a counterexample in a structure that satisfies further
    /// sentences, by the whole refuting sentence: the size of the ground formulas, or the limit that is passed.
    pub fn measure(
        &self,
        alloc: Global,
        checked: &Checked,
        goal: &Goal,
        more: &[Sentence],
        limits: &Limits,
    ) -> Mem<Measured>
        requires prepared { IsPrepared checked.now goal.now self.now }
        requires goal { IsGoal checked.now goal.now }
        requires fragment { AllByRecursion IsEa more.now }
        requires fits { AllByRecursion (FitsForm (symbols checked.now.signature) []) more.now }
        ensures { IfOk result (IsRestrictedMeasured (ceilings limits.now) checked.now more.now goal.now) }
    {
        match &self.precondition {
            Some((answered, precondition)) => {
                measure_by(alloc, checked, goal, answered, precondition, more, limits)
            }
            None => Ok(Measured::Over(Cause::Formula)),
        }
    }

    /// Seeks such a counterexample, by the lean form of the refuting sentence with the affected axioms alone as
    /// premises and the further sentences in its And. The limits are those of that form's own counts.
    pub fn seek(
        &self,
        alloc: Global,
        checked: &Checked,
        goal: &Goal,
        more: &[Sentence],
        limits: &Limits,
    ) -> Mem<Sought>
        requires prepared { IsPrepared checked.now goal.now self.now }
        requires goal { IsGoal checked.now goal.now }
        requires fragment { AllByRecursion IsEa more.now }
        requires fits { AllByRecursion (FitsForm (symbols checked.now.signature) []) more.now }
        ensures { IfOk result (IsSought (ceilings limits.now) checked.now more.now goal.now) }
    {
        match &self.affected {
            Some((answered, affected)) => {
                seek_by(alloc, checked, goal, answered, affected, more, limits)
            }
            None => Ok(Sought::Open),
        }
    }
}
