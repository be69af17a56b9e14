// Which limit a goal passes by its size. Its refuting sentence is counted, whole in the model's pool or lean, and
// nothing is decided.
ghost use Rattle.std.specs.Prelude.{◌≡◌, false, IfOk};
ghost use Rattle.rml_command.specs.Goals.{IsGoal};
ghost use Rattle.rml_wp.specs.declared.premises.Premises.TheVariants.{Affected};
ghost use Rattle.rml_wp.specs.Preconditions.{answered as answered_of, goal_passes_limit};
ghost use Rattle.pool_wp.specs.Sharing.{IsPoolOf};
ghost use Rattle.limits.specs.Ceilings.{ceilings};
ghost use Rattle.lean_decide.specs.Lean.{affected_refuting};
ghost use Rattle.lean_decide.specs.Settled.{IsPassing};
ghost use Rattle.lean_decide.specs.declared.settling.Counted.TheVariants.{Whole, Lean};

use base::{Mem, Refused};
use fol_formula::Ea;
use fol_sig::Signature;
use limits::{Cause, Limits};
use obligation_decide::{Measured, cause_of, measure};
use pool_wp::ModelPool;
use rml_command::{Checked, Goal};
use rml_wp::{Premises, refuting};
use std::alloc::{AllocError, Global};

/// By the counts of its whole refuting sentence.
pub fn whole_passed(
    alloc: Global,
    shared: &mut ModelPool,
    checked: &Checked,
    goal: &Goal,
    limits: &Limits,
) -> Mem<Option<Cause>>
    requires shared { IsPoolOf checked.now shared.old }
    requires goal { IsGoal checked.now goal.now }
    ensures passed { IfOk result (IsPassing Whole (ceilings limits.now) checked.now goal.now) }
    ensures shared { IsPoolOf checked.now shared.new }
{
    rml_wp::sentence_law();
    match measure(alloc, shared, checked, goal, limits)? {
        Measured::Over(cause) => Ok(Some(cause)),
        Measured::Within(_) => Ok(None),
    }
}

/// By those of its lean one. One that is too large to be built is answered as want of memory: one with 2,147,483,648
/// functions and constants or more, or with a normal form of over 50,000,000 nodes, which no limit allows.
pub fn lean_passed(
    alloc: Global,
    checked: &Checked,
    goal: &Goal,
    limits: &Limits,
) -> Mem<Option<Cause>>
    requires goal { IsGoal checked.now goal.now }
    ensures { IfOk result (IsPassing Lean (ceilings limits.now) checked.now goal.now) }
{
    match refuting(alloc, checked, Premises::Affected, goal) {
        Ok((answered, sentence)) => {
            let passed = sentence_passed(alloc, checked, goal, &answered, &sentence, limits);
            drop(sentence);
            drop(answered);
            passed
        }
        Err(Refused::NoMemory) => Err(AllocError),
        Err(Refused::For(_)) => Ok(Some(Cause::Formula)),
    }
}

// The same, given its refuting sentence with the affected axioms alone as premises.
fn sentence_passed(
    alloc: Global,
    checked: &Checked,
    goal: &Goal,
    answered: &Signature,
    sentence: &Ea,
    limits: &Limits,
) -> Mem<Option<Cause>>
    requires goal { IsGoal checked.now goal.now }
    requires answered { answered.now ≡ answered_of checked.now goal.now }
    requires sentence { sentence.now ≡ affected_refuting checked.now goal.now }
    requires within { goal_passes_limit Affected checked.now goal.now ≡ false }
    ensures { IfOk result (IsPassing Lean (ceilings limits.now) checked.now goal.now) }
{
    rml_wp::sentence_law();
    rml_wp::answered_goal(checked, goal);
    let _checked = checked.model();
    match pruned_decide::measure(alloc, answered, checked.strata(), sentence, limits) {
        Ok(ea_decide::Measured::Within(_)) => Ok(None),
        Ok(ea_decide::Measured::Over(passed)) => Ok(Some(cause_of(passed))),
        Err(Refused::NoMemory) | Err(Refused::For(_)) => Err(AllocError),
    }
}
