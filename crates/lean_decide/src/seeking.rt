// A goal is asked for a counterexample in a structure that satisfies further sentences, by a lean sentence.
ghost use Rattle.std.specs.Prelude.{◌≡◌, [], IfOk};
ghost use Rattle.std.specs.List.{AllByRecursion};
ghost use Rattle.fol_sig.specs.Symbols.{symbols};
ghost use Rattle.fol_formula.specs.Fits.{FitsForm};
ghost use Rattle.fol_formula.specs.Fragments.{IsEa};
ghost use Rattle.rml_command.specs.Goals.{IsGoal};
ghost use Rattle.rml_wp.specs.declared.premises.Premises.TheVariants.{Affected};
ghost use Rattle.rml_wp.specs.Preconditions.{answered as answered_of};
ghost use Rattle.rml_wp.specs.Added.{refuting_where};
ghost use Rattle.limits.specs.Ceilings.{ceilings};
ghost use Rattle.lean_decide.specs.Lean.{affected_refuting};
ghost use Rattle.lean_decide.specs.Sought.{IsSought};

use crate::deciding::decide_sentence;
use base::{Mem, Refused};
use fol_formula::{Ea, Sentence};
use fol_sig::Signature;
use limits::Limits;
use obligation_decide::{Decision, with_parts};
use rml_command::{Checked, Goal};
use rml_exec::Counterexample;
use std::alloc::{AllocError, Global};

/// What is found of a goal in the structures that satisfy further sentences.
#[derive(Drop)]
pub enum Sought {
    /// No counterexample is in such a structure.
    Nowhere,
    /// This one is.
    Found(Counterexample),
    /// Whether one is, is left open: a limit is passed, the budget of conflicts is spent, or there are too many
    /// constants.
    Open,
}

/// Seeks one by this refuting sentence, with the further sentences in its And.
pub fn seek_by(
    alloc: Global,
    checked: &Checked,
    goal: &Goal,
    answered: &Signature,
    affected: &Ea,
    more: &[Sentence],
    limits: &Limits,
) -> Mem<Sought>
    requires goal { IsGoal checked.now goal.now }
    requires answered { answered.now ≡ answered_of checked.now goal.now }
    requires affected { affected.now ≡ affected_refuting checked.now goal.now }
    requires fragment { AllByRecursion IsEa more.now }
    requires fits { AllByRecursion (FitsForm (symbols checked.now.signature) []) more.now }
    ensures { IfOk result (IsSought (ceilings limits.now) checked.now more.now goal.now) }
{
    rml_wp::sentence_law();
    rml_wp::refuting_law();
    rml_wp::answered_law();
    rml_wp::answered_goal(checked, goal);
    obligation_decide::parts_law();
    let _checked = checked.model();
    let sentence = restricted(alloc, checked, goal, affected, more)?;
    let decided = decide_sentence(alloc, checked, goal, answered, &sentence, limits);
    drop(sentence);
    match decided {
        Ok(Decision::Holds(_)) => Ok(Sought::Nowhere),
        Ok(Decision::Fails(shown)) => Ok(Sought::Found(shown)),
        Ok(Decision::Undecided(_)) => Ok(Sought::Open),
        Err(Refused::NoMemory) => Err(AllocError),
        Err(Refused::For(_)) => Ok(Sought::Open),
    }
}

// The sentence with the further ones in its And.
fn restricted(
    alloc: Global,
    checked: &Checked,
    goal: &Goal,
    affected: &Ea,
    more: &[Sentence],
) -> Mem<Ea>
    requires goal { IsGoal checked.now goal.now }
    requires affected { affected.now ≡ affected_refuting checked.now goal.now }
    requires fragment { AllByRecursion IsEa more.now }
    requires fits { AllByRecursion (FitsForm (symbols checked.now.signature) []) more.now }
    ensures { IfOk result
        (λ f. f ≡ refuting_where Affected checked.now checked.now.conjectures more.now goal.now) }
{
    rml_wp::sentence_law();
    rml_wp::answered_goal(checked, goal);
    obligation_decide::parts_law();
    fol_formula::indices();
    let _checked = checked.model();
    let copied = affected.copy(alloc)?;
    let formula = copied.into_sentence().into_formula();
    let all = with_parts(alloc, formula, more)?;
    Ok(Ea::new(Sentence::of(all)))
}
