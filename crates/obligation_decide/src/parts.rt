// A refuting sentence with further parts.
ghost use Rattle.std.specs.Prelude.{◌≡◌, ◌++◌, [], map, false, IfOk, IfErr, OnOk, IsTrue};
ghost use Rattle.std.specs.List.{AllByRecursion};
ghost use Rattle.base.specs.Because.{Because};
ghost use Rattle.fol_sig.specs.Symbols.{symbols};
ghost use Rattle.fol_formula.specs.View.{form};
ghost use Rattle.fol_formula.specs.Fits.{FitsForm};
ghost use Rattle.fol_formula.specs.Fragments.{IsEa};
ghost use Rattle.rml_command.specs.Goals.{IsGoal};
ghost use Rattle.rml_wp.specs.Preconditions.{answered, goal_passes_limit};
ghost use Rattle.rml_wp.specs.Added.{refuting_where};
ghost use Rattle.obligation_decide.specs.Restricted.{with_parts};
ghost use Rattle.rml_wp.specs.declared.premises.Premises.TheVariants.{All};

use base::{Mem, Refused};
use fol_formula::{Ea, Formula, Sentence};
use fol_sig::Signature;
use fol_subst::FormulaLimit;
use rml_command::{Checked, Goal};
use rml_wp::{Premises, refuting};
use std::alloc::Global;

/// The sentence that a structure satisfies exactly where the goal has a counterexample from it and it satisfies these
/// sentences.
pub fn restricted(
    alloc: Global,
    checked: &Checked,
    goal: &Goal,
    more: &[Sentence],
) -> Result<(Signature, Ea), Refused<FormulaLimit>>
    requires goal { IsGoal checked.now goal.now }
    requires fragment { AllByRecursion IsEa more.now }
    requires fits { AllByRecursion (FitsForm (symbols checked.now.signature) []) more.now }
    ensures signature { IfOk result (λ r. r.0 ≡ answered checked.now goal.now) }
    ensures sentence { IfOk result
        (λ r. r.1 ≡ refuting_where All checked.now checked.now.conjectures more.now goal.now) }
    ensures within { OnOk result (goal_passes_limit All checked.now goal.now ≡ false) }
    ensures limit { IfErr result (Because (λ _. IsTrue (goal_passes_limit All checked.now goal.now))) }
{
    rml_wp::sentence_law();
    rml_wp::answered_goal(checked, goal);
    fol_formula::indices();
    let _checked = checked.model();
    let (answered, sentence) = refuting(alloc, checked, Premises::All, goal)?;
    let formula = sentence.into_sentence().into_formula();
    let all = with_parts(alloc, formula, more)?;
    Ok((answered, Ea::new(Sentence::of(all))))
}

/// An And with further parts, or the And of any other formula and these.
pub fn with_parts(alloc: Global, formula: Formula, more: &[Sentence]) -> Mem<Formula>
    ensures { IfOk result (λ f. form f ≡ with_parts (form formula) more.now) }
{
    fol_formula::lists();
    let mut parts = match formula {
        Formula::And(parts) => parts,
        other => vec![in alloc; other]?,
    };
    push_parts(alloc, &mut parts, more)?;
    Ok(Formula::And(parts))
}

// Pushes the formulas of sentences.
fn push_parts(alloc: Global, parts: &mut Vec<Formula>, more: &[Sentence]) -> Mem<()>
    ensures { OnOk result (map form parts.new.items ≡ map form parts.old.items ++ more.now) }
{
    for sentence in more {
        parts.push(sentence.formula().copy(alloc)?)?;
    }
    Ok(())
}
