// The report on a model: all its groups in order, each with its answer.
ghost use Rattle.std.specs.Prelude.{◌≡◌, map, IfOk};
ghost use Rattle.std.specs.List.{AllByRecursion, list_all, list_any};
ghost use Rattle.rml_command.specs.Goals.{HasAbout, groups_of};
ghost use Rattle.rml_report.specs.Reports.{head_of, says_holds, says_fails, verdict_of};
ghost use Rattle.pool_wp.specs.Sharing.{IsPoolOf};
ghost use Rattle.limits.specs.Ceilings.{ceilings};
ghost use Rattle.verdicts.specs.Answers.{IsGroupNow, IsReport};

use crate::deciding::decide_group;
use base::{Mem, Row};
use lean_decide::{Counted, settle_axioms};
use limits::Limits;
use pool_wp::ModelPool;
use progress::{Progress, Work};
use rml_command::{Checked, Head, goal_law, heads};
use rml_report::{Answer, Group, Report, Verdict};
use std::alloc::Global;

// The groups of these heads, each with its answer.
fn decide_all<P: Progress>(
    alloc: Global,
    shared: &mut ModelPool,
    checked: &Checked,
    counted: Counted,
    limits: &Limits,
    heads: &[Head],
    progress: &mut P,
) -> Mem<Vec<Group>>
    requires shared { IsPoolOf checked.now shared.old }
    requires heads { AllByRecursion (λ h. HasAbout checked.now h.stage h.about) heads.now }
    ensures now { IfOk result (λ gs. AllByRecursion (IsGroupNow counted (ceilings limits.now) checked.now) gs.items) }
    ensures heads { IfOk result (λ gs. map head_of gs.items ≡ heads.now) }
    ensures shared { IsPoolOf checked.now shared.new }
{
    let mut groups = Vec::new(alloc);
    for head in heads {
        groups.push(decide_group(alloc, shared, checked, counted, limits, *head)?)?;
        progress.tell(Work::Groups, groups.len() as u64, heads.len() as u64);
    }
    Ok(groups)
}

// All groups in order.
fn all_groups<P: Progress>(
    alloc: Global,
    shared: &mut ModelPool,
    checked: &Checked,
    counted: Counted,
    limits: &Limits,
    progress: &mut P,
) -> Mem<Vec<Group>>
    requires shared { IsPoolOf checked.now shared.old }
    ensures now { IfOk result (λ gs. AllByRecursion (IsGroupNow counted (ceilings limits.now) checked.now) gs.items) }
    ensures heads { IfOk result (λ gs. map head_of gs.items ≡ groups_of checked.now) }
    ensures shared { IsPoolOf checked.now shared.new }
{
    goal_law();
    let heads = heads(alloc, checked)?;
    let groups = decide_all(alloc, shared, checked, counted, limits, &heads, progress)?;
    Ok(groups)
}

fn each_holds(groups: &[Group]) -> bool
    ensures { result ≡ list_all (λ g. says_holds g.answer) groups.now }
{
    groups.iter().all(|g| matches!(g.answer, Answer::Holds))
}

fn one_fails(groups: &[Group]) -> bool
    ensures { result ≡ list_any (λ g. says_fails g.answer) groups.now }
{
    groups
        .iter()
        .any(|g| matches!(g.answer, Answer::Fails { .. }))
}

// Inductive if all groups hold, not inductive if one fails, else undecided.
fn verdict_for(groups: &[Group]) -> Verdict
    ensures { result ≡ verdict_of groups.now }
{
    if each_holds(groups) {
        Verdict::Inductive
    } else if one_fails(groups) {
        Verdict::NotInductive
    } else {
        Verdict::Undecided
    }
}

/// The report on a model: what is so of each goal and of the axioms, or the limit that they pass. Each group that was
/// decided is told.
///
/// The limits of a goal are those of its whole sentence, or of its lean one, which is mostly a tenth of it, and causes
/// name the counts of that. The axioms, and the trials of smaller counterexamples, are counted whole in any case: under
/// lean counts the first counterexample is shown, mostly, of a goal that passes a limit whole, and `least` says which
/// limit the trial passes. There a goal whose lean sentence is too large to be built is answered as want of memory.
pub fn report<P: Progress>(
    alloc: Global,
    checked: &Checked,
    counted: Counted,
    limits: &Limits,
    progress: &mut P,
) -> Mem<Report>
    ensures { IfOk result (IsReport counted (ceilings limits.now) checked.now) }
{
    let mut shared = ModelPool::new(alloc, checked.model())?;
    let groups = all_groups(alloc, &mut shared, checked, counted, limits, progress);
    drop(shared);
    let groups = groups?;
    let axioms = settle_axioms(alloc, checked, limits)?;
    let verdict = verdict_for(&groups);
    Ok(Report {
        axioms,
        groups: Row::from_vec(groups),
        verdict,
    })
}
