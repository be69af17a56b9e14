// What the verdict is to be, and where it stands.
ghost use Rattle.std.specs.Prelude.{◌≡◌, ◌≤◌, ◌+◌};
ghost use Rattle.std.specs.List.{AllByRecursion};
ghost use Rattle.report_replay.specs.Judgements.{executions, do_all_hold, verdict_of, same_verdict, height};
ghost use Rattle.report_replay.specs.Judgements.{line_behind};
ghost use Rattle.report_replay.specs.Judgements.{says_holds, fails_count, fails_height};
ghost use Rattle.report_replay.specs.Judging.{CanReplay};

use crate::faults::{sorts, tables};
use printed_report::{PrintedAnswer, PrintedGroup};
use rml_command::{About, Checked};
use rml_report::Verdict;

fn says_holds(answer: &PrintedAnswer) -> bool
    ensures { result ≡ says_holds answer.now }
{
    matches!(answer, PrintedAnswer::Holds)
}

fn fails_count(answer: &PrintedAnswer) -> u64
    ensures count { result ≡ fails_count answer.now }
    ensures few { result ≤ 1 }
{
    match answer {
        PrintedAnswer::Fails { .. } => 1,
        PrintedAnswer::Holds | PrintedAnswer::Undecided => 0,
    }
}

/// How many groups fail.
pub fn executions(groups: &[PrintedGroup]) -> u64
    ensures { result ≡ executions groups.now }
{
    let mut count = 0;
    let mut rest = groups;
    while let [group, after @ ..] = rest {
        count += fails_count(&group.answer);
        rest = after;
    }
    count
}

fn do_all_hold(groups: &[PrintedGroup]) -> bool
    ensures { result ≡ do_all_hold groups.now }
{
    let mut rest = groups;
    while let [group, after @ ..] = rest {
        if !says_holds(&group.answer) {
            return false;
        }
        rest = after;
    }
    true
}

// Inductive if all groups hold, not inductive if one fails, else undecided.
fn verdict_of(groups: &[PrintedGroup]) -> Verdict
    ensures { result ≡ verdict_of groups.now }
{
    if do_all_hold(groups) {
        return Verdict::Inductive;
    }
    if executions(groups) == 0 {
        return Verdict::Undecided;
    }
    Verdict::NotInductive
}

fn is_same(a: Verdict, b: Verdict) -> bool
    ensures { result ≡ same_verdict a b }
{
    match a {
        Verdict::Inductive => matches!(b, Verdict::Inductive),
        Verdict::NotInductive => matches!(b, Verdict::NotInductive),
        Verdict::Undecided => matches!(b, Verdict::Undecided),
    }
}

/// Whether the verdict is that of the groups.
pub fn is_verdict_of(verdict: Verdict, groups: &[PrintedGroup]) -> bool
    ensures { result ≡ same_verdict verdict (verdict_of groups.now) }
{
    is_same(verdict, verdict_of(groups))
}

fn fails_height(checked: &Checked, about: About) -> u64
    ensures value { result ≡ fails_height checked.now about }
    ensures small { result ≤ 3007 }
{
    match about {
        About::Abort => 6 + sorts(checked) + tables(checked),
        About::Conjecture(_) => 7 + sorts(checked) + tables(checked) + tables(checked),
    }
}

// How many lines a group takes.
fn height(checked: &Checked, about: About, answer: &PrintedAnswer) -> u64
    ensures value { result ≡ height checked.now about answer.now }
    ensures small { result ≤ 3007 }
{
    match answer {
        PrintedAnswer::Fails { .. } => fails_height(checked, about),
        PrintedAnswer::Holds | PrintedAnswer::Undecided => 1,
    }
}

/// The line of the verdict, behind the groups.
pub fn verdict_line(checked: &Checked, groups: &[PrintedGroup]) -> u64
    requires { AllByRecursion (CanReplay checked.now) groups.now }
    ensures { result ≡ line_behind checked.now 2 groups.now }
{
    let mut line = 2;
    let mut rest = groups;
    while let [group, after @ ..] = rest {
        line = group.line + height(checked, group.about, &group.answer);
        rest = after;
    }
    line
}
