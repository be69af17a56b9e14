// The executions of a printed report, in the order of its lines, and its verdict.
ghost use Rattle.std.specs.Prelude.{◌≡◌, ◌∷◌, [], IfOk};
ghost use Rattle.std.specs.List.{AllByRecursion, flat_map};
ghost use Rattle.printed_report.specs.PrintedReports.{IsRead};
ghost use Rattle.report_replay.specs.Demands.{group_demands};
ghost use Rattle.report_replay.specs.Judgements.{first_unmet, verdict_demand, demands, judgement};
ghost use Rattle.report_replay.specs.Judging.{CanReplay};

use crate::denial::DenialCode;
use crate::faults::group_fault;
use crate::judged::{Fault, Judged};
use crate::verdicts::{executions, is_verdict_of, verdict_line};
use base::Mem;
use printed_report::{Printed, PrintedGroup};
use rml_command::Checked;
use std::alloc::Global;

// The first fault of the groups.
fn groups_fault(alloc: Global, checked: &Checked, groups: &[PrintedGroup]) -> Mem<Option<Fault>>
    requires { AllByRecursion (CanReplay checked.now) groups.now }
    ensures { IfOk result (λ fault. fault ≡ first_unmet (flat_map (group_demands checked.now) groups.now)) }
{
    for group in groups {
        if let Some(fault) = group_fault(alloc, checked, group)? {
            return Ok(Some(fault));
        }
    }
    Ok(None)
}

// What is wrong with the verdict.
fn verdict_fault(checked: &Checked, printed: &Printed) -> Option<Fault>
    requires { AllByRecursion (CanReplay checked.now) printed.now.groups }
    ensures { result ≡ first_unmet (verdict_demand checked.now printed.now ∷ []) }
{
    let groups = printed.groups.as_slice();
    if is_verdict_of(printed.verdict, groups) {
        return None;
    }
    let line = verdict_line(checked, groups);
    Some(Fault {
        line,
        code: DenialCode::WrongVerdict,
    })
}

// The first line that is wrong, and why.
fn first_fault(alloc: Global, checked: &Checked, printed: &Printed) -> Mem<Option<Fault>>
    requires { AllByRecursion (CanReplay checked.now) printed.now.groups }
    ensures { IfOk result (λ fault. fault ≡ first_unmet (demands checked.now printed.now)) }
{
    if let Some(fault) = groups_fault(alloc, checked, printed.groups.as_slice())? {
        return Ok(Some(fault));
    }
    Ok(verdict_fault(checked, printed))
}

/// Judges what a printed report of the model says, by truth and outcomes alone: the first line that says
/// what is not so, and the first code there, or the number of groups that fail.
pub fn judge(alloc: Global, checked: &Checked, printed: &Printed) -> Mem<Judged>
    requires { IsRead checked.now printed.now }
    ensures { IfOk result (λ judged. judged ≡ judgement checked.now printed.now) }
{
    match first_fault(alloc, checked, printed)? {
        Some(fault) => Ok(Judged::Denied {
            line: fault.line,
            code: fault.code,
        }),
        None => Ok(Judged::Confirmed {
            executions: executions(printed.groups.as_slice()),
        }),
    }
}
