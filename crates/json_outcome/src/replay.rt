// What is found of a printed report, as JSON.
ghost use Rattle.std.specs.Prelude.{◌≡◌, IfOk};
ghost use Rattle.json_outcome.specs.ReplayData.{judged_members, unread_members};

use base::Mem;
use json_values::{JsonObject, ObjectBuilder};
use report_replay::{DenialCode, Judged};
use std::alloc::Global;

#[tactic(auto, unfolding(crate::specs::ReplayData::judged_members))]
fn confirmed_object(alloc: Global, executions: u64) -> Mem<JsonObject>
    ensures { IfOk result (λ o. o ≡ judged_members (Judged.Confirmed executions)) }
{
    ObjectBuilder::new(alloc)
        .with_word("command", "replay")
        .with_word("answer", "confirmed")
        .with_number("executions", executions)
        .build()
}

#[tactic(auto, unfolding(crate::specs::ReplayData::judged_members))]
fn denied_object(alloc: Global, line: u64, code: DenialCode) -> Mem<JsonObject>
    ensures { IfOk result (λ o. o ≡ judged_members (Judged.Denied line code)) }
{
    ObjectBuilder::new(alloc)
        .with_word("command", "replay")
        .with_word("answer", "denied")
        .with_number("line", line)
        .with_number("code", code.number() as u64)
        .with_word("text", code.text())
        .build()
}

/// What is found of a printed report: how many executions were followed, or which line says what is not so.
pub fn judged_object(alloc: Global, judged: Judged) -> Mem<JsonObject>
    ensures { IfOk result (λ o. o ≡ judged_members judged) }
{
    match judged {
        Judged::Confirmed { executions } => confirmed_object(alloc, executions),
        Judged::Denied { line, code } => denied_object(alloc, line, code),
    }
}

/// The first line that no printed report has there.
#[tactic(auto, unfolding(crate::specs::ReplayData::unread_members))]
pub fn unread_object(alloc: Global, line: u64) -> Mem<JsonObject>
    ensures { IfOk result (λ o. o ≡ unread_members line) }
{
    ObjectBuilder::new(alloc)
        .with_word("command", "replay")
        .with_word("answer", "unread")
        .with_number("line", line)
        .build()
}
