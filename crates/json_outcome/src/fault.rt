// What is wrong with the text of a model.
ghost use Rattle.std.specs.Prelude.{◌≡◌, ◌≤◌, length, IfOk};
ghost use Rattle.json_outcome.specs.FaultData.{code_data, fault_data, faulty_members};

use base::Mem;
use json_values::{Json, JsonObject, ObjectBuilder};
use rml_lex::{Fault, FaultCode, place};
use std::alloc::Global;
use told_text::Text;

// The letter and the number of a code.
fn code_value(alloc: Global, code: FaultCode) -> Mem<Json>
    ensures { IfOk result (λ j. j ≡ code_data code) }
{
    let mut name = Text::new(alloc);
    name.push_str("F");
    name.push_number(code.number() as u64);
    let name = name.into_bytes()?;
    Json::text(alloc, &name)
}

#[tactic(auto, unfolding(crate::specs::FaultData::fault_data))]
fn fault_value(alloc: Global, text: &[u8], fault: &Fault) -> Mem<Json>
    requires { fault.now.at ≤ length text.now }
    ensures { IfOk result (λ j. j ≡ fault_data text.now fault.now) }
{
    let (line, column) = place(text, fault.at);
    ObjectBuilder::new(alloc)
        .with("code", code_value(alloc, fault.code))
        .with_word("text", fault.code.text())
        .with_number("line", line)
        .with_number("column", column)
        .into_json()
}

/// What a command answers to a text that is no model, as members to which others can be added.
#[tactic(auto, unfolding(crate::specs::FaultData::faulty_members))]
pub fn faulty_object(alloc: Global, command: &str, text: &[u8], fault: &Fault) -> Mem<JsonObject>
    requires { fault.now.at ≤ length text.now }
    ensures { IfOk result (λ o. o ≡ faulty_members command.now text.now fault.now) }
{
    ObjectBuilder::new(alloc)
        .with_word("command", command)
        .with("fault", fault_value(alloc, text, fault))
        .build()
}
