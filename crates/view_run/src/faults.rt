// What is shown of a fault of a model's text.
ghost use Rattle.std.specs.Prelude.{◌≡◌, ◌≤◌, length, IfOk};
ghost use Rattle.view_run.specs.Views.{line_of, fault_view};

use crate::showing::Showing;
use base::Mem;
use command_parts::{complaint, shown};
use commands::Said;
use json_outcome::faulty_object;
use json_values::{JsonObject, ObjectBuilder, line};
use rml_lex::Fault;
use std::alloc::Global;
use told_fault::{Reading, fault_text};
use view_line::Form;

/// The line of a JSON value with the name of the file.
#[tactic(auto, unfolding(crate::specs::Views::line_of))]
pub fn line_of(alloc: Global, file: &str, object: JsonObject) -> Mem<Vec<u8>>
    ensures { IfOk result (λ out. out.items ≡ line_of file.now object) }
{
    let value = ObjectBuilder::from_object(alloc, object)
        .with_word("file", file)
        .into_json()?;
    let text = line(alloc, &value);
    drop(value);
    text
}

/// A fault, told on the sink of complaints, or as a JSON value.
pub fn say_fault(
    alloc: Global,
    showing: Showing,
    command: &str,
    text: &[u8],
    fault: &Fault,
    reading: &Reading,
) -> Mem<Said>
    requires { fault.now.at ≤ length text.now }
    ensures { IfOk result (λ s. s
        ≡ fault_view showing.entry.form command.now showing.entry.file.now text.now fault.now reading.now) }
{
    match showing.form {
        Form::Told | Form::Dot => {
            let told = fault_text(alloc, showing.file, text, fault, reading)?;
            Ok(complaint(told, 4))
        }
        Form::Json => {
            let object = faulty_object(alloc, command, text, fault)?;
            let line = line_of(alloc, showing.file, object)?;
            Ok(shown(line, 4))
        }
    }
}
