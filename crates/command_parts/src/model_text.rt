// The text of a model, as each command reads it.
ghost use Rattle.std.specs.Prelude.{IfOk, IfErr};
ghost use Rattle.base.specs.Because.{Because};
ghost use Rattle.command_parts.specs.ModelTexts.{IsTheModel, IsTheFault};

use base::Refused;
use rml_command::Checked;
use rml_lex::Fault;
use std::alloc::Global;

/// The one model of a text, or its one fault.
pub fn read_model(alloc: Global, text: &[u8]) -> Result<Checked, Refused<Fault>>
    ensures model { IfOk result (IsTheModel text.now) }
    ensures fault { IfErr result (Because (IsTheFault text.now)) }
{
    rml_front::text_law();
    match rml_front::read_model(alloc, text) {
        Ok(model) => Ok(model),
        Err(refused) => Err(refused),
    }
}
