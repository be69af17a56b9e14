// From the bytes of a text to its model, phase by phase: each takes what the phase before it found, and the first fault
// ends the reading, so that a text has the fault of the earliest phase that finds one.
ghost use Rattle.std.specs.Prelude.{length, IfOk, IfErr};
ghost use Rattle.base.specs.Because.{Because};
ghost use Rattle.rml_lex.specs.Tokens.{StandsBy};
ghost use Rattle.rml_front.specs.Texts.{IsModelOf, IsFaultOf};

use base::Refused;
use rml_command::Checked;
use rml_lex::{Fault, lex};
use std::alloc::Global;

/// The model of a text, or its fault.
pub fn read_model(alloc: Global, text: &[u8]) -> Result<Checked, Refused<Fault>>
    ensures model { IfOk result (IsModelOf text.now) }
    ensures fault { IfErr result (Because (IsFaultOf text.now)) }
    ensures place { IfErr result (Because (StandsBy (length text.now))) }
{
    let tokens = lex(alloc, text)?;
    let tree = rml_syntax::parse(alloc, text, &tokens)?;
    let model = rml_sorts::resolve(alloc, text, &tree)?;
    rml_sorts::place_law();
    rml_fragment::place_law();
    rml_fragment::check(alloc, model)
}
