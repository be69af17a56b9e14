// The text of a fault, with what is told beside it.
ghost use Rattle.std.specs.Prelude.{◌≡◌, ◌≤◌, length, IfOk};
ghost use Rattle.told_text.specs.Written.{Wrote};
ghost use Rattle.told_fault.specs.Readings.{hint_line, advice_text, fault_text};

use crate::hint::Hint;
use crate::looking::fault_hint;
use crate::reading::Reading;
use crate::rendering::push_diagnostic;
use base::Mem;
use expectations::expected_text;
use rml_lex::Fault;
use std::alloc::Global;
use told_text::Text;

// The line of a hint.
#[tactic(auto, using(std::proofs::Common::append_assoc))]
fn push_hint(out: &mut Text, hint: Option<Hint>)
    ensures { Wrote out.old out.new (hint_line hint) }
{
    if let Some(hint) = hint {
        out.push_str("  = hint: ");
        out.push_str(hint.text());
        out.push_str("\n");
    }
}

// What is told beside a fault.
#[tactic(auto, using(std::proofs::Common::append_assoc))]
fn push_advice(alloc: Global, out: &mut Text, text: &[u8], fault: &Fault, reading: &Reading)
    requires { fault.now.at ≤ length text.now }
    ensures { Wrote out.old out.new (advice_text text.now fault.now reading.now) }
{
    match reading {
        Reading::NoTokens(hint) => push_hint(out, *hint),
        Reading::Unexpected(kinds, hint) => {
            let Ok(line) = expected_text(alloc, kinds.as_slice()) else {
                out.want();
                return;
            };
            out.push_bytes(&line);
            push_hint(out, *hint);
        }
        Reading::TooDeep => {}
        Reading::Parsed(_) => push_hint(out, fault_hint(text, fault.at, fault.code)),
    }
}

/// The text of a fault of a file: its place and its words, the line, a caret, what may stand there, and a hint.
#[tactic(auto, using(std::proofs::Common::append_assoc), unfolding(crate::specs::Readings::fault_text))]
pub fn fault_text(
    alloc: Global,
    file: &str,
    text: &[u8],
    fault: &Fault,
    reading: &Reading,
) -> Mem<Vec<u8>>
    requires { fault.now.at ≤ length text.now }
    ensures { IfOk result (λ out. out.items ≡ fault_text file.now text.now fault.now reading.now) }
{
    let mut out = Text::new(alloc);
    push_diagnostic(alloc, &mut out, file, text, fault);
    push_advice(alloc, &mut out, text, fault, reading);
    let told = out.into_bytes()?;
    Ok(told)
}
