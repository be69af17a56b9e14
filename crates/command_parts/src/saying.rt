// Texts with the sink and the status that go with them.
ghost use Rattle.std.specs.Prelude.{◌≡◌, IfOk};
ghost use Rattle.command_parts.specs.Saying.{on_out, on_err};

use base::Mem;
use commands::{Said, Side};
use std::alloc::Global;

/// A text of fixed words for the sink of verdicts.
pub fn verdict(alloc: Global, text: &str, status: u8) -> Mem<Said>
    ensures { IfOk result (λ s. s ≡ on_out text.now status) }
{
    let text = text.as_bytes().to_vec(alloc)?;
    Ok(Said {
        side: Side::Out,
        status,
        text,
    })
}

/// A text for the sink of verdicts.
pub fn shown(text: Vec<u8>, status: u8) -> Said
    ensures { result ≡ on_out text.items status }
{
    Said {
        side: Side::Out,
        status,
        text,
    }
}

/// A line that stands in place of a verdict.
pub fn complaint(text: Vec<u8>, status: u8) -> Said
    ensures { result ≡ on_err text.items status }
{
    Said {
        side: Side::Err,
        status,
        text,
    }
}
