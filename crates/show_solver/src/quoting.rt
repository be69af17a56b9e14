// A text on one line.
use base::Mem;
use std::alloc::Global;

/// A text on one line, with its escapes.
pub fn quoted(alloc: Global, text: &[u8]) -> Mem<String> {
    match str::from_utf8(text) {
        Ok(text) => format!(in alloc; "{text:?}"),
        Err(_) => String::from_str(alloc, "no UTF-8"),
    }
}
