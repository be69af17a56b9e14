// What all readers and writers of texts share: kinds of bytes, and what is added behind a text. A text is a `Vec<u8>`,
// since what is read, a model or a formula, may be any bytes.
ghost use Rattle.std.specs.Prelude.{◌≡◌, ◌++◌, OnOk, OnErr, decimal};
ghost use Rattle.base.specs.Bytes.{is_digit, is_blank};

use crate::Mem;
use itoa::Buffer;

/// Whether a byte is one of `0` to `9`.
pub fn is_digit(b: u8) -> bool
    ensures { result ≡ is_digit b }
{
    matches!(b, b'0'..=b'9')
}

/// Whether a byte stands between words: a space, a tab, a carriage return or a line feed.
pub fn is_blank(b: u8) -> bool
    ensures { result ≡ is_blank b }
{
    matches!(b, b' ' | b'\t' | b'\r' | b'\n')
}

/// Adds a text behind what is there. `out` is as before where the memory is wanting.
pub fn push_text(out: &mut Vec<u8>, text: &str) -> Mem<()>
    ensures pushed { OnOk result (out.new.items ≡ out.old.items ++ text.now) }
    ensures kept { OnErr result (out.new.items ≡ out.old.items) }
{
    out.extend_from_slice(text.as_bytes())
}

/// Adds a number in decimal digits behind what is there. `out` is as before where the memory is wanting.
pub fn push_number(out: &mut Vec<u8>, n: u64) -> Mem<()>
    ensures pushed { OnOk result (out.new.items ≡ out.old.items ++ decimal n) }
    ensures kept { OnErr result (out.new.items ≡ out.old.items) }
{
    let mut buffer = Buffer::new();
    out.extend_from_slice(buffer.format(n).as_bytes())
}
