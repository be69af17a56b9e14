// The line of a text in which a place stands, byte by byte as it is shown.
ghost use Rattle.std.specs.Prelude.{◌≡◌, ◌≤◌, length, map};
ghost use Rattle.told_text.specs.Written.{Wrote};
ghost use Rattle.told_fault.specs.Diagnostics.{line_before, up_to_end, line_from, shown, blanks};

use rml_lex::place;
use told_text::Text;

/// The bytes of a line in front of a place.
pub fn line_before(text: &[u8], at: u64) -> &[u8]
    requires { at ≤ length text.now }
    ensures { result.now ≡ line_before text.now at }
{
    let (_, column) = place(text, at);
    let before = &text[..at as usize];
    let width = (column - 1) as usize;
    &before[before.len() - width..]
}

// The bytes in front of the first line feed.
fn first_line(text: &[u8]) -> &[u8]
    ensures { result.now ≡ up_to_end text.now }
{
    let mut count = 0;
    let mut rest = text;
    while let [b, after @ ..] = rest {
        if *b == b'\n' {
            return &text[..count];
        }
        count += 1;
        rest = after;
    }
    text
}

/// The bytes of a line from a place on.
pub fn line_from(text: &[u8], at: u64) -> &[u8]
    requires { at ≤ length text.now }
    ensures { result.now ≡ line_from text.now at }
{
    let from = &text[at as usize..];
    first_line(from)
}

fn shown(b: u8) -> u8
    ensures { result ≡ shown b }
{
    if b < 32 || b == 127 {
        b' '
    } else if b > 127 {
        b'?'
    } else {
        b
    }
}

/// Adds bytes as they are shown.
#[tactic(auto, using(std::proofs::Common::append_assoc))]
pub fn push_shown(out: &mut Text, bytes: &[u8])
    ensures { Wrote out.old out.new (map shown bytes.now) }
{
    let mut rest = bytes;
    while let [b, after @ ..] = rest {
        out.push_byte(shown(*b));
        rest = after;
    }
}

/// Adds so many blanks.
#[tactic(auto, using(std::proofs::Common::append_assoc))]
pub fn push_blanks(out: &mut Text, count: u64)
    ensures { Wrote out.old out.new (blanks count) }
{
    let mut left = count;
    while left > 0 {
        out.push_byte(b' ');
        left -= 1;
    }
}
