// How a line of a file of rows writes a piece of a text.
use crate::reader::Parsed;
use crate::row::Text;
use base::Refused;
use std::alloc::Global;

/// The bytes of the text that has this name.
pub fn text_of<'a>(texts: &'a [Text], name: &str) -> Parsed<&'a [u8]> {
    for text in texts {
        if text.name.as_str() == name {
            return Ok(&text.bytes);
        }
    }
    Err(Refused::For("no text has this name"))
}

/// A number.
pub fn number(digits: &str) -> Parsed<u64> {
    match digits.parse::<u64>() {
        Ok(number) => Ok(number),
        Err(_) => Err(Refused::For("this is no number")),
    }
}

/// Two numbers with a space between them.
pub fn two_numbers(text: &str) -> Parsed<(u64, u64)> {
    let Some((first, second)) = text.split_once(' ') else {
        return Err(Refused::For("these are not two numbers"));
    };
    Ok((number(first)?, number(second)?))
}

// Adds the byte that two hexadecimal digits stand for, and what stands behind them.
fn push_hexadecimal(into: &mut Vec<u8>, text: &str) -> Parsed<()> {
    let Some((digits, rest)) = text.split_at_checked(2) else {
        return Err(Refused::For("two hexadecimal digits were expected"));
    };
    match u8::from_str_radix(digits, 16) {
        Ok(byte) => into.push(byte)?,
        Err(_) => return Err(Refused::For("these are not two hexadecimal digits")),
    }
    into.extend_from_slice(rest.as_bytes())?;
    Ok(())
}

// Adds what stands behind a backslash, where the first character is that of an escape.
fn push_escaped(alloc: Global, into: &mut Vec<u8>, text: &str, time: u64) -> Parsed<()> {
    let mut chars = text.chars();
    let escape = chars.next();
    let rest = chars.as_str();
    match escape {
        Some('n') => into.push(b'\n')?,
        Some('t') => into.push(b'\t')?,
        Some('r') => into.push(b'\r')?,
        Some('#') => into.extend_from_slice(format!(in alloc; "{time}")?.as_bytes())?,
        Some('x') => return push_hexadecimal(into, rest),
        _ => return Err(Refused::For("unknown escape")),
    }
    into.extend_from_slice(rest.as_bytes())?;
    Ok(())
}

// Adds a piece of a text, in which a backslash begins an escape. `time` stands for `\#`.
fn push_piece(alloc: Global, into: &mut Vec<u8>, piece: &str, time: u64) -> Parsed<()> {
    let mut parts = piece.split('\\');
    if let Some(plain) = parts.next() {
        into.extend_from_slice(plain.as_bytes())?;
    }
    for part in parts {
        push_escaped(alloc, into, part, time)?;
    }
    Ok(())
}

fn push_repeated(alloc: Global, into: &mut Vec<u8>, text: &str) -> Parsed<()> {
    let Some((times, piece)) = text.split_once(' ') else {
        return Err(Refused::For("a number, a space and a piece were expected"));
    };
    for time in 0..number(times)? {
        push_piece(alloc, into, piece, time)?;
    }
    Ok(())
}

/// The bytes that a line of a text stands for, by its mark and what stands behind it.
pub fn piece_of(alloc: Global, texts: &[Text], mark: u8, rest: &str) -> Parsed<Vec<u8>> {
    let mut piece = Vec::new(alloc);
    match mark {
        b'|' => {
            piece.extend_from_slice(rest.as_bytes())?;
            piece.push(b'\n')?;
        }
        b'+' => push_piece(alloc, &mut piece, rest, 0)?,
        b'*' => push_repeated(alloc, &mut piece, rest)?,
        _ => piece.extend_from_slice(text_of(texts, rest)?)?,
    }
    Ok(piece)
}
