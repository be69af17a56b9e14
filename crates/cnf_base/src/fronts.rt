// Numbers in front of some bytes, in one pass. What is not found here may still be a number.
ghost use Rattle.std.specs.Prelude.{◌≡◌, ◌↔◌, ◌<◌, ◌≤◌, ◌+◌, ◌^◌, length, drop, Some, IfSome, IsTrue};
ghost use Rattle.cnf_base.specs.Modes.{word_of};
ghost use Rattle.cnf_base.specs.Fronts.{word_len};
ghost use Rattle.cnf_base.specs.Numerals.{with_digits, digits_value, number_of};

use crate::text::Numeral;
use base::{is_blank, is_digit};

// Up to here a number may get one more digit.
const MAX_EXTENDABLE: u32 = 214748363;

/// Goes over digits: what stands behind them, how many they are, and the number that they make. Stops
/// early where one more digit may make the number too large.
pub fn front_digits<'a>(bytes: &'a [u8]) -> (&'a [u8], usize, u32)
    ensures rest { result.0.now ≡ drop result.1 bytes.now }
    ensures within { result.1 + length result.0.now ≡ length bytes.now }
    ensures len { result.1 + word_len result.0.now ≡ word_len bytes.now }
    ensures value { with_digits result.2 (word_of result.0.now) ≡ with_digits 0 (word_of bytes.now) }
    ensures small { result.2 < 2 ^ 31 }
{
    let mut rest = bytes;
    let mut count = 0;
    let mut value = 0u32;
    while let [d, after @ ..] = rest {
        if !is_digit(*d) || value > MAX_EXTENDABLE {
            return (rest, count, value);
        }
        value = value * 10 + (*d - b'0') as u32;
        count += 1;
        rest = after;
    }
    (rest, count, value)
}

/// Whether a word ends before these bytes.
pub fn ends_word(bytes: &[u8]) -> bool
    ensures { IsTrue result ↔ (word_len bytes.now ≡ 0) }
{
    match bytes {
        [] => true,
        [b, ..] => is_blank(*b),
    }
}

// The number of 1 to 10 digits that is the word in front.
fn front_value<'a>(bytes: &'a [u8]) -> Option<(&'a [u8], usize, u32)>
    ensures rest { IfSome result (λ r. r.0.now ≡ drop r.1 bytes.now) }
    ensures within { IfSome result (λ r. r.1 + length r.0.now ≡ length bytes.now) }
    ensures len { IfSome result (λ r. r.1 ≡ word_len bytes.now) }
    ensures some { IfSome result (λ r. 0 < r.1) }
    ensures value { IfSome result (λ r. digits_value (word_of bytes.now) ≡ Some r.2) }
    ensures small { IfSome result (λ r. r.2 < 2 ^ 31) }
{
    let (rest, count, value) = front_digits(bytes);
    if count == 0 || count > 10 {
        return None;
    }
    if !ends_word(rest) {
        return None;
    }
    Some((rest, count, value))
}

/// The number that is the word in front, with its length and what stands behind it.
pub fn front_number<'a>(bytes: &'a [u8]) -> Option<(&'a [u8], usize, Numeral)>
    ensures rest { IfSome result (λ r. r.0.now ≡ drop r.1 bytes.now) }
    ensures within { IfSome result (λ r. r.1 + length r.0.now ≡ length bytes.now) }
    ensures len { IfSome result (λ r. r.1 ≡ word_len bytes.now) }
    ensures some { IfSome result (λ r. 0 < r.1) }
    ensures value { IfSome result (λ r. number_of (word_of bytes.now) ≡ Some r.2) }
    ensures small { IfSome result (λ r. r.2.value < 2 ^ 31) }
{
    let [first, behind @ ..] = bytes else {
        return None;
    };
    if *first == b'-' {
        let (rest, count, value) = match front_value(behind) {
            None => return None,
            Some(found) => found,
        };
        if value == 0 {
            return None;
        }
        return Some((
            rest,
            count + 1,
            Numeral {
                negative: true,
                value,
            },
        ));
    }
    match front_value(bytes) {
        None => None,
        Some((rest, count, value)) => Some((
            rest,
            count,
            Numeral {
                negative: false,
                value,
            },
        )),
    }
}
