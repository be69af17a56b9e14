// Numbers as they are written: what a word says, wherever it stands.
ghost use Rattle.std.specs.Prelude.{◌≡◌, ◌<◌, ◌^◌, IfSome, not};
ghost use Rattle.base.specs.Bytes.{is_digit};
ghost use Rattle.cnf_base.specs.Literals.{literal_of};
ghost use Rattle.cnf_base.specs.Numerals.{with_digits, digits_value, number_of};

use crate::Lit;
use crate::text::Numeral;
use base::is_digit;

const LARGEST: u64 = 2147483647;

// The number that digits make.
fn with_digits(digits: &[u8]) -> Option<u32>
    ensures value { result ≡ with_digits 0 digits.now }
    ensures small { IfSome result (λ n. n < 2 ^ 31) }
{
    let mut value = 0u32;
    let mut rest = digits;
    while let [d, after @ ..] = rest {
        if !is_digit(*d) {
            return None;
        }
        let next = value as u64 * 10 + (*d - b'0') as u64;
        if next > LARGEST {
            return None;
        }
        value = next as u32;
        rest = after;
    }
    Some(value)
}

fn digits_value(digits: &[u8]) -> Option<u32>
    ensures value { result ≡ digits_value digits.now }
    ensures small { IfSome result (λ n. n < 2 ^ 31) }
{
    if digits.len() >= 1 && digits.len() <= 10 {
        with_digits(digits)
    } else {
        None
    }
}

/// The number that a word says: an optional `-` and 1 to 10 digits, at most 2147483647 in size; `-0`
/// is none.
pub fn number_of(word: &[u8]) -> Option<Numeral>
    ensures value { result ≡ number_of word.now }
    ensures small { IfSome result (λ n. n.value < 2 ^ 31) }
{
    match word {
        [] => None,
        [b'-', digits @ ..] => match digits_value(digits) {
            None | Some(0) => None,
            Some(value) => Some(Numeral {
                negative: true,
                value,
            }),
        },
        _ => match digits_value(word) {
            None => None,
            Some(value) => Some(Numeral {
                negative: false,
                value,
            }),
        },
    }
}

/// The literal that a number stands for.
pub fn literal_of(number: Numeral) -> Lit
    requires some { 0 < number.value }
    requires small { number.value < 2 ^ 31 }
    ensures { result ≡ literal_of (not number.negative) number.value }
{
    Lit::new(number.value, !number.negative)
}
