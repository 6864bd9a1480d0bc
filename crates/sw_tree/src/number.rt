//! The whole number that a text spells, and the text that spells a whole number.

ghost use Rattle.std.specs.Prelude.{◌≡◌, ◌∷◌, IfOk, SomeIff, string_bytes};
ghost use Rattle.std.specs.Fmt.{signed_decimal};
ghost use Rattle.sw_tree.specs.Number as number;
ghost use Rattle.std.specs.Str.Parse.{digits_value};
ghost use Rattle.sw_tree.specs.Number.{AreFew};
ghost use Rattle.sw_tree.specs.Laws.Number.{value_of};
ghost use Rattle.sw_tree.specs.Inner.Number.{AreWide, IsWideInt};

use crate::whole::Whole;
use itoa::Buffer;
use std::alloc::{AllocError, Global};

/// 64 bits hold every number of so many digits.
const SHORT: usize = 19;

#[tactic(auto, unfolding(crate::specs::Number::is_digit))]
fn is_digit(byte: u8) -> bool
    ensures { result ≡ number.is_digit byte }
{
    b'0' <= byte && byte <= b'9'
}

/// The value of one to 19 decimal digits: `None` exactly where there are none or more, or where
/// a byte is no digit. Leading zeros count as digits.
pub fn short_value(digits: &[u8]) -> Option<u64>
    ensures { SomeIff result (AreFew digits.now) (digits_value 10 digits.now) }
{
    few_value(digits)
}

/// The value of one to 19 decimal digits, as `short_value` answers it.
#[tactic(auto, unfolding(crate::specs::Number::is_digit))]
fn few_value(digits: &[u8]) -> Option<u64>
    ensures { SomeIff result (AreFew digits.now) (value_of digits.now) }
{
    if digits.is_empty() || digits.len() > SHORT {
        return None;
    }
    let mut value: u64 = 0;
    for digit in digits {
        if !is_digit(*digit) {
            return None;
        }
        value = value * 10 + u64::from(*digit - b'0');
    }
    Some(value)
}

/// The value of bytes that are digits, where it is below 2^128.
#[tactic(auto, unfolding(crate::specs::Number::is_digit))]
fn wide_value(digits: &[u8]) -> Option<u128>
    ensures { SomeIff result (AreWide digits.now) (value_of digits.now) }
{
    let mut value: u128 = 0;
    for digit in digits {
        if !is_digit(*digit) {
            return None;
        }
        value = value
            .checked_mul(10)?
            .checked_add(u128::from(*digit - b'0'))?;
    }
    Some(value)
}

/// The value of bytes that are digits, where it is below 2^128.
fn value(digits: &[u8]) -> Option<u128>
    ensures { SomeIff result (AreWide digits.now) (value_of digits.now) }
{
    match few_value(digits) {
        Some(short) => Some(u128::from(short)),
        None => wide_value(digits),
    }
}

/// The value of zero, or of digits of which the first isn't zero, where it is below 2^128.
fn int_value(int: &[u8]) -> Option<u128>
    ensures { SomeIff result (IsWideInt int.now) (digits_value 10 int.now) }
{
    let (first, rest) = int.split_first()?;
    if *first != b'0' {
        return value(int);
    }
    if rest.is_empty() { Some(0) } else { None }
}

/// The number of an int behind a minus.
fn negative(int: &[u8]) -> Option<Whole>
    ensures { result ≡ number.key_number (45 ∷ int.now) }
{
    let size = int_value(int)?;
    if size == 0 || size > 1 << 127 {
        return None;
    }
    Some(Whole::from_i128(-((size - 1) as i128) - 1))
}

/// The number that bytes spell: `Some` exactly where they are a JSON number (RFC 8259,
/// section 6) without fraction and exponent that isn't minus zero, from -2^127 to 2^128 - 1.
/// So `5` and `-5` are numbers, and `007`, `+5`, `1.0` and `-0` aren't.
pub fn whole_of_spelling(spelling: &[u8]) -> Option<Whole>
    ensures { result ≡ number.key_number spelling.now }
{
    let (first, rest) = spelling.split_first()?;
    if *first == b'-' {
        negative(rest)
    } else {
        Some(Whole::from_u128(int_value(spelling)?))
    }
}

/// The number that a key's text spells: `Some` exactly where the text is a JSON number
/// (RFC 8259, section 6) without fraction and exponent that isn't minus zero, from -2^127
/// to 2^128 - 1. So `5` and `-5` are numbers, and `007`, `+5`, `1.0` and `-0` aren't.
pub fn key_number(text: &str) -> Option<Whole>
    ensures { result ≡ number.key_number text.now }
{
    whole_of_spelling(text.as_bytes())
}

/// The number in decimal digits, behind `-` where it is negative.
pub fn whole_text(alloc: Global, value: Whole) -> Result<String, AllocError>
    ensures { IfOk result (λ s. string_bytes s ≡ signed_decimal value) }
{
    let mut buffer = Buffer::new();
    String::from_str(alloc, value.format(&mut buffer))
}
