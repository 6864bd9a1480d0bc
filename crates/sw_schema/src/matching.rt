//! Texts and the named patterns, in one pass without going back.

ghost use Rattle.std.specs.Prelude.{◌≡◌, false};
ghost use Rattle.sw_schema.specs.Patterns as patterns;

use crate::pattern::Pattern;

/// Whether the pattern matches the whole text.
pub(crate) fn matches(pattern: Pattern, text: &[u8]) -> bool
    ensures { result ≡ patterns.matches pattern text.now }
{
    match pattern {
        Pattern::Hex => is_hex(text),
        Pattern::Time => is_time(text),
        Pattern::SignedTime => is_signed_time(text),
    }
}

/// Whether it is a time, behind a minus or not.
fn is_signed_time(text: &[u8]) -> bool
    ensures { result ≡ patterns.is_signed_time text.now }
{
    match text.split_first() {
        None => false,
        Some((first, rest)) => {
            if *first == b'-' {
                is_time(rest)
            } else {
                is_time(text)
            }
        }
    }
}

fn is_digit(byte: u8) -> bool
    ensures { result ≡ patterns.is_digit byte }
{
    b'0' <= byte && byte <= b'9'
}

fn is_hex_digit(byte: u8) -> bool
    ensures { result ≡ patterns.is_hex_digit byte }
{
    is_digit(byte) || (b'A' <= byte && byte <= b'F') || (b'a' <= byte && byte <= b'f')
}

/// Whether an exponent begins with it.
fn is_e(byte: u8) -> bool
    ensures { result ≡ patterns.is_e byte }
{
    byte == b'e' || byte == b'E'
}

/// Whether it is pairs of hex digits, or empty.
fn is_hex(text: &[u8]) -> bool
    ensures { result ≡ patterns.is_hex text.now }
{
    let mut even = true;
    for byte in text {
        if !is_hex_digit(*byte) {
            return false;
        }
        even = !even;
    }
    even
}

/// Whether it is digits, then a fraction or none, then an exponent or none.
fn is_time(text: &[u8]) -> bool
    ensures { result ≡ patterns.is_time false text.now }
{
    let mut some = false;
    for index in 0..text.len() {
        let byte = text[index];
        if !is_digit(byte) {
            let rest = &text[index + 1..];
            return some
                && ((is_e(byte) && signed_digits(rest)) || (byte == b'.' && fraction(rest)));
        }
        some = true;
    }
    some
}

/// Whether it is digits, then an exponent or none.
fn fraction(text: &[u8]) -> bool
    ensures { result ≡ patterns.fraction false text.now }
{
    let mut some = false;
    for index in 0..text.len() {
        let byte = text[index];
        if !is_digit(byte) {
            return some && is_e(byte) && signed_digits(&text[index + 1..]);
        }
        some = true;
    }
    some
}

/// Whether it is digits, behind a sign or not.
fn signed_digits(text: &[u8]) -> bool
    ensures { result ≡ patterns.signed_digits text.now }
{
    match text.split_first() {
        None => false,
        Some((first, rest)) => {
            if *first == b'+' || *first == b'-' {
                some_digits(rest)
            } else {
                some_digits(text)
            }
        }
    }
}

/// Whether it is digits alone, at least one.
fn some_digits(text: &[u8]) -> bool
    ensures { result ≡ patterns.some_digits false text.now }
{
    let mut some = false;
    for byte in text {
        if !is_digit(*byte) {
            return false;
        }
        some = true;
    }
    some
}
