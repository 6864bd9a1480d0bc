//! Classes of bytes, and runs of them.

ghost use Rattle.std.specs.Prelude.{◌≡◌};
ghost use Rattle.sw_json.specs.Bytes as tests;
ghost use Rattle.sw_json.specs.Bytes.{front, behind};
ghost use Rattle.sw_json.specs.Inner.Class.{test_of};
ghost use Rattle.sw_json.specs.Grammar.{skip};

/// A class of bytes that come in runs.
#[derive(Clone, Copy)]
pub enum Class {
    /// White space.
    Blank,
    /// Digits.
    Digit,
    /// What numbers are made of.
    NumberByte,
}

#[inline(always)]
#[tactic(auto, unfolding(crate::specs::Bytes::is_blank))]
fn is_blank(byte: u8) -> bool
    ensures { result ≡ tests.is_blank byte }
{
    byte == b' ' || byte == b'\t' || byte == b'\n' || byte == b'\r'
}

#[inline(always)]
#[tactic(auto, unfolding(crate::specs::Bytes::is_digit))]
pub(crate) fn is_digit(byte: u8) -> bool
    ensures { result ≡ tests.is_digit byte }
{
    b'0' <= byte && byte <= b'9'
}

#[inline(always)]
#[tactic(auto, unfolding(crate::specs::Bytes::is_number_byte))]
pub(crate) fn is_number_byte(byte: u8) -> bool
    ensures { result ≡ tests.is_number_byte byte }
{
    is_digit(byte) || byte == b'+' || byte == b'-' || byte == b'.' || byte == b'E' || byte == b'e'
}

#[inline(always)]
fn passes(class: Class, byte: u8) -> bool
    ensures { result ≡ test_of class byte }
{
    match class {
        Class::Blank => is_blank(byte),
        Class::Digit => is_digit(byte),
        Class::NumberByte => is_number_byte(byte),
    }
}

/// The longest front of bytes of that class, and what is behind it.
#[inline(always)]
pub(crate) fn split_class(bytes: &[u8], class: Class) -> (&[u8], &[u8])
    ensures front { result.0.now ≡ front (test_of class) bytes.now }
    ensures behind { result.1.now ≡ behind (test_of class) bytes.now }
{
    for (i, byte) in bytes.iter().enumerate() {
        if !passes(class, *byte) {
            return bytes.split_at(i);
        }
    }
    bytes.split_at(bytes.len())
}

/// What is behind the blanks in front.
#[inline(always)]
pub(crate) fn skip_blanks(bytes: &[u8]) -> &[u8]
    ensures { result.now ≡ skip bytes.now }
{
    let Some((first, _)) = bytes.split_first() else {
        return bytes;
    };
    if *first > b' ' {
        return bytes;
    }
    split_class(bytes, Class::Blank).1
}
