//! The token at the front of the bytes.

ghost use Rattle.std.specs.Prelude.{◌≡◌, ℕ, List, option_map, IfOk, IfSome};
ghost use Rattle.sw_json.specs.Bytes as tests;
ghost use Rattle.sw_json.specs.Bytes.{front, behind, behind_word};
ghost use Rattle.sw_json.specs.Quoted.{quoted};
ghost use Rattle.sw_json.specs.Lexing as lexing;
ghost use Rattle.sw_json.specs.Lexing.{lexeme, text_token, number_token, literal_or_number};
ghost use Rattle.sw_json.specs.Inner.Lexeme.{token_of, TellsEscape};

use crate::class::{Class, split_class};
use crate::quoted::{Quoted, read_quoted};
use std::alloc::AllocError;

/// A token, with the bytes of a number, and of a text what stood between its quotation
/// marks.
#[derive(Clone, Copy)]
pub enum Lexeme<'a> {
    Null,
    Truth(bool),
    Number(&'a [u8]),
    Text(Quoted<'a>),
    OpenList,
    CloseList,
    OpenMap,
    CloseMap,
    Comma,
    Colon,
}

#[inline(always)]
#[tactic(auto, unfolding(crate::specs::Bytes::is_leading))]
pub(crate) fn is_leading(byte: u8) -> bool
    ensures { result ≡ tests.is_leading byte }
{
    b'1' <= byte && byte <= b'9'
}

/// Whether digits are zero, or the first of them isn't zero.
fn is_int(digits: &[u8]) -> bool
    ensures { result ≡ lexing.is_int digits.now }
{
    let Some((first, rest)) = digits.split_first() else {
        return false;
    };
    rest.is_empty() || is_leading(*first)
}

/// Whether the bytes are digits, and at least one.
#[tactic(auto, using(crate::proofs::Fronts::none_behind))]
fn are_digits(bytes: &[u8]) -> bool
    ensures { result ≡ lexing.are_digits bytes.now }
{
    let (_, behind) = split_class(bytes, Class::Digit);
    !bytes.is_empty() && behind.is_empty()
}

/// Whether the bytes are digits, with a sign before them or not.
fn are_signed(bytes: &[u8]) -> bool
    ensures { result ≡ lexing.are_signed bytes.now }
{
    match bytes.split_first() {
        Some((b'+', digits)) => are_digits(digits),
        Some((b'-', digits)) => are_digits(digits),
        _ => are_digits(bytes),
    }
}

/// Whether the bytes are an exponent, or none.
fn is_exponent(bytes: &[u8]) -> bool
    ensures { result ≡ lexing.is_exponent bytes.now }
{
    match bytes.split_first() {
        None => true,
        Some((b'e', power)) => are_signed(power),
        Some((b'E', power)) => are_signed(power),
        Some(_) => false,
    }
}

/// Whether the bytes are a fraction and an exponent, or either, or none.
fn is_tail(bytes: &[u8]) -> bool
    ensures { result ≡ lexing.is_tail bytes.now }
{
    match bytes.split_first() {
        None => true,
        Some((b'.', decimals)) => {
            let (digits, exponent) = split_class(decimals, Class::Digit);
            !digits.is_empty() && is_exponent(exponent)
        }
        Some(_) => is_exponent(bytes),
    }
}

/// Whether the bytes are a number without a minus.
fn is_unsigned(bytes: &[u8]) -> bool
    ensures { result ≡ lexing.is_unsigned bytes.now }
{
    let (digits, tail) = split_class(bytes, Class::Digit);
    is_int(digits) && is_tail(tail)
}

/// Whether the bytes are a number.
fn is_number(bytes: &[u8]) -> bool
    ensures { result ≡ lexing.is_number bytes.now }
{
    match bytes.split_first() {
        Some((b'-', unsigned)) => is_unsigned(unsigned),
        _ => is_unsigned(bytes),
    }
}

/// The number at the front of the bytes, and what is behind it.
fn number(bytes: &[u8]) -> Option<(Lexeme<'_>, &[u8])>
    ensures token { (buffer : List ℕ) (at : ℕ) → option_map (λ x. (token_of buffer at x.0, x.1.now)) result
        ≡ number_token at (front tests.is_number_byte bytes.now) (behind tests.is_number_byte bytes.now) }
    ensures told { IfSome result (λ x. TellsEscape x.0) }
{
    let (number, rest) = split_class(bytes, Class::NumberByte);
    if is_number(number) {
        Some((Lexeme::Number(number), rest))
    } else {
        None
    }
}

/// What is behind the word, where the bytes begin with it.
fn behind_word<'a>(bytes: &'a [u8], word: &[u8]) -> Option<&'a [u8]>
    ensures { option_map (λ x. x.now) result ≡ behind_word word.now bytes.now }
{
    bytes.strip_prefix(word)
}

/// The literal at the front of the bytes, or else the number there, and what is behind it.
fn literal_or_number(first: u8, bytes: &[u8]) -> Option<(Lexeme<'_>, &[u8])>
    ensures token { (buffer : List ℕ) (at : ℕ) → option_map (λ x. (token_of buffer at x.0, x.1.now)) result ≡ literal_or_number at first bytes.now }
    ensures told { IfSome result (λ x. TellsEscape x.0) }
{
    match first {
        b'n' => Some((Lexeme::Null, behind_word(bytes, b"null")?)),
        b't' => Some((Lexeme::Truth(true), behind_word(bytes, b"true")?)),
        b'f' => Some((Lexeme::Truth(false), behind_word(bytes, b"false")?)),
        _ => number(bytes),
    }
}

/// The text behind its opening quotation mark, and what is behind the closing one.
fn text<'a>(
    buffer: &mut Vec<u8>,
    bytes: &'a [u8],
) -> Result<Option<(Lexeme<'a>, &'a [u8])>, AllocError>
    ensures token { (at : ℕ) → IfOk result (λ o. option_map (λ x. (token_of buffer.new.items at x.0, x.1.now)) o ≡ text_token at (quoted bytes.now)) }
    ensures told { IfOk result (λ o. IfSome o (λ x. TellsEscape x.0)) }
{
    match read_quoted(buffer, bytes)? {
        Some((text, rest)) => Ok(Some((Lexeme::Text(text), rest))),
        None => Ok(None),
    }
}

/// The token at the front of the bytes, and what is behind it. A text that is spelled with
/// escapes is put into the buffer, in place of what was there.
#[tactic(auto, unfolding(crate::specs::Lexing::lexeme))]
pub(crate) fn read_lexeme<'a>(
    buffer: &mut Vec<u8>,
    bytes: &'a [u8],
) -> Result<Option<(Lexeme<'a>, &'a [u8])>, AllocError>
    ensures token { (at : ℕ) → IfOk result (λ o. option_map (λ x. (token_of buffer.new.items at x.0, x.1.now)) o ≡ lexeme at bytes.now) }
    ensures told { IfOk result (λ o. IfSome o (λ x. TellsEscape x.0)) }
{
    let Some((first, rest)) = bytes.split_first() else {
        return Ok(None);
    };
    match *first {
        b'[' => Ok(Some((Lexeme::OpenList, rest))),
        b']' => Ok(Some((Lexeme::CloseList, rest))),
        b'{' => Ok(Some((Lexeme::OpenMap, rest))),
        b'}' => Ok(Some((Lexeme::CloseMap, rest))),
        b',' => Ok(Some((Lexeme::Comma, rest))),
        b':' => Ok(Some((Lexeme::Colon, rest))),
        b'"' => text(buffer, rest),
        _ => Ok(literal_or_number(*first, bytes)),
    }
}
