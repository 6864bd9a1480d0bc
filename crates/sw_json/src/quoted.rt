//! The text behind an opening quotation mark (RFC 8259, section 7).

ghost use Rattle.std.specs.Prelude.{◌≡◌, ℕ, List, length, ◌≤◌, ◌<◌, ◌++◌, IfOk, IfSome, OnOk, option_map, option_and_then, if◌then◌else◌, Some, None, true, false};
ghost use Rattle.std.specs.Char.{digit_value, encode_utf8};
ghost use Rattle.std.specs.Str.{IsUtf8, is_utf8};
ghost use Rattle.sw_json.specs.Quoted as grammar;
ghost use Rattle.sw_json.specs.Quoted.{hex, hex_at, low_at, unit_at, escape_at, with_spelling, quoted, has_escape};
ghost use Rattle.sw_json.specs.Inner.QuotedParts.{spelling_in, text_in, is_escaped, parts};
ghost use Rattle.sw_json.specs.Inner.Unescaping.{unescaped};

use crate::plain::split_plain;
use std::alloc::AllocError;

/// A text that stood between quotation marks.
#[derive(Clone, Copy)]
pub enum Quoted<'a> {
    /// The text, spelled without a backslash.
    Plain(&'a str),
    /// The spelling, with a backslash in it, of a text that is in the buffer.
    Escaped(&'a [u8]),
}

/// The value of a hexadecimal digit, and 16 or more for any other byte.
fn digit(byte: u8) -> u32
    ensures value { result ≡ digit_value byte }
    ensures bound { result ≤ 36 }
{
    match (byte as char).to_digit(36) {
        Some(value) => value,
        None => 36,
    }
}

/// The code that four digits give.
#[tactic(auto, unfolding(crate::specs::Quoted::are_hex, crate::specs::Quoted::code))]
fn code(a: u8, b: u8, c: u8, d: u8) -> Option<u32>
    ensures value { let digits = hex a b c d in
        result ≡ (if grammar.are_hex digits then Some (grammar.code digits) else None) }
    ensures bound { IfSome result (λ u. u < 65536) }
{
    let (a, b, c, d) = (digit(a), digit(b), digit(c), digit(d));
    if a < 16 && b < 16 && c < 16 && d < 16 {
        Some(a * 4096 + b * 256 + c * 16 + d)
    } else {
        None
    }
}

/// The code that the four digits in front give, and what is behind them.
fn read_hex(bytes: &[u8]) -> Option<(u32, &[u8])>
    ensures value { option_map (λ x. (x.0, x.1.now)) result ≡ hex_at bytes.now }
    ensures bound { IfSome result (λ x. x.0 < 65536) }
{
    let (a, rest) = bytes.split_first()?;
    let (b, rest) = rest.split_first()?;
    let (c, rest) = rest.split_first()?;
    let (d, rest) = rest.split_first()?;
    Some((code(*a, *b, *c, *d)?, rest))
}

/// The character whose high surrogate this is, by the low surrogate in front, and what is behind it.
fn read_low(high: u32, bytes: &[u8]) -> Option<(char, &[u8])>
    requires above { 0xd800 ≤ high }
    requires below { high < 0xdc00 }
    ensures { option_map (λ x. (x.0, x.1.now)) result ≡ low_at high bytes.now }
{
    let (slash, rest) = bytes.split_first()?;
    let (letter, rest) = rest.split_first()?;
    if *slash != b'\\' || *letter != b'u' {
        return None;
    }
    let (low, rest) = read_hex(rest)?;
    if low < 0xdc00 || 0xe000 <= low {
        return None;
    }
    let character = char::from_u32(0x10000 + (high - 0xd800) * 0x400 + (low - 0xdc00))?;
    Some((character, rest))
}

/// The character behind `\u`, and what is behind it.
fn read_unit(bytes: &[u8]) -> Option<(char, &[u8])>
    ensures { option_map (λ x. (x.0, x.1.now)) result ≡ unit_at bytes.now }
{
    let (unit, rest) = read_hex(bytes)?;
    if 0xd800 <= unit && unit < 0xdc00 {
        return read_low(unit, rest);
    }
    Some((char::from_u32(unit)?, rest))
}

/// The character behind a backslash, and what is behind it.
#[tactic(auto, unfolding(crate::specs::Quoted::escape_at, crate::specs::Quoted::is_short, crate::specs::Quoted::short_character))]
fn read_escape(bytes: &[u8]) -> Option<(char, &[u8])>
    ensures { option_map (λ x. (x.0, x.1.now)) result ≡ escape_at bytes.now }
{
    let (letter, rest) = bytes.split_first()?;
    match *letter {
        b'u' => read_unit(rest),
        b'"' => Some(('"', rest)),
        b'\\' => Some(('\\', rest)),
        b'/' => Some(('/', rest)),
        b'b' => Some(('\u{8}', rest)),
        b'f' => Some(('\u{c}', rest)),
        b'n' => Some(('\n', rest)),
        b'r' => Some(('\r', rest)),
        b't' => Some(('\t', rest)),
        _ => None,
    }
}

/// Appends the UTF-8 of the character.
fn push_character(out: &mut Vec<u8>, character: char) -> Result<(), AllocError>
    ensures { OnOk result (out.new.items ≡ out.old.items ++ encode_utf8 character) }
{
    let mut bytes = [0; 4];
    let encoded = character.encode_utf8(&mut bytes);
    out.extend_from_slice(encoded.as_bytes())
}

/// Appends what the bytes stand for up to a closing quotation mark, and answers what is behind that.
fn unescape<'a>(out: &mut Vec<u8>, bytes: &'a [u8]) -> Result<Option<&'a [u8]>, AllocError>
    ensures value { IfOk result (λ o. option_map (λ x. (out.new.items, x.now)) o
        ≡ unescaped out.old.items bytes.now) }
    ensures shorter { IfOk result (λ o. IfSome o (λ x. length x.now < length bytes.now)) }
{
    let mut rest = bytes;
    'runs: loop {
        let (run, behind) = split_plain(rest);
        out.extend_from_slice(run)?;
        let Some((first, after)) = behind.split_first() else {
            return Ok(None);
        };
        if *first == b'"' {
            return Ok(Some(after));
        }
        if *first != b'\\' {
            return Ok(None);
        }
        let Some((character, after)) = read_escape(after) else {
            return Ok(None);
        };
        push_character(out, character)?;
        rest = after;
    }
}

/// The text that is spelled by this run alone.
fn plain<'a>(run: &'a [u8], rest: &'a [u8]) -> Option<(Quoted<'a>, &'a [u8])>
    ensures value { (buffer : List ℕ) → option_map (λ x. parts buffer x.0 x.1.now) result
        ≡ (if is_utf8 run.now then Some (run.now, (run.now, rest.now)) else None) }
    ensures variant { IfSome result (λ x. is_escaped x.0 ≡ false) }
{
    match simdutf8::basic::from_utf8(run) {
        Ok(text) => Some((Quoted::Plain(text), rest)),
        Err(_) => None,
    }
}

/// The text whose first bytes are in the buffer, and that goes on behind them.
fn escaped<'a>(
    buffer: &mut Vec<u8>,
    bytes: &'a [u8],
    behind: &'a [u8],
) -> Result<Option<(Quoted<'a>, &'a [u8])>, AllocError>
    requires { length behind.now ≤ length bytes.now }
    ensures value { IfOk result (λ o. option_map (λ x. parts buffer.new.items x.0 x.1.now) o
        ≡ option_and_then (with_spelling bytes.now) (unescaped buffer.old.items behind.now)) }
    ensures variant { IfOk result (λ o. IfSome o (λ x. is_escaped x.0 ≡ true)) }
{
    let Some(rest) = unescape(buffer, behind)? else {
        return Ok(None);
    };
    if simdutf8::basic::from_utf8(buffer).is_err() {
        return Ok(None);
    }
    let spelling = &bytes[..bytes.len() - rest.len() - 1];
    Ok(Some((Quoted::Escaped(spelling), rest)))
}

/// The text that is closed in these bytes, which stand behind an opening quotation mark, and what is behind its
/// closing one; `None` where no text is closed in them, by RFC 8259, section 7: a character below U+0020 stands in
/// it unescaped, a backslash is followed by something else than the section names, or no quotation mark closes it;
/// where its bytes are no UTF-8 (section 8.1); and where a surrogate is escaped outside a pair of a high and a low
/// one, of which the RFC leaves open what it stands for.
///
/// A text without a backslash is a part of the bytes, and takes no memory. Another is decoded into the buffer, in
/// place of what was there. The one refusal is want of memory for that; what is in the buffer then is left open.
#[inline(never)]
pub(crate) fn read_quoted<'a>(
    buffer: &mut Vec<u8>,
    bytes: &'a [u8],
) -> Result<Option<(Quoted<'a>, &'a [u8])>, AllocError>
    ensures value { IfOk result (λ o. option_map (λ x. parts buffer.new.items x.0 x.1.now) o
        ≡ quoted bytes.now) }
    ensures utf8 { IfOk result (λ o. IfSome o (λ x. IsUtf8 (text_in buffer.new.items x.0))) }
    ensures variant { IfOk result (λ o. IfSome o (λ x. is_escaped x.0 ≡ has_escape (spelling_in x.0))) }
{
    buffer.clear();
    let (run, behind) = split_plain(bytes);
    let Some((first, rest)) = behind.split_first() else {
        return Ok(None);
    };
    if *first == b'"' {
        return Ok(plain(run, rest));
    }
    if *first != b'\\' {
        return Ok(None);
    }
    buffer.extend_from_slice(run)?;
    escaped(buffer, bytes, behind)
}

#[cfg(test)]
mod tests {
    use super::*;
    use std::test::Fail;

    fn text_of<'a>(buffer: &'a [u8], quoted: Quoted<'a>) -> &'a [u8] {
        match quoted {
            Quoted::Plain(text) => text.as_bytes(),
            Quoted::Escaped(_) => buffer,
        }
    }

    #[test]
    fn texts_are_read(rt: HostRuntime) -> Result<(), Fail> {
        let mut buffer = Vec::new(rt.alloc());
        for (bytes, text) in [
            ("\"]", ""),
            ("é\u{7f}/\"]", "é\u{7f}/"),
            ("\\u0041\\/\\u001f\"]", "A/\u{1f}"),
            ("\\\"\\\\\\/\\b\\f\\n\\r\\t\"]", "\"\\/\u{8}\u{c}\n\r\t"),
            ("a\\ud83d\\ude00é\"]", "a\u{1f600}é"),
            ("\\uD83D\\uDE00\\u00E9\\u00e9\"]", "\u{1f600}éé"),
            (
                "\\ud7ff\\ue000\\uffff\\ud800\\udc00\\udbff\\udfff\"]",
                "\u{d7ff}\u{e000}\u{ffff}\u{10000}\u{10ffff}",
            ),
        ] {
            let read = read_quoted(&mut buffer, bytes.as_bytes())?;
            assert!(rt;
                matches!(read, Some((quoted, b"]")) if text_of(&buffer, quoted) == text.as_bytes()),
                "{bytes}"
            );
        }
        Ok(())
    }

    #[test]
    fn other_bytes_are_no_text(rt: HostRuntime) -> Result<(), Fail> {
        let mut buffer = Vec::new(rt.alloc());
        let cases: [&[u8]; 18] = [
            b"",
            b"a",
            b"\\n",
            b"\\\"",
            b"\\ud800\"",
            b"\\ude00\"",
            b"\\ud800\\u0041\"",
            b"\\ud800\\n\"",
            b"\\uD83D\\uDE0\"",
            b"\\u00g0\"",
            b"\\x\"",
            b"\x1f\"",
            b"\\n\n\"",
            b"\xc0\x80\"",
            b"\xed\xa0\x80\"",
            b"\xf5\x80\x80\x80\"",
            b"\x80\"",
            b"\xc3\\u0041\"",
        ];
        for bytes in &cases {
            assert!(rt; read_quoted(&mut buffer, bytes)?.is_none(), "{bytes:?}");
        }
        Ok(())
    }
}
