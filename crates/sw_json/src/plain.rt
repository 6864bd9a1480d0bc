//! Bytes that stand for themselves in a text, looked at a vector at a time.

ghost use Rattle.std.specs.Prelude.{◌≡◌, ◌+◌, ◌≤◌, ◌∷◌, length, map, not, IfSome};
ghost use Rattle.std.specs.Bool.{OnTrue};
ghost use Rattle.std.specs.List.{prefix_len};
ghost use Rattle.std.specs.Str.{IsUtf8};
ghost use Rattle.std.specs.Simd.Lanes.{mask_l};
ghost use Rattle.sw_json.specs.Bytes as tests;
ghost use Rattle.sw_json.specs.Bytes.{front, behind};
ghost use Rattle.sw_json.specs.Inner.Plain.{is_plain_ascii, ArePlain};

use std::simd::prelude::*;

#[inline(always)]
#[tactic(auto, unfolding(crate::specs::Bytes::is_plain))]
fn is_plain(byte: u8) -> bool
    ensures { result ≡ tests.is_plain byte }
{
    b' ' <= byte && !(byte == b'"' || byte == b'\\')
}

/// A bit for each byte that doesn't stand for itself.
#[inline(always)]
fn stops_16(v: u8x16) -> u64
    ensures { result ≡ mask_l (map (λ b. not (tests.is_plain b)) v) }
{
    (v.simd_eq(u8x16::splat(b'"'))
        | v.simd_eq(u8x16::splat(b'\\'))
        | v.simd_lt(u8x16::splat(b' '))).to_bitmask()
}

/// The same of half as many.
#[inline(always)]
fn stops_8(v: u8x8) -> u64
    ensures { result ≡ mask_l (map (λ b. not (tests.is_plain b)) v) }
{
    (v.simd_eq(u8x8::splat(b'"'))
        | v.simd_eq(u8x8::splat(b'\\'))
        | v.simd_lt(u8x8::splat(b' '))).to_bitmask()
}

/// The same of four.
#[inline(always)]
fn stops_4(v: u8x4) -> u64
    ensures { result ≡ mask_l (map (λ b. not (tests.is_plain b)) v) }
{
    (v.simd_eq(u8x4::splat(b'"'))
        | v.simd_eq(u8x4::splat(b'\\'))
        | v.simd_lt(u8x4::splat(b' '))).to_bitmask()
}

/// A bit for each byte that doesn't stand for itself, or is a part of a longer character.
#[inline(always)]
fn ascii_stops_16(v: u8x16) -> u64
    ensures { result ≡ mask_l (map (λ b. not (is_plain_ascii b)) v) }
{
    (v.simd_eq(u8x16::splat(b'"'))
        | v.simd_eq(u8x16::splat(b'\\'))
        | v.simd_lt(u8x16::splat(b' '))
        | v.simd_ge(u8x16::splat(0x80))).to_bitmask()
}

#[inline(always)]
fn are_plain_16(bytes: &[u8], at: usize) -> bool
    requires { at + 16 ≤ length bytes.now }
    ensures { OnTrue result (ArePlain bytes.now at (at + 16)) }
{
    stops_16(u8x16::from_slice(&bytes[at..])) == 0
}

#[inline(always)]
fn are_plain_8(bytes: &[u8], at: usize) -> bool
    requires { at + 8 ≤ length bytes.now }
    ensures { OnTrue result (ArePlain bytes.now at (at + 8)) }
{
    stops_8(u8x8::from_slice(&bytes[at..])) == 0
}

#[inline(always)]
fn are_plain_4(bytes: &[u8], at: usize) -> bool
    requires { at + 4 ≤ length bytes.now }
    ensures { OnTrue result (ArePlain bytes.now at (at + 4)) }
{
    stops_4(u8x4::from_slice(&bytes[at..])) == 0
}

/// Whether all bytes stand for themselves, of which there are few.
#[inline(always)]
fn are_few_plain(bytes: &[u8]) -> bool
    ensures { OnTrue result (ArePlain bytes.now 0 (length bytes.now)) }
{
    for byte in bytes {
        if !is_plain(*byte) {
            return false;
        }
    }
    true
}

/// The same, of which there are at least 16.
#[inline(always)]
fn are_many_plain(bytes: &[u8]) -> bool
    requires { 16 ≤ length bytes.now }
    ensures { OnTrue result (ArePlain bytes.now 0 (length bytes.now)) }
{
    let last = bytes.len() - 16;
    let mut at = 0;
    while at < last {
        if !are_plain_16(bytes, at) {
            return false;
        }
        at += 16;
    }
    are_plain_16(bytes, last)
}

/// Whether all bytes stand for themselves. Vectors that overlap cover those that fill no
/// whole number of them.
pub(crate) fn are_plain(bytes: &[u8]) -> bool
    ensures { OnTrue result (ArePlain bytes.now 0 (length bytes.now)) }
{
    let len = bytes.len();
    if len >= 16 {
        are_many_plain(bytes)
    } else if len >= 8 {
        are_plain_8(bytes, 0) && are_plain_8(bytes, len - 8)
    } else if len >= 4 {
        are_plain_4(bytes, 0) && are_plain_4(bytes, len - 4)
    } else {
        are_few_plain(bytes)
    }
}

/// How many bytes in front stand for themselves, of fewer than 16.
fn short_plain_len(bytes: &[u8]) -> usize
    ensures { result ≡ prefix_len tests.is_plain bytes.now }
{
    let mut len = 0;
    while len < bytes.len() && is_plain(bytes[len]) {
        len += 1;
    }
    len
}

/// How many bytes in front stand for themselves.
#[inline(always)]
fn plain_len(bytes: &[u8]) -> usize
    ensures value { result ≡ prefix_len tests.is_plain bytes.now }
    ensures bound { result ≤ length bytes.now }
{
    let mut at = 0;
    while bytes.len() - at >= 16 {
        let stops = stops_16(u8x16::from_slice(&bytes[at..]));
        if stops != 0 {
            return at + stops.trailing_zeros() as usize;
        }
        at += 16;
    }
    at + short_plain_len(&bytes[at..])
}

/// The longest front of bytes that stand for themselves, and what is behind it.
#[inline(always)]
#[tactic(auto, using(crate::proofs::Stops::front_len, crate::proofs::Stops::behind_len))]
pub(crate) fn split_plain(bytes: &[u8]) -> (&[u8], &[u8])
    ensures front { result.0.now ≡ front tests.is_plain bytes.now }
    ensures behind { result.1.now ≡ behind tests.is_plain bytes.now }
{
    bytes.split_at(plain_len(bytes))
}

/// The same of bytes that are whole characters, of fewer than 16.
fn short_ascii_len(bytes: &[u8]) -> usize
    ensures { result ≡ prefix_len is_plain_ascii bytes.now }
{
    let mut len = 0;
    while len < bytes.len() && is_plain(bytes[len]) && bytes[len] < 0x80 {
        len += 1;
    }
    len
}

/// How many bytes in front stand for themselves and are whole characters.
#[inline(always)]
fn ascii_len(bytes: &[u8]) -> usize
    ensures value { result ≡ prefix_len is_plain_ascii bytes.now }
    ensures bound { result ≤ length bytes.now }
{
    let mut at = 0;
    while bytes.len() - at >= 16 {
        let stops = ascii_stops_16(u8x16::from_slice(&bytes[at..]));
        if stops != 0 {
            return at + stops.trailing_zeros() as usize;
        }
        at += 16;
    }
    at + short_ascii_len(&bytes[at..])
}

/// The text up to its closing quotation mark, and what is behind that, where all bytes of
/// the text are ASCII and stand for themselves.
#[inline(always)]
pub(crate) fn split_ascii_text(bytes: &[u8]) -> Option<(&str, &[u8])>
    ensures front { IfSome result (λ x. x.0.now ≡ front tests.is_plain bytes.now) }
    ensures behind { IfSome result (λ x. behind tests.is_plain bytes.now ≡ 34 ∷ x.1.now) }
    ensures utf8 { IfSome result (λ x. IsUtf8 x.0.now) }
{
    let (run, behind) = bytes.split_at(ascii_len(bytes));
    match behind.split_first() {
        Some((b'"', rest)) => Some((unsafe { std::str::from_utf8_unchecked(run) }, rest)),
        _ => None,
    }
}

#[cfg(test)]
mod tests {
    use super::*;

    /// Texts of all lengths that are looked at differently, and how many bytes in front
    /// stand for themselves.
    const CASES: [(&[u8], usize); 12] = [
        (b"", 0),
        (b"ab", 2),
        (b"ab\n", 2),
        (b"abcdef", 6),
        (b"abcde\\", 5),
        (b"\x1fbcdefg", 0),
        (b"abcdefghijkl", 12),
        (b"abcdefghij\"l", 10),
        (b"abcdefghijklmnop", 16),
        (b"abcdefghijklmnopqrs\"", 19),
        (b"abcdefghijklmnopqrstuvwxyz\x7f\xc3\xa9 .abcdefghi", 40),
        (b"abcdefghijklmnopqrstuvwxyzabcdef\"hijklmnopqrs", 32),
    ];

    #[test]
    fn a_run_ends_at_the_first_byte_to_be_escaped(rt: HostRuntime) {
        for (bytes, wanted) in CASES {
            let (run, behind) = split_plain(bytes);
            assert_eq!(rt; run.len(), wanted);
            assert_eq!(rt; are_plain(bytes), behind.is_empty());
        }
    }
}
