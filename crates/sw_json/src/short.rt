//! A short whole number in front of bytes, valued while its digits are read.

ghost use Rattle.std.specs.Prelude.{◌≡◌, ◌<◌, IfSome};
ghost use Rattle.std.specs.Bool.{OnTrue};
ghost use Rattle.sw_tree.specs.Laws.Number.{value_of};
ghost use Rattle.sw_json.specs.Bytes as tests;
ghost use Rattle.sw_json.specs.Bytes.{front, behind, Stops};
ghost use Rattle.sw_json.specs.Inner.Short.{IsShortInt, IsShort};

use crate::class::{is_digit, is_number_byte};
use crate::lexer::is_leading;

/// Below it ten times a value and one digit more have 63 bits.
const SHORT: u64 = 900_000_000_000_000_000;

/// The value of the digits in front, and what is behind them. `None` only where the value
/// is too large.
#[inline(always)]
#[tactic(auto, unfolding(crate::specs::Bytes::is_digit))]
fn short_digits(bytes: &[u8]) -> Option<(u64, &[u8])>
    ensures value { IfSome result (λ x. x.0 ≡ value_of (front tests.is_digit bytes.now)) }
    ensures behind { IfSome result (λ x. x.1.now ≡ behind tests.is_digit bytes.now) }
    ensures bound { IfSome result (λ x. x.0 < 9000000000000000000) }
{
    let mut value: u64 = 0;
    for (i, byte) in bytes.iter().enumerate() {
        if !is_digit(*byte) {
            return Some((value, &bytes[i..]));
        }
        if value >= SHORT {
            return None;
        }
        value = value * 10 + u64::from(*byte - b'0');
    }
    Some((value, &bytes[bytes.len()..]))
}

/// Whether no byte is in front that a number is made of.
#[inline(always)]
fn ends_number(bytes: &[u8]) -> bool
    ensures { OnTrue result (Stops tests.is_number_byte bytes.now) }
{
    match bytes.split_first() {
        Some((first, _)) => !is_number_byte(*first),
        None => true,
    }
}

/// The value of an int in front whose first digit isn't zero, and what is behind it, where
/// the value is short and no fraction or exponent follows.
#[inline(always)]
fn short_int(bytes: &[u8]) -> Option<(u64, &[u8])>
    ensures { IfSome result (λ x. IsShortInt bytes.now x.0 x.1.now) }
{
    let (first, _) = bytes.split_first()?;
    if !is_leading(*first) {
        return None;
    }
    let (value, behind) = short_digits(bytes)?;
    if !ends_number(behind) {
        return None;
    }
    Some((value, behind))
}

/// The value of a number in front, and what is behind it, where it is a short int other
/// than zero, with a minus before it or not.
#[inline(always)]
pub(crate) fn short_number(bytes: &[u8]) -> Option<(i64, &[u8])>
    ensures { IfSome result (λ x. IsShort bytes.now x.0 x.1.now) }
{
    let (first, rest) = bytes.split_first()?;
    if *first == b'-' {
        let (size, behind) = short_int(rest)?;
        return Some((-(size as i64), behind));
    }
    let (size, behind) = short_int(bytes)?;
    Some((size as i64, behind))
}

#[cfg(test)]
mod tests {
    use super::*;

    #[test]
    fn short_ints_are_read(rt: HostRuntime) {
        let cases: [(&[u8], Option<(i64, usize)>); 14] = [
            (b"1", Some((1, 0))),
            (b"12,", Some((12, 1))),
            (b"-305]", Some((-305, 1))),
            (
                b"8999999999999999999 ",
                Some((8_999_999_999_999_999_999, 1)),
            ),
            (
                b"-8999999999999999999",
                Some((-8_999_999_999_999_999_999, 0)),
            ),
            (b"9000000000000000000", None),
            (b"18446744073709551617", None),
            (b"0", None),
            (b"-0", None),
            (b"012", None),
            (b"1.5", None),
            (b"1e5", None),
            (b"1-", None),
            (b"-", None),
        ];
        for (bytes, want) in cases {
            let read = short_number(bytes).map(|(value, behind)| (value, behind.len()));
            assert_eq!(rt; read, want);
        }
    }
}
