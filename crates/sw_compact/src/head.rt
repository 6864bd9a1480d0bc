//! What stands at the front of bytes: a length, a number, the head of a node.

ghost use Rattle.std.specs.Prelude.{◌≡◌, ◌≤◌, ◌+◌, length, true, false, option_map, option_and_then};
ghost use Rattle.sw_compact.specs.Head.{head, length_front, groups_front, number_front, split, value_from, opening, textual, negative};
ghost use Rattle.sw_compact.specs.Inner.Heads.{head_of};
ghost use Rattle.sw_compact.specs.declared.version.Version.TheVariants.{One};

use crate::version::Version;

/// What a node begins with.
#[derive(Clone, Copy)]
pub enum Head<'a> {
    Null,
    Truth(bool),
    Natural(u128),
    /// The number -1 - m, by m, which is below 2^127.
    Negative(u128),
    Text(&'a str),
    Bytes(&'a [u8]),
    /// The opening of a list of so many items.
    List(usize),
    /// The opening of a map of so many keys and values.
    Map(usize),
}

/// So many bytes in front, and what is behind them.
#[inline]
fn read_bytes(bytes: &[u8], count: usize) -> Option<(&[u8], &[u8])>
    ensures { option_map (λ x. (x.0.now, x.1.now)) result ≡ split count bytes.now }
{
    match bytes.split_at_checked(count) {
        Some((front, behind)) => Some((front, behind)),
        None => None,
    }
}

/// The number in front by its groups of seven bits, at most so many, and what is behind them.
fn read_groups(bytes: &[u8], most: u32) -> Option<(usize, &[u8])>
    ensures { option_map (λ x. (x.0, x.1.now)) result ≡ groups_front most bytes.now }
{
    if most == 0 {
        return None;
    }
    let (first, rest) = bytes.split_first()?;
    if *first < 128 {
        return Some((*first as usize, rest));
    }
    let (higher, behind) = read_groups(rest, most - 1)?;
    if higher == 0 || higher >= 1 << 57 {
        return None;
    }
    Some((*first as usize - 128 + 128 * higher, behind))
}

/// The number of the eight bytes in front, the highest first, and what is behind them.
#[inline]
fn read_eight(bytes: &[u8]) -> Option<(usize, &[u8])>
    ensures { option_map (λ x. (x.0, x.1.now)) result ≡ length_front One bytes.now }
{
    match bytes.split_first_chunk::<8>() {
        Some((eight, behind)) => Some((u64::from_be_bytes(*eight) as usize, behind)),
        None => None,
    }
}

/// The length in front, and what is behind it.
#[inline]
fn read_length(version: Version, bytes: &[u8]) -> Option<(usize, &[u8])>
    ensures { option_map (λ x. (x.0, x.1.now)) result ≡ length_front version bytes.now }
{
    match version {
        Version::One => read_eight(bytes),
        Version::Two => read_groups(bytes, 10),
    }
}

/// The number of these bytes, the highest first.
fn value_of(digits: &[u8]) -> u128
    requires { length digits.now ≤ 16 }
    ensures { result ≡ value_from 0 digits.now }
{
    let mut value = 0;
    for digit in digits {
        value = 256 * value + u128::from(*digit);
    }
    value
}

/// The number behind its count of bytes, and what is behind it.
#[inline]
fn read_number(bytes: &[u8]) -> Option<(u128, &[u8])>
    ensures { option_map (λ x. (x.0, x.1.now)) result ≡ number_front bytes.now }
{
    let (count, rest) = bytes.split_first()?;
    if *count > 16 {
        return None;
    }
    let (digits, behind) = read_bytes(rest, *count as usize)?;
    if let Some(first) = digits.first() {
        if *first == 0 {
            return None;
        }
    }
    Some((value_of(digits), behind))
}

/// The bytes behind their length, and what is behind them.
#[inline]
fn read_counted(version: Version, bytes: &[u8]) -> Option<(&[u8], &[u8])>
    ensures { option_map (λ x. (x.0.now, x.1.now)) result ≡ option_and_then (λ x. split x.0 x.1) (length_front version bytes.now) }
{
    let (count, rest) = read_length(version, bytes)?;
    read_bytes(rest, count)
}

/// A list of no more items than there are bytes behind its count.
#[inline]
fn read_list(version: Version, bytes: &[u8]) -> Option<(Head<'_>, &[u8])>
    ensures { option_map (λ x. (head_of x.0, x.1.now)) result ≡ option_and_then (λ x. opening false x.0 x.1) (length_front version bytes.now) }
{
    let (count, behind) = read_length(version, bytes)?;
    if count > behind.len() {
        return None;
    }
    Some((Head::List(count), behind))
}

/// A map of no more keys and values than there are bytes behind its count.
#[inline]
fn read_map(version: Version, bytes: &[u8]) -> Option<(Head<'_>, &[u8])>
    ensures { option_map (λ x. (head_of x.0, x.1.now)) result ≡ option_and_then (λ x. opening true (x.0 + x.0) x.1) (length_front version bytes.now) }
{
    let (count, behind) = read_length(version, bytes)?;
    if count > behind.len() / 2 {
        return None;
    }
    Some((Head::Map(count + count), behind))
}

/// A text of these bytes, if they are UTF-8.
#[inline]
fn text_head<'a>(part: &'a [u8], behind: &'a [u8]) -> Option<(Head<'a>, &'a [u8])>
    ensures { option_map (λ x. (head_of x.0, x.1.now)) result ≡ textual (part.now, behind.now) }
{
    match simdutf8::basic::from_utf8(part) {
        Ok(text) => Some((Head::Text(text), behind)),
        Err(_) => None,
    }
}

/// The number -1 - m, if it isn't below -2^127.
#[inline]
fn negative_head(value: u128, behind: &[u8]) -> Option<(Head<'_>, &[u8])>
    ensures { option_map (λ x. (head_of x.0, x.1.now)) result ≡ negative (value, behind.now) }
{
    if value >= 1 << 127 {
        return None;
    }
    Some((Head::Negative(value), behind))
}

/// The head of the node in front, and what is behind it.
#[tactic(auto, unfolding(crate::specs::Head::head))]
pub(crate) fn read_head(version: Version, bytes: &[u8]) -> Option<(Head<'_>, &[u8])>
    ensures { option_map (λ x. (head_of x.0, x.1.now)) result ≡ head version bytes.now }
{
    let (tag, rest) = bytes.split_first()?;
    match *tag {
        0 => Some((Head::Null, rest)),
        1 => Some((Head::Truth(false), rest)),
        2 => Some((Head::Truth(true), rest)),
        3 => {
            let (value, behind) = read_number(rest)?;
            Some((Head::Natural(value), behind))
        }
        4 => {
            let (value, behind) = read_number(rest)?;
            negative_head(value, behind)
        }
        5 => {
            let (part, behind) = read_counted(version, rest)?;
            text_head(part, behind)
        }
        6 => {
            let (part, behind) = read_counted(version, rest)?;
            Some((Head::Bytes(part), behind))
        }
        7 => read_list(version, rest),
        8 => read_map(version, rest),
        _ => None,
    }
}
