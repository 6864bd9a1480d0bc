//! Numbers, put down.

ghost use Rattle.std.specs.Prelude.{◌≡◌, ◌∷◌, [], ◌++◌, ◌<◌};
ghost use Rattle.sw_compact.specs.Inner.Appended.{IsAppended, number_bytes};
ghost use Rattle.sw_compact.specs.Numbers.{counted};

use crate::length::append;
use sw_tree::{SerFail, Whole};

/// Appends a tag, and a number behind the count of its bytes. The one refusal is `Memory`.
fn push_wide(out: &mut Vec<u8>, tag: u8, magnitude: u128) -> Result<(), SerFail>
    ensures { IsAppended result out.old.items out.new.items (tag ∷ counted magnitude) }
{
    let mut bytes = [0u8; 18];
    let mut at = 18;
    let mut rest = magnitude;
    while rest != 0 {
        at -= 1;
        bytes[at] = (rest % 256) as u8;
        rest /= 256;
    }
    bytes[at - 1] = (18 - at) as u8;
    bytes[at - 2] = tag;
    append(out, &bytes[at - 2..])
}

/// Appends a tag, and a number behind the count of its bytes. The one refusal is `Memory`.
#[inline]
fn push_number(out: &mut Vec<u8>, tag: u8, magnitude: u128) -> Result<(), SerFail>
    ensures { IsAppended result out.old.items out.new.items (tag ∷ counted magnitude) }
{
    if magnitude == 0 {
        return append(out, &[tag, 0]);
    }
    if magnitude < 256 {
        return append(out, &[tag, 1, magnitude as u8]);
    }
    push_wide(out, tag, magnitude)
}

/// Appends a number, with its sign as its tag. The one refusal is `Memory`.
#[inline]
fn push_signed(out: &mut Vec<u8>, value: i128) -> Result<(), SerFail>
    ensures { IsAppended result out.old.items out.new.items (number_bytes value) }
{
    if value >= 0 {
        push_number(out, 3, value as u128)
    } else {
        push_number(out, 4, (-1 - value) as u128)
    }
}

/// Appends a number, with its sign as its tag. The one refusal is `Memory`.
#[inline]
pub(crate) fn push_int(out: &mut Vec<u8>, value: Whole) -> Result<(), SerFail>
    ensures { IsAppended result out.old.items out.new.items (number_bytes value) }
{
    if let Some(short) = value.to_i64() {
        return push_signed(out, i128::from(short));
    }
    if let Some(natural) = value.to_u128() {
        return push_number(out, 3, natural);
    }
    match value.to_i128() {
        None => unreachable!(),
        Some(negative) => push_signed(out, negative),
    }
}
