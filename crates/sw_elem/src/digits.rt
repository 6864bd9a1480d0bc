//! The texts of whole numbers, of any width. Few digits are read in 64 bits, which is faster.

ghost use Rattle.std.specs.Prelude.{◌≡◌, true, false, IfSome};
ghost use Rattle.sw_elem.specs.Decimal.{decimal_value};
ghost use Rattle.sw_elem.specs.Inner.Decimal.{IsSpelled, IsSignedNumeral};

use sw_tree::number;
use sw_tree::whole::Whole;

/// The number that digits spell, before which a plus may stand, and a minus where it is said.
pub(crate) fn whole_in(text: &str, signed: bool) -> Option<Whole>
    ensures { IsSpelled signed result (decimal_value signed text.now) }
{
    if signed {
        signed_in(text)
    } else {
        unsigned_in(text)
    }
}

fn unsigned_in(text: &str) -> Option<Whole>
    ensures { IsSpelled false result (decimal_value false text.now) }
{
    match number::short_value(text.as_bytes()) {
        Some(short) => Some(Whole::from_u128(u128::from(short))),
        None => match text.parse::<u128>() {
            Ok(value) => Some(Whole::from_u128(value)),
            Err(_) => None,
        },
    }
}

/// The number that few digits spell, before which a minus may stand.
fn short_signed(spelling: &[u8]) -> Option<i128>
    ensures { IfSome result (IsSignedNumeral spelling.now) }
{
    let (first, rest) = spelling.split_first()?;
    if *first == b'-' {
        Some(-i128::from(number::short_value(rest)?))
    } else {
        Some(i128::from(number::short_value(spelling)?))
    }
}

fn signed_in(text: &str) -> Option<Whole>
    ensures { IsSpelled true result (decimal_value true text.now) }
{
    match short_signed(text.as_bytes()) {
        Some(value) => Some(Whole::from_i128(value)),
        None => match text.parse::<i128>() {
            Ok(value) => Some(Whole::from_i128(value)),
            Err(_) => None,
        },
    }
}
