//! The classes of the texts that the types show.

ghost use Rattle.std.specs.Prelude.{◌≡◌};
ghost use Rattle.sw_elem.specs.Classes as classes;

use sw_check::class::TextClass;

/// The digits.
fn digits() -> TextClass
    ensures { result ≡ classes.digit_class }
{
    TextClass::of("0123456789")
}

/// The digits and the minus.
fn signed_digits() -> TextClass
    ensures { result ≡ classes.signed_class }
{
    TextClass::of("-0123456789")
}

/// What a number is shown by, where it has a sign and where it has none.
pub(crate) fn of_decimals(signed: bool) -> TextClass
    ensures { result ≡ classes.decimal_class signed }
{
    if signed { signed_digits() } else { digits() }
}

/// The letters of `true` and `false`.
pub(crate) fn truth_letters() -> TextClass
    ensures { result ≡ classes.truth_class }
{
    TextClass::of("aeflrstu")
}

/// Every byte, in texts that are never empty where it is said.
pub(crate) fn every_byte(never_empty: bool) -> TextClass
    ensures { result ≡ classes.byte_class never_empty }
{
    TextClass {
        never_empty,
        ascii: u128::MAX,
        other: true,
    }
}
