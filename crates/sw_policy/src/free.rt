//! Laws of the constants: which choices take no memory.
ghost use Rattle.std.specs.Prelude.{◌≡◌, ◌&&◌, true, false};

use crate::one_or_many::OneOrMany;
use crate::pick_first::PickFirst;
use crate::preference::Preference;
use sw_core::adapter::DeserializeAs;
use sw_core::display::DisplayFromStr;
use sw_core::same::Same;
use sw_tree::meant::Meant;

/// A single option reads without memory where it is `FREE` by itself.
pub fn is_pick_of_one_free<T: Meant, A: DeserializeAs<T>>() -> bool
    ensures { result ≡ A.FREE }
{
    <PickFirst<(A,)> as DeserializeAs<T>>::FREE
}

/// Two options read without memory exactly where both are `FREE`.
pub fn is_pick_of_two_free<T: Meant, A: DeserializeAs<T>, B: DeserializeAs<T>>() -> bool
    ensures { result ≡ (A.FREE && B.FREE) }
{
    <PickFirst<(A, B)> as DeserializeAs<T>>::FREE
}

/// Three options read without memory exactly where all are `FREE`.
pub fn is_pick_of_three_free<
    T: Meant,
    A: DeserializeAs<T>,
    B: DeserializeAs<T>,
    C: DeserializeAs<T>,
>() -> bool
    ensures { result ≡ (A.FREE && B.FREE && C.FREE) }
{
    <PickFirst<(A, B, C)> as DeserializeAs<T>>::FREE
}

/// Four options read without memory exactly where all are `FREE`.
pub fn is_pick_of_four_free<
    T: Meant,
    A: DeserializeAs<T>,
    B: DeserializeAs<T>,
    C: DeserializeAs<T>,
    D: DeserializeAs<T>,
>() -> bool
    ensures { result ≡ (A.FREE && B.FREE && C.FREE && D.FREE) }
{
    <PickFirst<(A, B, C, D)> as DeserializeAs<T>>::FREE
}

/// A number as itself or as its text is read without memory.
pub fn is_number_or_text_free() -> bool
    ensures { result ≡ true }
{
    <PickFirst<(Same, DisplayFromStr)> as DeserializeAs<u32>>::FREE
}

/// A text that is copied isn't.
pub fn is_text_or_text_free() -> bool
    ensures { result ≡ false }
{
    <PickFirst<(Same, DisplayFromStr)> as DeserializeAs<String>>::FREE
}

/// A list isn't read without memory, whatever its parts are.
pub fn is_one_or_many_free<T: Meant, A: DeserializeAs<T>, F: Preference>() -> bool
    ensures { result ≡ false }
{
    <OneOrMany<A, F> as DeserializeAs<Vec<T>>>::FREE
}
