//! Laws of the constants: which types take no memory when they are read, or parsed.

ghost use Rattle.std.specs.Prelude.{◌≡◌, true, false};

use crate::any::Any;
use crate::serialize::Deserialize;
use crate::text::TextForm;

/// Whole numbers, truth values, characters and `()` are read without memory.
pub fn are_leaves_free() -> bool
    ensures { result ≡ true }
{
    <u8 as Deserialize>::FREE
        && <u16 as Deserialize>::FREE
        && <u32 as Deserialize>::FREE
        && <u64 as Deserialize>::FREE
        && <u128 as Deserialize>::FREE
        && <usize as Deserialize>::FREE
        && <i8 as Deserialize>::FREE
        && <i16 as Deserialize>::FREE
        && <i32 as Deserialize>::FREE
        && <i64 as Deserialize>::FREE
        && <i128 as Deserialize>::FREE
        && <isize as Deserialize>::FREE
        && <bool as Deserialize>::FREE
        && <char as Deserialize>::FREE
        && <() as Deserialize>::FREE
}

/// Texts and trees are copied, so they aren't.
pub fn are_copies_free() -> bool
    ensures { result ≡ false }
{
    <String as Deserialize>::FREE || <Any as Deserialize>::FREE
}

/// Whole numbers, truth values and characters are parsed without memory.
pub fn are_parsed_free() -> bool
    ensures { result ≡ true }
{
    <u8 as TextForm>::FREE
        && <u16 as TextForm>::FREE
        && <u32 as TextForm>::FREE
        && <u64 as TextForm>::FREE
        && <u128 as TextForm>::FREE
        && <usize as TextForm>::FREE
        && <i8 as TextForm>::FREE
        && <i16 as TextForm>::FREE
        && <i32 as TextForm>::FREE
        && <i64 as TextForm>::FREE
        && <i128 as TextForm>::FREE
        && <isize as TextForm>::FREE
        && <bool as TextForm>::FREE
        && <char as TextForm>::FREE
}

/// A text that is its own text is copied.
pub fn is_parsed_text_free() -> bool
    ensures { result ≡ false }
{
    <String as TextForm>::FREE
}
