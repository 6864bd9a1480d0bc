//! Laws of the constants: which adapters take no memory when they read.

ghost use Rattle.std.specs.Prelude.{◌≡◌, true, false};

use crate::adapter::DeserializeAs;
use crate::display::DisplayFromStr;
use crate::same::Same;
use std::collections::VecDeque;
use sw_elem::any::Any;
use sw_tree::meant::Meant;

/// Whole numbers, truth values, characters and `()` by themselves are read without memory.
pub fn are_leaves_free() -> bool
    ensures { result ≡ true }
{
    <Same as DeserializeAs<u8>>::FREE
        && <Same as DeserializeAs<u16>>::FREE
        && <Same as DeserializeAs<u32>>::FREE
        && <Same as DeserializeAs<u64>>::FREE
        && <Same as DeserializeAs<u128>>::FREE
        && <Same as DeserializeAs<usize>>::FREE
        && <Same as DeserializeAs<i8>>::FREE
        && <Same as DeserializeAs<i16>>::FREE
        && <Same as DeserializeAs<i32>>::FREE
        && <Same as DeserializeAs<i64>>::FREE
        && <Same as DeserializeAs<i128>>::FREE
        && <Same as DeserializeAs<isize>>::FREE
        && <Same as DeserializeAs<bool>>::FREE
        && <Same as DeserializeAs<char>>::FREE
        && <Same as DeserializeAs<()>>::FREE
}

/// Texts and trees are copied, so they aren't.
pub fn are_copies_free() -> bool
    ensures { result ≡ false }
{
    <Same as DeserializeAs<String>>::FREE || <Same as DeserializeAs<Any>>::FREE
}

/// Whole numbers, truth values and characters are parsed without memory.
pub fn are_parsed_leaves_free() -> bool
    ensures { result ≡ true }
{
    <DisplayFromStr as DeserializeAs<u8>>::FREE
        && <DisplayFromStr as DeserializeAs<u16>>::FREE
        && <DisplayFromStr as DeserializeAs<u32>>::FREE
        && <DisplayFromStr as DeserializeAs<u64>>::FREE
        && <DisplayFromStr as DeserializeAs<u128>>::FREE
        && <DisplayFromStr as DeserializeAs<usize>>::FREE
        && <DisplayFromStr as DeserializeAs<i8>>::FREE
        && <DisplayFromStr as DeserializeAs<i16>>::FREE
        && <DisplayFromStr as DeserializeAs<i32>>::FREE
        && <DisplayFromStr as DeserializeAs<i64>>::FREE
        && <DisplayFromStr as DeserializeAs<i128>>::FREE
        && <DisplayFromStr as DeserializeAs<isize>>::FREE
        && <DisplayFromStr as DeserializeAs<bool>>::FREE
        && <DisplayFromStr as DeserializeAs<char>>::FREE
}

/// A text that is its own text is copied.
pub fn is_parsed_text_free() -> bool
    ensures { result ≡ false }
{
    <DisplayFromStr as DeserializeAs<String>>::FREE
}

/// A list isn't read without memory, whatever its parts are.
pub fn is_list_free<T: Meant, A: DeserializeAs<T>>() -> bool
    ensures { result ≡ false }
{
    <Vec<A> as DeserializeAs<Vec<T>>>::FREE
}

/// A queue isn't, either.
pub fn is_queue_free<T: Meant, A: DeserializeAs<T>>() -> bool
    ensures { result ≡ false }
{
    <VecDeque<A> as DeserializeAs<VecDeque<T>>>::FREE
}
