//! The meanings of borrowed bytes, and of texts and bytes that may be borrowed: those of what they hold.

use crate::containers::each_in_hand;
use crate::meant::{Meant, Named};
use std::borrow::{Cow, CowSlice, CowStr};

impl<'a> Named for &'a [u8] {
    ghost use Rattle.std.specs.Prelude.{◌^◌};
    ghost use Rattle.sw_tree.specs.Meant.{list_meaning, unsigned_meaning, IsListOf, IsBelow};

    ghost meaning = { λ r. list_meaning unsigned_meaning r.now };

    ghost is_meaning = { IsListOf (IsBelow (2 ^ 8)) };
}

impl<'a> Meant for &'a [u8] {
    fn in_hand(&self) {
        each_in_hand(*self);
    }
}

impl<'a, const N: usize> Named for &'a [u8; N] {
    ghost use Rattle.std.specs.Prelude.{◌^◌};
    ghost use Rattle.sw_tree.specs.Meant.{list_meaning, unsigned_meaning, IsArrayOf, IsBelow};

    ghost meaning = { λ r. list_meaning unsigned_meaning r.now };

    ghost is_meaning = { IsArrayOf (IsBelow (2 ^ 8)) N };
}

impl<'a, const N: usize> Meant for &'a [u8; N] {
    fn in_hand(&self) {
        (**self).in_hand();
    }
}

impl<'a> Named for CowStr<'a> {
    ghost use Rattle.std.specs.Cow.{cow_str_bytes};
    ghost use Rattle.sw_tree.specs.Meaning.{text};
    ghost use Rattle.sw_tree.specs.Meant.{IsText};

    ghost meaning = { λ c. text (cow_str_bytes c) };

    ghost is_meaning = { IsText };
}

impl<'a> Meant for CowStr<'a> {
    fn in_hand(&self) {
        let _bytes = self.as_str().as_bytes();
    }
}

impl<'a> Named for CowSlice<'a, u8> {
    ghost use Rattle.std.specs.Prelude.{◌^◌};
    ghost use Rattle.std.specs.Cow.{cow_slice_items};
    ghost use Rattle.sw_tree.specs.Meant.{list_meaning, unsigned_meaning, IsListOf, IsBelow};

    ghost meaning = { λ c. list_meaning unsigned_meaning (cow_slice_items c) };

    ghost is_meaning = { IsListOf (IsBelow (2 ^ 8)) };
}

impl<'a> Meant for CowSlice<'a, u8> {
    fn in_hand(&self) {
        match self {
            CowSlice::Borrowed(bytes) => bytes.in_hand(),
            CowSlice::Owned(bytes) => bytes.in_hand(),
        }
    }
}

impl<'a, const N: usize> Named for Cow<'a, [u8; N]> {
    ghost use Rattle.std.specs.Prelude.{◌^◌};
    ghost use Rattle.std.specs.Cow.{cow_value};
    ghost use Rattle.sw_tree.specs.Meant.{list_meaning, unsigned_meaning, IsArrayOf, IsBelow};

    ghost meaning = { λ c. list_meaning unsigned_meaning (cow_value c) };

    ghost is_meaning = { IsArrayOf (IsBelow (2 ^ 8)) N };
}

impl<'a, const N: usize> Meant for Cow<'a, [u8; N]> {
    fn in_hand(&self) {
        match self {
            Cow::Borrowed(bytes) => bytes.in_hand(),
            Cow::Owned(bytes) => bytes.in_hand(),
        }
    }
}
