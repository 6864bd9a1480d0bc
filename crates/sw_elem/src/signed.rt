//! The signed types of std, by the limit that their numbers are within.

use crate::integer::Integer;
use crate::numbers::signed_within;
use sw_tree::whole::Whole;

impl Integer for i8 {
    ghost use Rattle.std.specs.Prelude.{◌^◌, true};
    ghost use Rattle.std.specs.Int.{w8};
    ghost use Rattle.sw_elem.specs.Numbers.{is_within};
    ghost use Rattle.sw_elem.specs.Laws.Numbers.{signed_integer};

    const SIGNED: bool = true;

    ghost SIGNED = { true };

    ghost fits = { is_within (2 ^ 7) };

    fn to_whole(self) -> Whole {
        Whole::from_i128(i128::from(self))
    }

    fn from_whole(whole: Whole) -> Option<i8> {
        match signed_within(whole, i8::MAX as u128) {
            Some(value) => Some(value as i8),
            None => None,
        }
    }

    ghost holds = { signed_integer w8 };
}

impl Integer for i16 {
    ghost use Rattle.std.specs.Prelude.{◌^◌, true};
    ghost use Rattle.std.specs.Int.{w16};
    ghost use Rattle.sw_elem.specs.Numbers.{is_within};
    ghost use Rattle.sw_elem.specs.Laws.Numbers.{signed_integer};

    const SIGNED: bool = true;

    ghost SIGNED = { true };

    ghost fits = { is_within (2 ^ 15) };

    fn to_whole(self) -> Whole {
        Whole::from_i128(i128::from(self))
    }

    fn from_whole(whole: Whole) -> Option<i16> {
        match signed_within(whole, i16::MAX as u128) {
            Some(value) => Some(value as i16),
            None => None,
        }
    }

    ghost holds = { signed_integer w16 };
}

impl Integer for i32 {
    ghost use Rattle.std.specs.Prelude.{◌^◌, true};
    ghost use Rattle.std.specs.Int.{w32};
    ghost use Rattle.sw_elem.specs.Numbers.{is_within};
    ghost use Rattle.sw_elem.specs.Laws.Numbers.{signed_integer};

    const SIGNED: bool = true;

    ghost SIGNED = { true };

    ghost fits = { is_within (2 ^ 31) };

    fn to_whole(self) -> Whole {
        Whole::from_i128(i128::from(self))
    }

    fn from_whole(whole: Whole) -> Option<i32> {
        match signed_within(whole, i32::MAX as u128) {
            Some(value) => Some(value as i32),
            None => None,
        }
    }

    ghost holds = { signed_integer w32 };
}

impl Integer for i64 {
    ghost use Rattle.std.specs.Prelude.{◌^◌, true};
    ghost use Rattle.std.specs.Int.{w64};
    ghost use Rattle.sw_elem.specs.Numbers.{is_within};
    ghost use Rattle.sw_elem.specs.Laws.Numbers.{signed_integer};

    const SIGNED: bool = true;

    ghost SIGNED = { true };

    ghost fits = { is_within (2 ^ 63) };

    fn to_whole(self) -> Whole {
        Whole::from_i128(i128::from(self))
    }

    fn from_whole(whole: Whole) -> Option<i64> {
        match signed_within(whole, i64::MAX as u128) {
            Some(value) => Some(value as i64),
            None => None,
        }
    }

    ghost holds = { signed_integer w64 };
}

impl Integer for i128 {
    ghost use Rattle.std.specs.Prelude.{◌^◌, true};
    ghost use Rattle.std.specs.Int.{w128};
    ghost use Rattle.sw_elem.specs.Numbers.{is_within};
    ghost use Rattle.sw_elem.specs.Laws.Numbers.{signed_integer};

    const SIGNED: bool = true;

    ghost SIGNED = { true };

    ghost fits = { is_within (2 ^ 127) };

    fn to_whole(self) -> Whole {
        Whole::from_i128(self)
    }

    fn from_whole(whole: Whole) -> Option<i128> {
        signed_within(whole, i128::MAX as u128)
    }

    ghost holds = { signed_integer w128 };
}

impl Integer for isize {
    ghost use Rattle.std.specs.Prelude.{◌^◌, true};
    ghost use Rattle.std.specs.Int.{w64};
    ghost use Rattle.sw_elem.specs.Numbers.{is_within};
    ghost use Rattle.sw_elem.specs.Laws.Numbers.{signed_integer};

    const SIGNED: bool = true;

    ghost SIGNED = { true };

    ghost fits = { is_within (2 ^ 63) };

    fn to_whole(self) -> Whole {
        Whole::from_i128(self as i128)
    }

    fn from_whole(whole: Whole) -> Option<isize> {
        match signed_within(whole, isize::MAX as u128) {
            Some(value) => Some(value as isize),
            None => None,
        }
    }

    ghost holds = { signed_integer w64 };
}
