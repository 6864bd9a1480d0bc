//! The unsigned types of std, by the limit below which their numbers are.

use crate::integer::Integer;
use crate::numbers::natural_below;
use sw_tree::whole::Whole;

impl Integer for u8 {
    ghost use Rattle.std.specs.Prelude.{◌^◌, false};
    ghost use Rattle.std.proofs.Common.{lit≤};
    ghost use Rattle.sw_elem.specs.Numbers.{is_below};
    ghost use Rattle.sw_elem.specs.Laws.Numbers.{unsigned_integer};

    const SIGNED: bool = false;

    ghost SIGNED = { false };

    ghost fits = { is_below (2 ^ 8) };

    fn to_whole(self) -> Whole {
        Whole::from_u128(u128::from(self))
    }

    fn from_whole(whole: Whole) -> Option<u8> {
        match natural_below(whole, u8::MAX as u128) {
            Some(value) => Some(value as u8),
            None => None,
        }
    }

    ghost holds = { unsigned_integer (2 ^ 8) (lit≤ tt) };
}

impl Integer for u16 {
    ghost use Rattle.std.specs.Prelude.{◌^◌, false};
    ghost use Rattle.std.proofs.Common.{lit≤};
    ghost use Rattle.sw_elem.specs.Numbers.{is_below};
    ghost use Rattle.sw_elem.specs.Laws.Numbers.{unsigned_integer};

    const SIGNED: bool = false;

    ghost SIGNED = { false };

    ghost fits = { is_below (2 ^ 16) };

    fn to_whole(self) -> Whole {
        Whole::from_u128(u128::from(self))
    }

    fn from_whole(whole: Whole) -> Option<u16> {
        match natural_below(whole, u16::MAX as u128) {
            Some(value) => Some(value as u16),
            None => None,
        }
    }

    ghost holds = { unsigned_integer (2 ^ 16) (lit≤ tt) };
}

impl Integer for u32 {
    ghost use Rattle.std.specs.Prelude.{◌^◌, false};
    ghost use Rattle.std.proofs.Common.{lit≤};
    ghost use Rattle.sw_elem.specs.Numbers.{is_below};
    ghost use Rattle.sw_elem.specs.Laws.Numbers.{unsigned_integer};

    const SIGNED: bool = false;

    ghost SIGNED = { false };

    ghost fits = { is_below (2 ^ 32) };

    fn to_whole(self) -> Whole {
        Whole::from_u128(u128::from(self))
    }

    fn from_whole(whole: Whole) -> Option<u32> {
        match natural_below(whole, u32::MAX as u128) {
            Some(value) => Some(value as u32),
            None => None,
        }
    }

    ghost holds = { unsigned_integer (2 ^ 32) (lit≤ tt) };
}

impl Integer for u64 {
    ghost use Rattle.std.specs.Prelude.{◌^◌, false};
    ghost use Rattle.std.proofs.Common.{lit≤};
    ghost use Rattle.sw_elem.specs.Numbers.{is_below};
    ghost use Rattle.sw_elem.specs.Laws.Numbers.{unsigned_integer};

    const SIGNED: bool = false;

    ghost SIGNED = { false };

    ghost fits = { is_below (2 ^ 64) };

    fn to_whole(self) -> Whole {
        Whole::from_u128(u128::from(self))
    }

    fn from_whole(whole: Whole) -> Option<u64> {
        match natural_below(whole, u64::MAX as u128) {
            Some(value) => Some(value as u64),
            None => None,
        }
    }

    ghost holds = { unsigned_integer (2 ^ 64) (lit≤ tt) };
}

impl Integer for u128 {
    ghost use Rattle.std.specs.Prelude.{◌^◌, false};
    ghost use Rattle.std.proofs.Common.{lit≤};
    ghost use Rattle.sw_elem.specs.Numbers.{is_below};
    ghost use Rattle.sw_elem.specs.Laws.Numbers.{unsigned_integer};

    const SIGNED: bool = false;

    ghost SIGNED = { false };

    ghost fits = { is_below (2 ^ 128) };

    fn to_whole(self) -> Whole {
        Whole::from_u128(self)
    }

    fn from_whole(whole: Whole) -> Option<u128> {
        natural_below(whole, u128::MAX)
    }

    ghost holds = { unsigned_integer (2 ^ 128) (lit≤ tt) };
}

impl Integer for usize {
    ghost use Rattle.std.specs.Prelude.{◌^◌, false};
    ghost use Rattle.std.proofs.Common.{lit≤};
    ghost use Rattle.sw_elem.specs.Numbers.{is_below};
    ghost use Rattle.sw_elem.specs.Laws.Numbers.{unsigned_integer};

    const SIGNED: bool = false;

    ghost SIGNED = { false };

    ghost fits = { is_below (2 ^ 64) };

    fn to_whole(self) -> Whole {
        Whole::from_u128(self as u128)
    }

    fn from_whole(whole: Whole) -> Option<usize> {
        match natural_below(whole, usize::MAX as u128) {
            Some(value) => Some(value as usize),
            None => None,
        }
    }

    ghost holds = { unsigned_integer (2 ^ 64) (lit≤ tt) };
}
