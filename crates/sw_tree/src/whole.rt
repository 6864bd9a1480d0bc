use crate::meant::{Meant, Named};
use crate::ranked::{Keyed, Ranked};
use itoa::Buffer;
use std::cmp::Ordering;
use std::marker::Model;

/// A whole number from -2^127 to 2^128 - 1.
///
/// A negative one is kept 2^127 higher, below the others, and its bits in two halves: so
/// the fields in order compare as the numbers do.
#[derive(Clone, Copy, Hash)]
pub struct Whole {
    upper: bool,
    high: u64,
    low: u64,
}

impl Model for Whole {
    ghost use Rattle.std.specs.Prelude.{ℤ};
    ghost use Rattle.std.specs.Coded.{coded_ℤ};

    ghost Value = { ℤ };

    ghost coded = { coded_ℤ };

    ghost use Rattle.sw_tree.specs.Laws.Whole.{number, fields-number};
    ghost use Rattle.sw_tree.specs.Whole.{fields};
    ghost use Rattle.sw_tree.specs.Inner.Whole.{IsWhole};

    ghost view = { number };

    ghost invariant = { IsWhole };

    ghost inverse = { fields };

    ghost inverse_ok = { fields-number };
}

impl Whole {
    ghost use Rattle.std.specs.Prelude.{◌≡◌, pos, None};
    ghost use Rattle.std.specs.Fmt.{signed_decimal};
    ghost use Rattle.sw_tree.specs.Number.{IsInRange};
    ghost use Rattle.sw_tree.specs.Inner.Whole.{number_of, IsWithin};
    ghost use Rattle.sw_tree.specs.Whole.{natural_of, signed_of};

    /// The number of these bits, which are 2^127 more where it is negative.
    fn from_bits(upper: bool, bits: u128) -> Whole
        requires { IsWithin upper bits }
        ensures { result ≡ number_of upper bits }
    {
        Whole {
            upper,
            high: (bits / (1 << 64)) as u64,
            low: (bits % (1 << 64)) as u64,
        }
    }

    /// That number.
    pub fn from_u128(value: u128) -> Whole
        ensures { result ≡ pos value }
    {
        Whole::from_bits(true, value)
    }

    /// That number.
    pub fn from_i128(value: i128) -> Whole
        ensures { result ≡ value }
    {
        if value >= 0 {
            Whole::from_bits(true, value as u128)
        } else {
            Whole::from_bits(false, (value + i128::MAX + 1) as u128)
        }
    }

    /// The number as a `u128`: `None` exactly where it is negative.
    pub fn to_u128(self) -> Option<u128>
        ensures { result ≡ natural_of self }
    {
        if self.upper {
            Some(u128::from(self.high) * (1 << 64) + u128::from(self.low))
        } else {
            None
        }
    }

    /// The number as an `i128`: `None` exactly where it is 2^127 or more.
    pub fn to_i128(self) -> Option<i128>
        ensures { result ≡ signed_of 127 self }
    {
        if self.upper {
            if self.high < 1 << 63 {
                return Some(i128::from(self.high) * (1 << 64) + i128::from(self.low));
            }
            return None;
        }
        Some(i128::from(self.high) * (1 << 64) + i128::from(self.low) - i128::MAX - 1)
    }

    /// The number in decimal digits, behind `-` where it is negative. The text stands in the buffer.
    pub fn format(self, buffer: &mut Buffer) -> &str
        ensures { result.now ≡ signed_decimal self }
    {
        if let Some(short) = self.to_i64() {
            return buffer.format(short);
        }
        match self.to_u128() {
            Some(natural) => buffer.format(natural),
            None => buffer.format(self.negative()),
        }
    }

    /// The negative number as an `i128`.
    fn negative(self) -> i128
        requires { natural_of self ≡ None }
        ensures { result ≡ self }
    {
        i128::from(self.high) * (1 << 64) + i128::from(self.low) - i128::MAX - 1
    }

    /// The number as an `i64`: `None` exactly where it has more bits.
    pub fn to_i64(self) -> Option<i64>
        ensures value { result ≡ signed_of 63 self }
        ensures range { IsInRange self }
    {
        if self.upper {
            if self.high == 0 && self.low < 1 << 63 {
                return Some(self.low as i64);
            }
            return None;
        }
        if self.high == (1 << 63) - 1 && self.low >= 1 << 63 {
            return Some((self.low - (1 << 63)) as i64 - i64::MAX - 1);
        }
        None
    }

    /// That number.
    pub fn from_i64(value: i64) -> Whole
        ensures { result ≡ value }
    {
        if value >= 0 {
            Whole {
                upper: true,
                high: 0,
                low: value as u64,
            }
        } else {
            Whole {
                upper: false,
                high: (1 << 63) - 1,
                low: (value + i64::MAX + 1) as u64 + (1 << 63),
            }
        }
    }
}

impl PartialEq for Whole {
    ghost use Rattle.std.specs.Ordering.{int_eq};
    ghost use Rattle.std.specs.Cmp.{partial_equiv_from_equiv, int_eq_equiv};

    ghost eq = { int_eq };

    ghost laws = { partial_equiv_from_equiv int_eq_equiv };

    fn eq(&self, other: &Self) -> bool {
        self.upper == other.upper && self.high == other.high && self.low == other.low
    }
}

impl Eq for Whole {
    ghost use Rattle.std.specs.Cmp.{int_eq_equiv};

    ghost laws = { int_eq_equiv };
}

impl PartialOrd for Whole {
    ghost use Rattle.std.specs.Prelude.{Some};
    ghost use Rattle.std.specs.Ordering.{int_cmp};
    ghost use Rattle.std.specs.Cmp.{signed_po};

    ghost partial_cmp = { λ x y. Some (int_cmp x y) };

    ghost laws = { signed_po };

    fn partial_cmp(&self, other: &Self) -> Option<Ordering> {
        Some(self.cmp(other))
    }
}

/// The order of the numbers, at every two.
impl Ord for Whole {
    ghost use Rattle.std.specs.Prelude.{refl};
    ghost use Rattle.std.specs.Ordering.{int_cmp};
    ghost use Rattle.std.specs.Cmp.{int_cmp_total};

    ghost cmp = { int_cmp };

    ghost total = { int_cmp_total };

    ghost matches_partial_cmp = { λ x y. refl };

    ghost matches_eq = { λ x y. refl };

    fn cmp(&self, other: &Self) -> Ordering {
        let upper = self.upper.cmp(&other.upper);
        let high = self.high.cmp(&other.high);
        let low = self.low.cmp(&other.low);
        upper.then(high).then(low)
    }
}

impl Named for Whole {
    ghost use Rattle.sw_tree.specs.Meaning.{number};
    ghost use Rattle.sw_tree.specs.Meant.{IsWholeNumber};

    ghost meaning = { number };

    ghost is_meaning = { IsWholeNumber };
}

impl Meant for Whole {
    fn in_hand(&self) {
        let _short = self.to_i64();
    }
}

impl Ranked for Whole {
    ghost use Rattle.std.specs.Prelude.{refl};
    ghost use Rattle.sw_tree.specs.Meant.{IsWholeNumber};
    ghost use Rattle.sw_tree.specs.LeafRanks.{number_order};
    ghost use Rattle.sw_tree.specs.Laws.LeafRanks.{number_ranks};

    ghost order = { number_order };

    ghost order_is = { λ x y. refl };

    ghost ranks = { number_ranks IsWholeNumber };
}

impl Keyed for Whole {
    ghost use Rattle.sw_tree.specs.Meant.{IsWholeNumber};
    ghost use Rattle.sw_tree.specs.Laws.LeafRanks.{whole_apart};
    ghost use Rattle.sw_tree.specs.Laws.LeafSame.{numbers_same, numbers_alike};

    ghost apart = { whole_apart };

    ghost same = { numbers_same IsWholeNumber };

    ghost alike = { numbers_alike IsWholeNumber _ };
}
