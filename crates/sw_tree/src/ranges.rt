//! The meanings of ranges: rows of their ends.

use crate::meant::{Meant, Named};
use std::ops::{Range, RangeFrom, RangeInclusive, RangeTo};

impl<T: Named> Named for Range<T> {
    ghost use Rattle.std.specs.Prelude.{[], ◌∷◌};
    ghost use Rattle.sw_tree.specs.Meant.{row, IsRowOf};

    ghost meaning = { λ r. row (T.meaning r.start ∷ T.meaning r.end ∷ []) };

    ghost is_meaning = { IsRowOf (T.is_meaning ∷ T.is_meaning ∷ []) };
}

impl<T: Meant> Meant for Range<T> {
    fn in_hand(&self) {
        self.start.in_hand();
        self.end.in_hand();
    }
}

impl<T: Named> Named for RangeFrom<T> {
    ghost use Rattle.std.specs.Prelude.{[], ◌∷◌};
    ghost use Rattle.sw_tree.specs.Meant.{row, IsRowOf};

    ghost meaning = { λ r. row (T.meaning r.start ∷ []) };

    ghost is_meaning = { IsRowOf (T.is_meaning ∷ []) };
}

impl<T: Meant> Meant for RangeFrom<T> {
    fn in_hand(&self) {
        self.start.in_hand();
    }
}

impl<T: Named> Named for RangeTo<T> {
    ghost use Rattle.std.specs.Prelude.{[], ◌∷◌};
    ghost use Rattle.sw_tree.specs.Meant.{row, IsRowOf};

    ghost meaning = { λ r. row (T.meaning r.end ∷ []) };

    ghost is_meaning = { IsRowOf (T.is_meaning ∷ []) };
}

impl<T: Meant> Meant for RangeTo<T> {
    fn in_hand(&self) {
        self.end.in_hand();
    }
}

/// Behind its ends stands whether its walk has come to its last value.
impl<T: Named> Named for RangeInclusive<T> {
    ghost use Rattle.std.specs.Prelude.{[], ◌∷◌};
    ghost use Rattle.std.specs.Range.{range_inclusive_start, range_inclusive_end, range_inclusive_exhausted};
    ghost use Rattle.sw_tree.specs.Meaning.{truth};
    ghost use Rattle.sw_tree.specs.Meant.{row, IsRowOf, IsTruth};

    ghost meaning = { λ r. row (T.meaning (range_inclusive_start r) ∷ T.meaning (range_inclusive_end r) ∷ truth (range_inclusive_exhausted r) ∷ []) };

    ghost is_meaning = { IsRowOf (T.is_meaning ∷ T.is_meaning ∷ IsTruth ∷ []) };
}

impl<T: Meant> Meant for RangeInclusive<T> {
    fn in_hand(&self) {
        self.start().in_hand();
        self.end().in_hand();
    }
}
