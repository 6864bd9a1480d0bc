//! The meanings of signed numbers: the numbers themselves.

use crate::meant::{Meant, Named};
use crate::ranked::{Keyed, Ranked};

impl Named for i8 {
    ghost use Rattle.std.specs.Int.{w8};
    ghost use Rattle.sw_tree.specs.Meaning.{number};
    ghost use Rattle.sw_tree.specs.Meant.{IsSigned};

    ghost meaning = { number };

    ghost is_meaning = { IsSigned w8 };
}

impl Meant for i8 {
    fn in_hand(&self) {
        let _value = *self;
    }
}

impl Ranked for i8 {
    ghost use Rattle.std.specs.Prelude.{refl};
    ghost use Rattle.std.specs.Int.{w8};
    ghost use Rattle.sw_tree.specs.Meant.{IsSigned};
    ghost use Rattle.sw_tree.specs.LeafRanks.{number_order};
    ghost use Rattle.sw_tree.specs.Laws.LeafRanks.{number_ranks};

    ghost order = { number_order };

    ghost order_is = { λ x y. refl };

    ghost ranks = { number_ranks (IsSigned w8) };
}

impl Keyed for i8 {
    ghost use Rattle.std.specs.Int.{w8};
    ghost use Rattle.std.specs.Hash as fed;
    ghost use Rattle.sw_tree.specs.Meant.{IsSigned};
    ghost use Rattle.sw_tree.specs.Laws.LeafRanks.{signed_apart};
    ghost use Rattle.sw_tree.specs.Laws.LeafSame.{numbers_same, numbers_alike};

    ghost apart = { signed_apart w8 };

    ghost same = { numbers_same (IsSigned w8) };

    ghost alike = { numbers_alike (IsSigned w8) fed.i8 };
}

impl Named for i16 {
    ghost use Rattle.std.specs.Int.{w16};
    ghost use Rattle.sw_tree.specs.Meaning.{number};
    ghost use Rattle.sw_tree.specs.Meant.{IsSigned};

    ghost meaning = { number };

    ghost is_meaning = { IsSigned w16 };
}

impl Meant for i16 {
    fn in_hand(&self) {
        let _value = *self;
    }
}

impl Ranked for i16 {
    ghost use Rattle.std.specs.Prelude.{refl};
    ghost use Rattle.std.specs.Int.{w16};
    ghost use Rattle.sw_tree.specs.Meant.{IsSigned};
    ghost use Rattle.sw_tree.specs.LeafRanks.{number_order};
    ghost use Rattle.sw_tree.specs.Laws.LeafRanks.{number_ranks};

    ghost order = { number_order };

    ghost order_is = { λ x y. refl };

    ghost ranks = { number_ranks (IsSigned w16) };
}

impl Keyed for i16 {
    ghost use Rattle.std.specs.Int.{w16};
    ghost use Rattle.std.specs.Hash as fed;
    ghost use Rattle.sw_tree.specs.Meant.{IsSigned};
    ghost use Rattle.sw_tree.specs.Laws.LeafRanks.{signed_apart};
    ghost use Rattle.sw_tree.specs.Laws.LeafSame.{numbers_same, numbers_alike};

    ghost apart = { signed_apart w16 };

    ghost same = { numbers_same (IsSigned w16) };

    ghost alike = { numbers_alike (IsSigned w16) fed.i16 };
}

impl Named for i32 {
    ghost use Rattle.std.specs.Int.{w32};
    ghost use Rattle.sw_tree.specs.Meaning.{number};
    ghost use Rattle.sw_tree.specs.Meant.{IsSigned};

    ghost meaning = { number };

    ghost is_meaning = { IsSigned w32 };
}

impl Meant for i32 {
    fn in_hand(&self) {
        let _value = *self;
    }
}

impl Ranked for i32 {
    ghost use Rattle.std.specs.Prelude.{refl};
    ghost use Rattle.std.specs.Int.{w32};
    ghost use Rattle.sw_tree.specs.Meant.{IsSigned};
    ghost use Rattle.sw_tree.specs.LeafRanks.{number_order};
    ghost use Rattle.sw_tree.specs.Laws.LeafRanks.{number_ranks};

    ghost order = { number_order };

    ghost order_is = { λ x y. refl };

    ghost ranks = { number_ranks (IsSigned w32) };
}

impl Keyed for i32 {
    ghost use Rattle.std.specs.Int.{w32};
    ghost use Rattle.std.specs.Hash as fed;
    ghost use Rattle.sw_tree.specs.Meant.{IsSigned};
    ghost use Rattle.sw_tree.specs.Laws.LeafRanks.{signed_apart};
    ghost use Rattle.sw_tree.specs.Laws.LeafSame.{numbers_same, numbers_alike};

    ghost apart = { signed_apart w32 };

    ghost same = { numbers_same (IsSigned w32) };

    ghost alike = { numbers_alike (IsSigned w32) fed.i32 };
}

impl Named for i64 {
    ghost use Rattle.std.specs.Int.{w64};
    ghost use Rattle.sw_tree.specs.Meaning.{number};
    ghost use Rattle.sw_tree.specs.Meant.{IsSigned};

    ghost meaning = { number };

    ghost is_meaning = { IsSigned w64 };
}

impl Meant for i64 {
    fn in_hand(&self) {
        let _value = *self;
    }
}

impl Ranked for i64 {
    ghost use Rattle.std.specs.Prelude.{refl};
    ghost use Rattle.std.specs.Int.{w64};
    ghost use Rattle.sw_tree.specs.Meant.{IsSigned};
    ghost use Rattle.sw_tree.specs.LeafRanks.{number_order};
    ghost use Rattle.sw_tree.specs.Laws.LeafRanks.{number_ranks};

    ghost order = { number_order };

    ghost order_is = { λ x y. refl };

    ghost ranks = { number_ranks (IsSigned w64) };
}

impl Keyed for i64 {
    ghost use Rattle.std.specs.Int.{w64};
    ghost use Rattle.std.specs.Hash as fed;
    ghost use Rattle.sw_tree.specs.Meant.{IsSigned};
    ghost use Rattle.sw_tree.specs.Laws.LeafRanks.{signed_apart};
    ghost use Rattle.sw_tree.specs.Laws.LeafSame.{numbers_same, numbers_alike};

    ghost apart = { signed_apart w64 };

    ghost same = { numbers_same (IsSigned w64) };

    ghost alike = { numbers_alike (IsSigned w64) fed.i64 };
}

impl Named for i128 {
    ghost use Rattle.std.specs.Int.{w128};
    ghost use Rattle.sw_tree.specs.Meaning.{number};
    ghost use Rattle.sw_tree.specs.Meant.{IsSigned};

    ghost meaning = { number };

    ghost is_meaning = { IsSigned w128 };
}

impl Meant for i128 {
    fn in_hand(&self) {
        let _value = *self;
    }
}

impl Ranked for i128 {
    ghost use Rattle.std.specs.Prelude.{refl};
    ghost use Rattle.std.specs.Int.{w128};
    ghost use Rattle.sw_tree.specs.Meant.{IsSigned};
    ghost use Rattle.sw_tree.specs.LeafRanks.{number_order};
    ghost use Rattle.sw_tree.specs.Laws.LeafRanks.{number_ranks};

    ghost order = { number_order };

    ghost order_is = { λ x y. refl };

    ghost ranks = { number_ranks (IsSigned w128) };
}

impl Keyed for i128 {
    ghost use Rattle.std.specs.Int.{w128};
    ghost use Rattle.std.specs.Hash as fed;
    ghost use Rattle.sw_tree.specs.Meant.{IsSigned};
    ghost use Rattle.sw_tree.specs.Laws.LeafRanks.{signed_apart};
    ghost use Rattle.sw_tree.specs.Laws.LeafSame.{numbers_same, numbers_alike};

    ghost apart = { signed_apart w128 };

    ghost same = { numbers_same (IsSigned w128) };

    ghost alike = { numbers_alike (IsSigned w128) fed.i128 };
}

impl Named for isize {
    ghost use Rattle.std.specs.Int.{w64};
    ghost use Rattle.sw_tree.specs.Meaning.{number};
    ghost use Rattle.sw_tree.specs.Meant.{IsSigned};

    ghost meaning = { number };

    ghost is_meaning = { IsSigned w64 };
}

impl Meant for isize {
    fn in_hand(&self) {
        let _value = *self;
    }
}

impl Ranked for isize {
    ghost use Rattle.std.specs.Prelude.{refl};
    ghost use Rattle.std.specs.Int.{w64};
    ghost use Rattle.sw_tree.specs.Meant.{IsSigned};
    ghost use Rattle.sw_tree.specs.LeafRanks.{number_order};
    ghost use Rattle.sw_tree.specs.Laws.LeafRanks.{number_ranks};

    ghost order = { number_order };

    ghost order_is = { λ x y. refl };

    ghost ranks = { number_ranks (IsSigned w64) };
}

impl Keyed for isize {
    ghost use Rattle.std.specs.Int.{w64};
    ghost use Rattle.std.specs.Hash as fed;
    ghost use Rattle.sw_tree.specs.Meant.{IsSigned};
    ghost use Rattle.sw_tree.specs.Laws.LeafRanks.{signed_apart};
    ghost use Rattle.sw_tree.specs.Laws.LeafSame.{numbers_same, numbers_alike};

    ghost apart = { signed_apart w64 };

    ghost same = { numbers_same (IsSigned w64) };

    ghost alike = { numbers_alike (IsSigned w64) fed.isize };
}
