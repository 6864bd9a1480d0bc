//! The meanings of unsigned numbers: the numbers themselves.

use crate::meant::{Meant, Named};
use crate::ranked::{Keyed, Ranked};

impl Named for u8 {
    ghost use Rattle.std.specs.Prelude.{◌^◌};
    ghost use Rattle.sw_tree.specs.Meant.{unsigned_meaning, IsBelow};

    ghost meaning = { unsigned_meaning };

    ghost is_meaning = { IsBelow (2 ^ 8) };
}

impl Meant for u8 {
    fn in_hand(&self) {
        let _value = *self;
    }
}

impl Ranked for u8 {
    ghost use Rattle.std.specs.Prelude.{◌^◌};
    ghost use Rattle.sw_tree.specs.Meant.{IsBelow};
    ghost use Rattle.sw_tree.specs.LeafRanks.{number_order};
    ghost use Rattle.sw_tree.specs.Laws.LeafRanks.{number_ranks, unsigned_order};

    ghost order = { number_order };

    ghost order_is = { unsigned_order };

    ghost ranks = { number_ranks (IsBelow (2 ^ 8)) };
}

impl Keyed for u8 {
    ghost use Rattle.std.specs.Prelude.{◌^◌};
    ghost use Rattle.std.specs.Hash as fed;
    ghost use Rattle.sw_tree.specs.Meant.{IsBelow};
    ghost use Rattle.sw_tree.specs.Laws.LeafRanks.{below_apart};
    ghost use Rattle.sw_tree.specs.Laws.LeafSame.{unsigned_same, unsigned_alike};

    ghost apart = { below_apart (2 ^ 8) };

    ghost same = { unsigned_same (IsBelow (2 ^ 8)) };

    ghost alike = { unsigned_alike (IsBelow (2 ^ 8)) fed.u8 };
}

impl Named for u16 {
    ghost use Rattle.std.specs.Prelude.{◌^◌};
    ghost use Rattle.sw_tree.specs.Meant.{unsigned_meaning, IsBelow};

    ghost meaning = { unsigned_meaning };

    ghost is_meaning = { IsBelow (2 ^ 16) };
}

impl Meant for u16 {
    fn in_hand(&self) {
        let _value = *self;
    }
}

impl Ranked for u16 {
    ghost use Rattle.std.specs.Prelude.{◌^◌};
    ghost use Rattle.sw_tree.specs.Meant.{IsBelow};
    ghost use Rattle.sw_tree.specs.LeafRanks.{number_order};
    ghost use Rattle.sw_tree.specs.Laws.LeafRanks.{number_ranks, unsigned_order};

    ghost order = { number_order };

    ghost order_is = { unsigned_order };

    ghost ranks = { number_ranks (IsBelow (2 ^ 16)) };
}

impl Keyed for u16 {
    ghost use Rattle.std.specs.Prelude.{◌^◌};
    ghost use Rattle.std.specs.Hash as fed;
    ghost use Rattle.sw_tree.specs.Meant.{IsBelow};
    ghost use Rattle.sw_tree.specs.Laws.LeafRanks.{below_apart};
    ghost use Rattle.sw_tree.specs.Laws.LeafSame.{unsigned_same, unsigned_alike};

    ghost apart = { below_apart (2 ^ 16) };

    ghost same = { unsigned_same (IsBelow (2 ^ 16)) };

    ghost alike = { unsigned_alike (IsBelow (2 ^ 16)) fed.u16 };
}

impl Named for u32 {
    ghost use Rattle.std.specs.Prelude.{◌^◌};
    ghost use Rattle.sw_tree.specs.Meant.{unsigned_meaning, IsBelow};

    ghost meaning = { unsigned_meaning };

    ghost is_meaning = { IsBelow (2 ^ 32) };
}

impl Meant for u32 {
    fn in_hand(&self) {
        let _value = *self;
    }
}

impl Ranked for u32 {
    ghost use Rattle.std.specs.Prelude.{◌^◌};
    ghost use Rattle.sw_tree.specs.Meant.{IsBelow};
    ghost use Rattle.sw_tree.specs.LeafRanks.{number_order};
    ghost use Rattle.sw_tree.specs.Laws.LeafRanks.{number_ranks, unsigned_order};

    ghost order = { number_order };

    ghost order_is = { unsigned_order };

    ghost ranks = { number_ranks (IsBelow (2 ^ 32)) };
}

impl Keyed for u32 {
    ghost use Rattle.std.specs.Prelude.{◌^◌};
    ghost use Rattle.std.specs.Hash as fed;
    ghost use Rattle.sw_tree.specs.Meant.{IsBelow};
    ghost use Rattle.sw_tree.specs.Laws.LeafRanks.{below_apart};
    ghost use Rattle.sw_tree.specs.Laws.LeafSame.{unsigned_same, unsigned_alike};

    ghost apart = { below_apart (2 ^ 32) };

    ghost same = { unsigned_same (IsBelow (2 ^ 32)) };

    ghost alike = { unsigned_alike (IsBelow (2 ^ 32)) fed.u32 };
}

impl Named for u64 {
    ghost use Rattle.std.specs.Prelude.{◌^◌};
    ghost use Rattle.sw_tree.specs.Meant.{unsigned_meaning, IsBelow};

    ghost meaning = { unsigned_meaning };

    ghost is_meaning = { IsBelow (2 ^ 64) };
}

impl Meant for u64 {
    fn in_hand(&self) {
        let _value = *self;
    }
}

impl Ranked for u64 {
    ghost use Rattle.std.specs.Prelude.{◌^◌};
    ghost use Rattle.sw_tree.specs.Meant.{IsBelow};
    ghost use Rattle.sw_tree.specs.LeafRanks.{number_order};
    ghost use Rattle.sw_tree.specs.Laws.LeafRanks.{number_ranks, unsigned_order};

    ghost order = { number_order };

    ghost order_is = { unsigned_order };

    ghost ranks = { number_ranks (IsBelow (2 ^ 64)) };
}

impl Keyed for u64 {
    ghost use Rattle.std.specs.Prelude.{◌^◌};
    ghost use Rattle.std.specs.Hash as fed;
    ghost use Rattle.sw_tree.specs.Meant.{IsBelow};
    ghost use Rattle.sw_tree.specs.Laws.LeafRanks.{below_apart};
    ghost use Rattle.sw_tree.specs.Laws.LeafSame.{unsigned_same, unsigned_alike};

    ghost apart = { below_apart (2 ^ 64) };

    ghost same = { unsigned_same (IsBelow (2 ^ 64)) };

    ghost alike = { unsigned_alike (IsBelow (2 ^ 64)) fed.u64 };
}

impl Named for u128 {
    ghost use Rattle.std.specs.Prelude.{◌^◌};
    ghost use Rattle.sw_tree.specs.Meant.{unsigned_meaning, IsBelow};

    ghost meaning = { unsigned_meaning };

    ghost is_meaning = { IsBelow (2 ^ 128) };
}

impl Meant for u128 {
    fn in_hand(&self) {
        let _value = *self;
    }
}

impl Ranked for u128 {
    ghost use Rattle.std.specs.Prelude.{◌^◌};
    ghost use Rattle.sw_tree.specs.Meant.{IsBelow};
    ghost use Rattle.sw_tree.specs.LeafRanks.{number_order};
    ghost use Rattle.sw_tree.specs.Laws.LeafRanks.{number_ranks, unsigned_order};

    ghost order = { number_order };

    ghost order_is = { unsigned_order };

    ghost ranks = { number_ranks (IsBelow (2 ^ 128)) };
}

impl Keyed for u128 {
    ghost use Rattle.std.specs.Prelude.{◌^◌};
    ghost use Rattle.std.specs.Hash as fed;
    ghost use Rattle.sw_tree.specs.Meant.{IsBelow};
    ghost use Rattle.sw_tree.specs.Laws.LeafRanks.{below_apart};
    ghost use Rattle.sw_tree.specs.Laws.LeafSame.{unsigned_same, unsigned_alike};

    ghost apart = { below_apart (2 ^ 128) };

    ghost same = { unsigned_same (IsBelow (2 ^ 128)) };

    ghost alike = { unsigned_alike (IsBelow (2 ^ 128)) fed.u128 };
}

impl Named for usize {
    ghost use Rattle.std.specs.Prelude.{◌^◌};
    ghost use Rattle.sw_tree.specs.Meant.{unsigned_meaning, IsBelow};

    ghost meaning = { unsigned_meaning };

    ghost is_meaning = { IsBelow (2 ^ 64) };
}

impl Meant for usize {
    fn in_hand(&self) {
        let _value = *self;
    }
}

impl Ranked for usize {
    ghost use Rattle.std.specs.Prelude.{◌^◌};
    ghost use Rattle.sw_tree.specs.Meant.{IsBelow};
    ghost use Rattle.sw_tree.specs.LeafRanks.{number_order};
    ghost use Rattle.sw_tree.specs.Laws.LeafRanks.{number_ranks, unsigned_order};

    ghost order = { number_order };

    ghost order_is = { unsigned_order };

    ghost ranks = { number_ranks (IsBelow (2 ^ 64)) };
}

impl Keyed for usize {
    ghost use Rattle.std.specs.Prelude.{◌^◌};
    ghost use Rattle.std.specs.Hash as fed;
    ghost use Rattle.sw_tree.specs.Meant.{IsBelow};
    ghost use Rattle.sw_tree.specs.Laws.LeafRanks.{below_apart};
    ghost use Rattle.sw_tree.specs.Laws.LeafSame.{unsigned_same, unsigned_alike};

    ghost apart = { below_apart (2 ^ 64) };

    ghost same = { unsigned_same (IsBelow (2 ^ 64)) };

    ghost alike = { unsigned_alike (IsBelow (2 ^ 64)) fed.usize };
}
