//! The meanings of boxes, options, lists, arrays and pairs, by those of their parts.

ghost use Rattle.std.specs.Prelude.{map};
ghost use Rattle.sw_tree.specs.Steps.{Each};

use crate::meant::{Meant, Named};
use crate::ranked::{Keyed, Ranked};

/// A box means what it holds.
impl<T: Named> Named for Box<T> {
    ghost meaning = { λ b. T.meaning b.value };

    ghost is_meaning = { T.is_meaning };
}

impl<T: Meant> Meant for Box<T> {
    fn in_hand(&self) {
        (**self).in_hand();
    }
}

impl<T: Ranked> Ranked for Box<T> {
    ghost order = { T.order };

    ghost order_is = { λ x y. T.order_is x.value y.value };

    ghost ranks = { T.ranks };
}

impl<T: Keyed> Keyed for Box<T> {
    ghost apart = { T.apart };

    ghost same = { λ x y. T.same x.value y.value };

    ghost alike = { λ x y. T.alike x.value y.value };
}

/// An option is a case: 0 without a value, 1 with its value.
impl<T: Named> Named for Option<T> {
    ghost use Rattle.sw_tree.specs.Meant.{option_meaning, IsOptionOf};

    ghost meaning = { option_meaning T.meaning };

    ghost is_meaning = { IsOptionOf T.is_meaning };
}

impl<T: Meant> Meant for Option<T> {
    fn in_hand(&self) {
        if let Some(value) = self {
            value.in_hand();
        }
    }
}

impl<T: Ranked> Ranked for Option<T> {
    ghost use Rattle.sw_tree.specs.OptionRanks.{option_order};
    ghost use Rattle.sw_tree.specs.Laws.OptionRanks.{option_order-is, option_ranks};

    ghost order = { option_order T.order };

    ghost order_is = { option_order-is T.cmp T.meaning T.order T.order_is };

    ghost ranks = { option_ranks T.is_meaning T.order T.ranks };
}

impl<T: Keyed> Keyed for Option<T> {
    ghost use Rattle.sw_tree.specs.Laws.OptionRanks.{options_apart};
    ghost use Rattle.sw_tree.specs.Laws.OptionSame.{options_same, options_alike};

    ghost apart = { options_apart T.is_meaning T.order T.apart };

    ghost same = { options_same T.is_meaning T.meaning T.eq T.same };

    ghost alike = { options_alike T.is_meaning T.meaning T.hash_input T.alike };
}

impl<T: Named> Named for Vec<T> {
    ghost use Rattle.sw_tree.specs.Meant.{list_meaning, IsListOf};

    ghost meaning = { λ v. list_meaning T.meaning v.items };

    ghost is_meaning = { IsListOf T.is_meaning };
}

impl<T: Meant> Meant for Vec<T> {
    fn in_hand(&self) {
        each_in_hand(self.as_slice());
    }
}

impl<T: Ranked> Ranked for Vec<T> {
    ghost use Rattle.sw_tree.specs.ListRanks.{list_order};
    ghost use Rattle.sw_tree.specs.Laws.ListRanks.{list_ranks, slice_order};

    ghost order = { list_order T.order };

    ghost order_is = { λ x y. slice_order T.cmp T.meaning T.order T.order_is x.items y.items };

    ghost ranks = { list_ranks T.is_meaning T.order T.ranks };
}

impl<T: Keyed> Keyed for Vec<T> {
    ghost use Rattle.sw_tree.specs.Laws.ListRanks.{lists_apart};
    ghost use Rattle.sw_tree.specs.Laws.ListSame.{lists_same, lists_alike};

    ghost apart = { lists_apart T.is_meaning T.order T.apart };

    ghost same = { λ x y. lists_same T.is_meaning T.meaning T.eq T.same x.items y.items };

    ghost alike = { λ x y. lists_alike T.is_meaning T.meaning T.hash_input T.alike x.items y.items };
}

impl<T: Named, const N: usize> Named for [T; N] {
    ghost use Rattle.sw_tree.specs.Meant.{list_meaning, IsArrayOf};

    ghost meaning = { list_meaning T.meaning };

    ghost is_meaning = { IsArrayOf T.is_meaning N };
}

impl<T: Meant, const N: usize> Meant for [T; N] {
    fn in_hand(&self) {
        each_in_hand(self.as_slice());
    }
}

impl<T: Ranked, const N: usize> Ranked for [T; N] {
    ghost use Rattle.sw_tree.specs.ListRanks.{list_order};
    ghost use Rattle.sw_tree.specs.Laws.ListRanks.{array_ranks, slice_order};

    ghost order = { list_order T.order };

    ghost order_is = { slice_order T.cmp T.meaning T.order T.order_is };

    ghost ranks = { array_ranks T.is_meaning T.order T.ranks N };
}

impl<T: Keyed, const N: usize> Keyed for [T; N] {
    ghost use Rattle.sw_tree.specs.Laws.ListRanks.{arrays_apart};
    ghost use Rattle.sw_tree.specs.Laws.ListSame.{arrays_same, arrays_alike};

    ghost apart = { arrays_apart T.is_meaning T.order T.apart N };

    ghost same = { arrays_same T.is_meaning T.meaning T.eq T.same N };

    ghost alike = { arrays_alike T.is_meaning T.meaning T.hash_input T.alike N };
}

impl<A: Named, B: Named> Named for (A, B) {
    ghost use Rattle.sw_tree.specs.Meant.{pair_meaning, IsPairOf};

    ghost meaning = { pair_meaning A.meaning B.meaning };

    ghost is_meaning = { IsPairOf A.is_meaning B.is_meaning };
}

impl<A: Meant, B: Meant> Meant for (A, B) {
    fn in_hand(&self) {
        self.0.in_hand();
        self.1.in_hand();
    }
}

impl<A: Ranked, B: Ranked> Ranked for (A, B) {
    ghost use Rattle.std.specs.Ordering.{ordering_then};
    ghost use Rattle.sw_tree.specs.PairRanks.{pair_order};
    ghost use Rattle.sw_tree.specs.Laws.PairRanks.{pair_ranks};

    ghost order = { pair_order A.order B.order };

    ghost order_is = { λ x y i. ordering_then (A.order_is x.0 y.0 i) (B.order_is x.1 y.1 i) };

    ghost ranks = { pair_ranks A.is_meaning B.is_meaning A.order B.order A.ranks B.ranks };
}

impl<A: Keyed, B: Keyed> Keyed for (A, B) {
    ghost use Rattle.sw_tree.specs.Laws.PairRanks.{pairs_apart};
    ghost use Rattle.sw_tree.specs.Laws.PairSame.{pairs_same, pairs_alike};

    ghost apart = { pairs_apart A.is_meaning B.is_meaning A.order B.order A.apart B.apart };

    ghost same = { pairs_same A.is_meaning B.is_meaning A.meaning B.meaning A.eq B.eq A.same B.same };

    ghost alike = { pairs_alike A.is_meaning B.is_meaning A.meaning B.meaning A.hash_input B.hash_input A.alike B.alike };
}

/// Each of these is in hand.
pub(crate) fn each_in_hand<T: Meant>(items: &[T])
    ensures { Each T.is_meaning (map T.meaning items.now) }
{
    for item in items {
        item.in_hand();
    }
}
