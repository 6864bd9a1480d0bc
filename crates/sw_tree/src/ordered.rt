//! The meanings of ordered maps and sets.

use crate::meant::{Meant, Named};
use crate::ranked::Ranked;
use std::collections::{BTreeMap, BTreeSet};

/// A map means the list of its entries as pairs, in the order of their keys.
impl<K: Ranked, V: Named> Named for BTreeMap<K, V> {
    ghost use Rattle.sw_tree.specs.Meant.{list_meaning, pair_meaning};
    ghost use Rattle.sw_tree.specs.Sorted.{IsMapOf};

    ghost meaning = { λ m. list_meaning (pair_meaning K.meaning V.meaning) m.entries };

    ghost is_meaning = { IsMapOf K.is_meaning K.order V.is_meaning };
}

impl<K: Ranked, V: Meant> Meant for BTreeMap<K, V> {
    fn in_hand(&self) {
        for (key, value) in self.iter() {
            key.in_hand();
            value.in_hand();
        }
    }
}

/// A set means the list of its items, in their order.
impl<K: Ranked> Named for BTreeSet<K> {
    ghost use Rattle.sw_tree.specs.Meant.{list_meaning};
    ghost use Rattle.sw_tree.specs.Sorted.{IsSetOf};

    ghost meaning = { λ s. list_meaning K.meaning s.keys };

    ghost is_meaning = { IsSetOf K.is_meaning K.order };
}

impl<K: Ranked> Meant for BTreeSet<K> {
    fn in_hand(&self) {
        for item in self.iter() {
            item.in_hand();
        }
    }
}
