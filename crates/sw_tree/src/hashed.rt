//! The meanings of hashed maps and sets, which don't tell in which order they give their entries.

use crate::meant::{Meant, Named};
use crate::ranked::Ranked;
use std::collections::{HashMap, HashSet};
use std::hash::Hash;

/// A map means the list of its entries as pairs, put in the order of their keys.
impl<K: Ranked + Hash, V: Named> Named for HashMap<K, V> {
    ghost use Rattle.std.specs.Prelude.{[]};
    ghost use Rattle.sw_tree.specs.Meant.{list_meaning, pair_meaning};
    ghost use Rattle.sw_tree.specs.Sorted.{IsMapOf, sort_onto};

    ghost meaning = { λ m. list_meaning (pair_meaning K.meaning V.meaning) (sort_onto K.cmp [] m.entries) };

    ghost is_meaning = { IsMapOf K.is_meaning K.order V.is_meaning };
}

impl<K: Ranked + Hash, V: Meant> Meant for HashMap<K, V> {
    fn in_hand(&self) {
        for (key, value) in self.iter() {
            key.in_hand();
            value.in_hand();
        }
    }
}

/// A set means the list of its items, put in their order.
impl<K: Ranked + Hash> Named for HashSet<K> {
    ghost use Rattle.std.specs.Prelude.{[]};
    ghost use Rattle.sw_tree.specs.Meant.{list_meaning};
    ghost use Rattle.sw_tree.specs.Sorted.{IsSetOf, sort_keys_onto};

    ghost meaning = { λ s. list_meaning K.meaning (sort_keys_onto K.cmp [] s.keys) };

    ghost is_meaning = { IsSetOf K.is_meaning K.order };
}

impl<K: Ranked + Hash> Meant for HashSet<K> {
    fn in_hand(&self) {
        for item in self.iter() {
            item.in_hand();
        }
    }
}
