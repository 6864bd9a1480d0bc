//! The meanings of double-ended queues, linked lists and boxed slices: the lists of those of their items.

use crate::containers::each_in_hand;
use crate::meant::{Meant, Named};
use std::boxed::BoxedSlice;
use std::collections::{LinkedList, VecDeque};

impl<T: Named> Named for VecDeque<T> {
    ghost use Rattle.sw_tree.specs.Meant.{list_meaning, IsListOf};

    ghost meaning = { λ q. list_meaning T.meaning q.items };

    ghost is_meaning = { IsListOf T.is_meaning };
}

impl<T: Meant> Meant for VecDeque<T> {
    fn in_hand(&self) {
        let (front, back) = self.as_slices();
        each_in_hand(front);
        each_in_hand(back);
    }
}

impl<T: Named> Named for LinkedList<T> {
    ghost use Rattle.sw_tree.specs.Meant.{list_meaning, IsListOf};

    ghost meaning = { list_meaning T.meaning };

    ghost is_meaning = { IsListOf T.is_meaning };
}

impl<T: Meant> Meant for LinkedList<T> {
    fn in_hand(&self) {
        for item in self {
            item.in_hand();
        }
    }
}

impl<T: Named> Named for BoxedSlice<T> {
    ghost use Rattle.std.specs.Box.{boxed_slice_items};
    ghost use Rattle.sw_tree.specs.Meant.{list_meaning, IsListOf};

    ghost meaning = { λ b. list_meaning T.meaning (boxed_slice_items b) };

    ghost is_meaning = { IsListOf T.is_meaning };
}

impl<T: Meant> Meant for BoxedSlice<T> {
    fn in_hand(&self) {
        each_in_hand(self.as_slice());
    }
}
