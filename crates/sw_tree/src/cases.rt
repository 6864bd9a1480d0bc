//! The meanings of results and of the ends of ranges: numbered cases.

use crate::meant::{Meant, Named};
use std::ops::Bound;

/// A result is a case: 0 of what it holds where it is right, 1 of its error.
impl<T: Named, E: Named> Named for Result<T, E> {
    ghost use Rattle.sw_tree.specs.Meant.{result_meaning, IsResultOf};

    ghost meaning = { result_meaning T.meaning E.meaning };

    ghost is_meaning = { IsResultOf T.is_meaning E.is_meaning };
}

impl<T: Meant, E: Meant> Meant for Result<T, E> {
    fn in_hand(&self) {
        match self {
            Ok(value) => value.in_hand(),
            Err(error) => error.in_hand(),
        }
    }
}

/// An end is a case: 0 of a value that is within, 1 of one that isn't, 2 without an end.
impl<T: Named> Named for Bound<T> {
    ghost use Rattle.sw_tree.specs.Meant.{bound_meaning, IsBoundOf};

    ghost meaning = { bound_meaning T.meaning };

    ghost is_meaning = { IsBoundOf T.is_meaning };
}

impl<T: Meant> Meant for Bound<T> {
    fn in_hand(&self) {
        match self {
            Bound::Included(value) => value.in_hand(),
            Bound::Excluded(value) => value.in_hand(),
            Bound::Unbounded => {}
        }
    }
}
