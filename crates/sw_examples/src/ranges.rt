//! Nests of ranges.

use crate::answer::Answer;
use crate::told::told;
use std::alloc::Global;
use std::ops::{Range, RangeFrom, RangeInclusive, RangeTo};
use sw_core::display::DisplayFromStr;
use sw_core::same::Same;

pub(crate) fn asked(alloc: Global, nest: &str, text: Option<&str>) -> Option<Answer> {
    let answer = match nest {
        "Range<DisplayFromStr> of Range<u32>" => {
            told::<Range<DisplayFromStr>, Range<u32>>(alloc, text)
        }
        "RangeInclusive<DisplayFromStr> of RangeInclusive<u32>" => {
            told::<RangeInclusive<DisplayFromStr>, RangeInclusive<u32>>(alloc, text)
        }
        "RangeFrom<Same> of RangeFrom<u8>" => told::<RangeFrom<Same>, RangeFrom<u8>>(alloc, text),
        "RangeTo<Same> of RangeTo<u8>" => told::<RangeTo<Same>, RangeTo<u8>>(alloc, text),
        _ => return None,
    };
    Some(answer)
}
