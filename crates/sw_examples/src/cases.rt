//! Nests of results, of the ends of ranges, and of numbers that aren't 0.

use crate::answer::Answer;
use crate::told::told;
use std::alloc::Global;
use std::ops::Bound;
use sw_core::display::DisplayFromStr;
use sw_core::same::Same;
use sw_number::NonZeroU8;

pub(crate) fn asked(alloc: Global, nest: &str, text: Option<&str>) -> Option<Answer> {
    let answer = match nest {
        "Result<Same, DisplayFromStr> of Result<u8, u32>" => {
            told::<Result<Same, DisplayFromStr>, Result<u8, u32>>(alloc, text)
        }
        "Bound<DisplayFromStr> of Bound<u32>" => {
            told::<Bound<DisplayFromStr>, Bound<u32>>(alloc, text)
        }
        "Same of NonZeroU8" => told::<Same, NonZeroU8>(alloc, text),
        _ => return None,
    };
    Some(answer)
}
