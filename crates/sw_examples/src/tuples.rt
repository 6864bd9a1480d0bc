//! Nests of tuples and arrays.

use crate::answer::Answer;
use crate::told::told;
use std::alloc::Global;
use sw_core::display::DisplayFromStr;
use sw_core::same::Same;

type EightSame = (Same, Same, Same, Same, Same, Same, Same, Same);

type EightBytes = (u8, u8, u8, u8, u8, u8, u8, u8);

pub(crate) fn asked(alloc: Global, nest: &str, text: Option<&str>) -> Option<Answer> {
    let answer = match nest {
        "(Same,) of (u8,)" => told::<(Same,), (u8,)>(alloc, text),
        "(Same, DisplayFromStr) of (u8, u32)" => {
            told::<(Same, DisplayFromStr), (u8, u32)>(alloc, text)
        }
        "(Same, DisplayFromStr, Same) of (u8, u32, bool)" => {
            told::<(Same, DisplayFromStr, Same), (u8, u32, bool)>(alloc, text)
        }
        "eight of Same of eight bytes" => told::<EightSame, EightBytes>(alloc, text),
        "[Same; 3] of [u32; 3]" => told::<[Same; 3], [u32; 3]>(alloc, text),
        "Option<(Same, Same)> of Option<(u32, u32)>" => {
            told::<Option<(Same, Same)>, Option<(u32, u32)>>(alloc, text)
        }
        _ => return None,
    };
    Some(answer)
}
