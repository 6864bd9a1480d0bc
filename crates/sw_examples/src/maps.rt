//! Nests of maps by a key that is a leaf.

use crate::answer::Answer;
use crate::told::{json, told, told_apart};
use std::alloc::Global;
use std::collections::BTreeMap;
use sw_core::display::DisplayFromStr;
use sw_core::same::Same;
use sw_pairs::Map;

type Flags = Map<Same, Same>;

pub(crate) fn asked(alloc: Global, nest: &str, text: Option<&str>) -> Option<Answer> {
    let answer = match nest {
        "BTreeMap<Same, DisplayFromStr> of BTreeMap<String, u32>" => {
            told::<BTreeMap<Same, DisplayFromStr>, BTreeMap<String, u32>>(alloc, text)
        }
        "BTreeMap<Same, Same> of BTreeMap<u32, bool>" => {
            told::<BTreeMap<Same, Same>, BTreeMap<u32, bool>>(alloc, text)
        }
        "Map<Same, Same> of Vec<(u32, bool)>" => told::<Flags, Vec<(u32, bool)>>(alloc, text),
        "Map<Same, Same> of Vec<(u32, bool)>, set aside" => {
            told_apart::<Flags, Flags, Vec<(u32, bool)>>(alloc, json().buffer(), text)
        }
        "Map<Same, Vec<Same>> of Vec<(i64, Vec<u8>)>" => {
            told::<Map<Same, Vec<Same>>, Vec<(i64, Vec<u8>)>>(alloc, text)
        }
        _ => return None,
    };
    Some(answer)
}
