//! Nests of hashed maps and sets, and of lists and options of pairs under the names of std's maps.

use crate::answer::Answer;
use crate::told::told;
use std::alloc::Global;
use std::collections::{BTreeMap, HashMap, HashSet};
use sw_core::display::DisplayFromStr;
use sw_core::same::Same;

pub(crate) fn asked(alloc: Global, nest: &str, text: Option<&str>) -> Option<Answer> {
    let answer = match nest {
        "HashMap<Same, Same> of HashMap<u32, u32>" => {
            told::<HashMap<Same, Same>, HashMap<u32, u32>>(alloc, text)
        }
        "HashSet<DisplayFromStr> of HashSet<u32>" => {
            told::<HashSet<DisplayFromStr>, HashSet<u32>>(alloc, text)
        }
        "BTreeMap<Same, Same> of Vec<(u32, u32)>" => {
            told::<BTreeMap<Same, Same>, Vec<(u32, u32)>>(alloc, text)
        }
        "HashMap<Same, Same> of Vec<(u32, u32)>" => {
            told::<HashMap<Same, Same>, Vec<(u32, u32)>>(alloc, text)
        }
        "BTreeMap<Same, Same> of Option<(u32, u32)>" => {
            told::<BTreeMap<Same, Same>, Option<(u32, u32)>>(alloc, text)
        }
        "HashMap<Same, Same> of Option<(u32, u32)>" => {
            told::<HashMap<Same, Same>, Option<(u32, u32)>>(alloc, text)
        }
        _ => return None,
    };
    Some(answer)
}
