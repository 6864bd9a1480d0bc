//! Nests of one or many items of further collections.

use crate::answer::Answer;
use crate::told::told;
use std::alloc::Global;
use std::boxed::BoxedSlice;
use std::collections::{BTreeSet, HashSet, LinkedList, VecDeque};
use sw_core::display::DisplayFromStr;
use sw_core::formats::{PreferMany, PreferOne};
use sw_core::same::Same;
use sw_policy::OneOrMany;

pub(crate) fn asked(alloc: Global, nest: &str, text: Option<&str>) -> Option<Answer> {
    let answer = match nest {
        "OneOrMany<DisplayFromStr, PreferOne> of VecDeque<u32>" => {
            told::<OneOrMany<DisplayFromStr, PreferOne>, VecDeque<u32>>(alloc, text)
        }
        "OneOrMany<DisplayFromStr, PreferMany> of LinkedList<u32>" => {
            told::<OneOrMany<DisplayFromStr, PreferMany>, LinkedList<u32>>(alloc, text)
        }
        "OneOrMany<Same, PreferOne> of Box<[u32]>" => {
            told::<OneOrMany<Same, PreferOne>, BoxedSlice<u32>>(alloc, text)
        }
        "OneOrMany<DisplayFromStr, PreferOne> of BTreeSet<u32>" => {
            told::<OneOrMany<DisplayFromStr, PreferOne>, BTreeSet<u32>>(alloc, text)
        }
        "OneOrMany<Same, PreferMany> of HashSet<u32>" => {
            told::<OneOrMany<Same, PreferMany>, HashSet<u32>>(alloc, text)
        }
        "OneOrMany<Vec<Same>, PreferMany> of BTreeSet<Vec<u8>>" => {
            told::<OneOrMany<Vec<Same>, PreferMany>, BTreeSet<Vec<u8>>>(alloc, text)
        }
        _ => return None,
    };
    Some(answer)
}
