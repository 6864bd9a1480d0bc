//! Nests of pairs: collections of them as maps, and maps as lists of them.

use crate::answer::Answer;
use crate::told::told;
use std::alloc::Global;
use std::boxed::BoxedSlice;
use std::collections::{BTreeMap, BTreeSet, HashMap, HashSet, LinkedList, VecDeque};
use sw_core::display::DisplayFromStr;
use sw_core::same::Same;
use sw_pairs::{Map, Seq};

type Flags = Map<Same, Same>;

type Shown = Map<Same, DisplayFromStr>;

pub(crate) fn asked(alloc: Global, nest: &str, text: Option<&str>) -> Option<Answer> {
    match asked_as_map(alloc, nest, text) {
        Some(answer) => Some(answer),
        None => asked_as_list(alloc, nest, text),
    }
}

fn asked_as_map(alloc: Global, nest: &str, text: Option<&str>) -> Option<Answer> {
    let answer = match nest {
        "Map<Same, Same> of VecDeque<(u32, bool)>" => {
            told::<Flags, VecDeque<(u32, bool)>>(alloc, text)
        }
        "Map<Same, DisplayFromStr> of LinkedList<(u32, u32)>" => {
            told::<Shown, LinkedList<(u32, u32)>>(alloc, text)
        }
        "Map<Same, Same> of Box<[(u32, bool)]>" => {
            told::<Flags, BoxedSlice<(u32, bool)>>(alloc, text)
        }
        "Map<Same, Same> of [(u32, bool); 2]" => told::<Flags, [(u32, bool); 2]>(alloc, text),
        "Map<Same, Same> of BTreeSet<(u32, bool)>" => {
            told::<Flags, BTreeSet<(u32, bool)>>(alloc, text)
        }
        "Map<Same, DisplayFromStr> of HashSet<(u32, u32)>" => {
            told::<Shown, HashSet<(u32, u32)>>(alloc, text)
        }
        _ => return None,
    };
    Some(answer)
}

fn asked_as_list(alloc: Global, nest: &str, text: Option<&str>) -> Option<Answer> {
    let answer = match nest {
        "Vec<(Same, DisplayFromStr)> of BTreeMap<u32, u32>" => {
            told::<Vec<(Same, DisplayFromStr)>, BTreeMap<u32, u32>>(alloc, text)
        }
        "Vec<(DisplayFromStr, Same)> of HashMap<u32, bool>" => {
            told::<Vec<(DisplayFromStr, Same)>, HashMap<u32, bool>>(alloc, text)
        }
        "Seq<(Vec<Same>, Same)> of BTreeMap<Vec<u8>, bool>" => {
            told::<Seq<(Vec<Same>, Same)>, BTreeMap<Vec<u8>, bool>>(alloc, text)
        }
        "Seq<(Same, Same)> of HashMap<u32, u32>" => {
            told::<Seq<(Same, Same)>, HashMap<u32, u32>>(alloc, text)
        }
        _ => return None,
    };
    Some(answer)
}
