//! Nests of maps by a key that is a choice, or a list or map, which is no key of JSON.

use crate::answer::Answer;
use crate::told::{json, told, told_apart};
use std::alloc::Global;
use std::collections::BTreeMap;
use sw_core::display::DisplayFromStr;
use sw_core::formats::PreferMany;
use sw_core::same::Same;
use sw_pairs::Map;
use sw_policy::{OneOrMany, PickFirst};

type Flags = Vec<(u32, bool)>;

type Listed = Vec<(Vec<u32>, u32)>;

type ByChoice = Map<PickFirst<(Same, Same)>, Same>;

type ByList = Map<Vec<Same>, Same>;

type ByOneOrMany = Map<OneOrMany<DisplayFromStr, PreferMany>, Same>;

pub(crate) fn asked(alloc: Global, nest: &str, text: Option<&str>) -> Option<Answer> {
    match asked_choice(alloc, nest, text) {
        Some(answer) => Some(answer),
        None => asked_list(alloc, nest, text),
    }
}

fn asked_choice(alloc: Global, nest: &str, text: Option<&str>) -> Option<Answer> {
    let answer = match nest {
        "Map<PickFirst<(Same,)>, Same> of Vec<(u32, bool)>" => {
            told::<Map<PickFirst<(Same,)>, Same>, Flags>(alloc, text)
        }
        "Map<PickFirst<(Same, Same)>, Same> of Vec<(u32, bool)>" => {
            told::<ByChoice, Flags>(alloc, text)
        }
        "Map<Same, Same>, written by Map<PickFirst<(Same, Same)>, Same>, of Vec<(u32, bool)>" => {
            told_apart::<Map<Same, Same>, ByChoice, Flags>(alloc, json(), text)
        }
        "Map<PickFirst<(DisplayFromStr, DisplayFromStr)>, Same> of Vec<(u32, bool)>" => {
            told::<Map<PickFirst<(DisplayFromStr, DisplayFromStr)>, Same>, Flags>(alloc, text)
        }
        _ => return None,
    };
    Some(answer)
}

fn asked_list(alloc: Global, nest: &str, text: Option<&str>) -> Option<Answer> {
    let answer = match nest {
        "Map<Vec<Same>, Same> of Vec<(Vec<u32>, u32)>" => told::<ByList, Listed>(alloc, text),
        "Map<OneOrMany<DisplayFromStr, PreferMany>, Same> of Vec<(Vec<u32>, u32)>" => {
            told::<ByOneOrMany, Listed>(alloc, text)
        }
        "Map<OneOrMany<DisplayFromStr, PreferMany>, Same>, written by Map<Vec<Same>, Same>, of Vec<(Vec<u32>, u32)>" =>
            { told_apart::<ByOneOrMany, ByList, Listed>(alloc, json(), text) }
        "Map<Box<Vec<DisplayFromStr>>, Same> of Vec<(Box<Vec<u32>>, bool)>" => {
            told::<Map<Box<Vec<DisplayFromStr>>, Same>, Vec<(Box<Vec<u32>>, bool)>>(alloc, text)
        }
        "Map<BTreeMap<Same, Same>, Same> of Vec<(BTreeMap<u32, bool>, bool)>" => {
            told::<Map<BTreeMap<Same, Same>, Same>, Vec<(BTreeMap<u32, bool>, bool)>>(alloc, text)
        }
        _ => return None,
    };
    Some(answer)
}
