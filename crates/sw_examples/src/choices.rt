//! Nests of choices.

use crate::answer::Answer;
use crate::told::{json, told, told_apart};
use std::alloc::Global;
use sw_core::display::DisplayFromStr;
use sw_core::formats::{PreferMany, PreferOne};
use sw_core::same::Same;
use sw_policy::{OneOrMany, PickFirst};

type Shown = DisplayFromStr;

type One = OneOrMany<Vec<Same>, PreferOne>;

type Many = Vec<Vec<Same>>;

type Lists = Vec<Vec<u8>>;

pub(crate) fn asked(alloc: Global, nest: &str, text: Option<&str>) -> Option<Answer> {
    match asked_first(alloc, nest, text) {
        Some(answer) => Some(answer),
        None => asked_one_or_many(alloc, nest, text),
    }
}

fn asked_first(alloc: Global, nest: &str, text: Option<&str>) -> Option<Answer> {
    let answer = match nest {
        "PickFirst<(DisplayFromStr,)> of u64" => told::<PickFirst<(Shown,)>, u64>(alloc, text),
        "PickFirst<(DisplayFromStr, Same)> of u64" => {
            told::<PickFirst<(Shown, Same)>, u64>(alloc, text)
        }
        "PickFirst<(Same, DisplayFromStr)> of u64" => {
            told::<PickFirst<(Same, Shown)>, u64>(alloc, text)
        }
        "PickFirst<(DisplayFromStr, Same, Same)> of u64" => {
            told::<PickFirst<(Shown, Same, Same)>, u64>(alloc, text)
        }
        "PickFirst<(Same, Same, DisplayFromStr)> of u64" => {
            told::<PickFirst<(Same, Same, Shown)>, u64>(alloc, text)
        }
        "PickFirst<(DisplayFromStr, Same, Same, Same)> of u64" => {
            told::<PickFirst<(Shown, Same, Same, Same)>, u64>(alloc, text)
        }
        "PickFirst<(Same, Same, Same, DisplayFromStr)> of u64" => {
            told::<PickFirst<(Same, Same, Same, Shown)>, u64>(alloc, text)
        }
        "PickFirst<(Same, DisplayFromStr, Same, DisplayFromStr)> of u64" => {
            told::<PickFirst<(Same, Shown, Same, Shown)>, u64>(alloc, text)
        }
        "Vec<PickFirst<(Same, DisplayFromStr)>> of Vec<u64>" => {
            told::<Vec<PickFirst<(Same, Shown)>>, Vec<u64>>(alloc, text)
        }
        "Vec<PickFirst<(DisplayFromStr, Same)>> of Vec<u64>" => {
            told::<Vec<PickFirst<(Shown, Same)>>, Vec<u64>>(alloc, text)
        }
        _ => return None,
    };
    Some(answer)
}

fn asked_one_or_many(alloc: Global, nest: &str, text: Option<&str>) -> Option<Answer> {
    let answer = match nest {
        "OneOrMany<Same, PreferOne> of Vec<String>" => {
            told::<OneOrMany<Same, PreferOne>, Vec<String>>(alloc, text)
        }
        "OneOrMany<Same, PreferMany> of Vec<String>" => {
            told::<OneOrMany<Same, PreferMany>, Vec<String>>(alloc, text)
        }
        "OneOrMany<DisplayFromStr, PreferOne> of Vec<u64>" => {
            told::<OneOrMany<Shown, PreferOne>, Vec<u64>>(alloc, text)
        }
        "OneOrMany<Vec<Same>, PreferOne> of Vec<Vec<u8>>" => told::<One, Lists>(alloc, text),
        "OneOrMany<Vec<Same>, PreferOne>, written by Vec<Vec<Same>>, of Vec<Vec<u8>>" => {
            told_apart::<One, Many, Lists>(alloc, json(), text)
        }
        "Vec<Vec<Same>>, written by OneOrMany<Vec<Same>, PreferOne>, of Vec<Vec<u8>>" => {
            told_apart::<Many, One, Lists>(alloc, json(), text)
        }
        "PickFirst<(OneOrMany<Vec<Same>, PreferOne>, Vec<Vec<Same>>)>, written by Vec<Vec<Same>>, of Vec<Vec<u8>>" =>
            { told_apart::<PickFirst<(One, Many)>, Many, Lists>(alloc, json(), text) }
        "PickFirst<(Vec<Vec<Same>>, OneOrMany<Vec<Same>, PreferOne>)>, written by Vec<Vec<Same>>, of Vec<Vec<u8>>" =>
            { told_apart::<PickFirst<(Many, One)>, Many, Lists>(alloc, json(), text) }
        _ => return None,
    };
    Some(answer)
}
