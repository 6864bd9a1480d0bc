//! Nests of leaves, lists of every kind, sets, boxes and options.

use crate::answer::Answer;
use crate::told::told;
use std::alloc::Global;
use std::boxed::BoxedSlice;
use std::collections::{BTreeSet, LinkedList, VecDeque};
use sw_core::display::DisplayFromStr;
use sw_core::same::Same;
use sw_elem::any::Any;

pub(crate) fn asked(alloc: Global, nest: &str, text: Option<&str>) -> Option<Answer> {
    let answer = match nest {
        "Same of u8" => told::<Same, u8>(alloc, text),
        "Same of Any" => told::<Same, Any>(alloc, text),
        "DisplayFromStr of u32" => told::<DisplayFromStr, u32>(alloc, text),
        "Vec<Same> of Vec<u8>" => told::<Vec<Same>, Vec<u8>>(alloc, text),
        "Vec<DisplayFromStr> of Vec<u32>" => told::<Vec<DisplayFromStr>, Vec<u32>>(alloc, text),
        "VecDeque<DisplayFromStr> of VecDeque<u32>" => {
            told::<VecDeque<DisplayFromStr>, VecDeque<u32>>(alloc, text)
        }
        "LinkedList<DisplayFromStr> of LinkedList<u32>" => {
            told::<LinkedList<DisplayFromStr>, LinkedList<u32>>(alloc, text)
        }
        "Box<[DisplayFromStr]> of Box<[u32]>" => {
            told::<BoxedSlice<DisplayFromStr>, BoxedSlice<u32>>(alloc, text)
        }
        "BTreeSet<DisplayFromStr> of BTreeSet<u32>" => {
            told::<BTreeSet<DisplayFromStr>, BTreeSet<u32>>(alloc, text)
        }
        "Option<DisplayFromStr> of Option<u32>" => {
            told::<Option<DisplayFromStr>, Option<u32>>(alloc, text)
        }
        "Option<Option<Same>> of Option<Option<u8>>" => {
            told::<Option<Option<Same>>, Option<Option<u8>>>(alloc, text)
        }
        "Vec<Option<Same>> of Vec<Option<u8>>" => {
            told::<Vec<Option<Same>>, Vec<Option<u8>>>(alloc, text)
        }
        "Box<DisplayFromStr> of Box<u32>" => told::<Box<DisplayFromStr>, Box<u32>>(alloc, text),
        "Box<Vec<DisplayFromStr>> of Box<Vec<u32>>" => {
            told::<Box<Vec<DisplayFromStr>>, Box<Vec<u32>>>(alloc, text)
        }
        _ => return None,
    };
    Some(answer)
}
