//! Nests of a key of a user's own, whose order is its own too.

use crate::answer::Answer;
use crate::priority::Priority;
use crate::told::told;
use std::alloc::Global;
use std::collections::{BTreeMap, BTreeSet};
use sw_core::same::Same;

pub(crate) fn asked(alloc: Global, nest: &str, text: Option<&str>) -> Option<Answer> {
    let answer = match nest {
        "Same of Priority" => told::<Same, Priority>(alloc, text),
        "BTreeMap<Same, Same> of BTreeMap<Priority, u32>" => {
            told::<BTreeMap<Same, Same>, BTreeMap<Priority, u32>>(alloc, text)
        }
        "BTreeSet<Same> of BTreeSet<Priority>" => {
            told::<BTreeSet<Same>, BTreeSet<Priority>>(alloc, text)
        }
        _ => return None,
    };
    Some(answer)
}
