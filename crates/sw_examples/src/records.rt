//! Nests of a record of a user's own.

use crate::answer::Answer;
use crate::person::{Person, PersonAs};
use crate::told::told;
use std::alloc::Global;
use sw_core::display::DisplayFromStr;
use sw_core::same::Same;

pub(crate) fn asked(alloc: Global, nest: &str, text: Option<&str>) -> Option<Answer> {
    let answer = match nest {
        "PersonAs<Same, Same, Vec<DisplayFromStr>> of Person" => {
            told::<PersonAs<Same, Same, Vec<DisplayFromStr>>, Person>(alloc, text)
        }
        _ => return None,
    };
    Some(answer)
}
