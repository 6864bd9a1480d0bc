//! What any nest makes of a JSON text, by the calls that a user makes.

use crate::answer::Answer;
use crate::stored::stored;
use std::alloc::Global;
use sw_check::blame::{Blame, CheckFail};
use sw_check::check;
use sw_check::grade::Grade;
use sw_core::adapter::{Adapter, SerializeAs};
use sw_core::as_::As;
use sw_core::faithful::faithful;
use sw_core::recode::RecodeError;
use sw_core::token::Faithful;
use sw_json::JsonWire;
use sw_tree::meant::Meant;
use sw_tree::mode::{Mode, WireKind};
use sw_tree::skipped::Skipped;
use sw_tree::wire::Wire;

/// What the nest makes of the text: with a token by recoding, where nothing is blamed; else as `told_apart`. Without a
/// text what the check says.
pub(crate) fn told<A: Adapter<T>, T: Meant>(alloc: Global, text: Option<&str>) -> Answer {
    match (faithful::<A, T, JsonWire>(alloc), text) {
        (Ok(token), Some(text)) => {
            recoded(alloc, &token, text.as_bytes()).unwrap_or_else(Answer::Fails)
        }
        (Ok(token), None) => Answer::Sound(token.grade()),
        (Err(_), _) => told_apart::<A, A, T>(alloc, json(), text),
    }
}

/// What the nest `R` reads in that mode, written by `S`. Without a text what the check says of `R` in that mode.
pub(crate) fn told_apart<R: Adapter<T>, S: SerializeAs<T>, T: Meant>(
    alloc: Global,
    mode: Mode,
    text: Option<&str>,
) -> Answer {
    match text {
        Some(text) => match read_and_written::<R, S, T>(alloc, mode, text.as_bytes()) {
            Ok(bytes) => Answer::Text(bytes),
            Err(error) => Answer::Fails(error),
        },
        None => match checked::<R, T>(alloc, mode) {
            Ok(grade) => Answer::Sound(grade),
            Err(CheckFail::Blame(blame)) => blamed(alloc, &blame),
            Err(CheckFail::Memory) => Answer::Memory,
        },
    }
}

/// The mode of a whole JSON text.
pub(crate) fn json() -> Mode {
    Mode::plain(WireKind::Json)
}

fn recoded<A: Adapter<T>, T: Meant>(
    alloc: Global,
    token: &Faithful<A, T, JsonWire>,
    text: &[u8],
) -> Result<Answer, RecodeError> {
    let mut log = Skipped::new(alloc);
    let (value, bytes) = As::<A>::recode::<T, JsonWire>(alloc, token, &mut log, text)?;
    let kept = stored(alloc, token, &value)?;
    if kept == bytes {
        Ok(Answer::Text(bytes))
    } else {
        Ok(Answer::Differs)
    }
}

fn read_and_written<R: Adapter<T>, S: SerializeAs<T>, T: Meant>(
    alloc: Global,
    mode: Mode,
    text: &[u8],
) -> Result<Vec<u8>, RecodeError> {
    let doc = JsonWire::read_tree(alloc, text)?;
    let mut log = Skipped::new(alloc);
    let value = As::<R>::deserialize::<T>(alloc, doc.view(), mode, &mut log)?;
    let node = As::<S>::serialize::<T>(alloc, &value, json())?;
    Ok(JsonWire::print(alloc, &node)?)
}

fn checked<A: Adapter<T>, T: Meant>(alloc: Global, mode: Mode) -> Result<Grade, CheckFail> {
    let expr = A::describe(alloc)?;
    check(alloc, &expr, mode)
}

fn blamed(alloc: Global, blame: &Blame) -> Answer {
    match blame.path.print(alloc) {
        Ok(path) => Answer::Blamed(blame.rule, path),
        Err(_) => Answer::Memory,
    }
}
