//! One nest over JSON: its token, and what it makes of a text.

ghost use Rattle.sw_tree.specs.Mode.{plain};
ghost use Rattle.sw_tree.specs.declared.mode.WireKind.TheVariants.{Json};
ghost use Rattle.sw_check.specs.Blame.{blame};
ghost use Rattle.sw_tool.specs.Nest.{IsVetted, Blames, IsConverted, IsTraced};
ghost use Rattle.sw_tool.specs.Path.{HasNode};
ghost use Rattle.sw_tool.specs.Nests.{json_answer, json_log};

use crate::log::log_text;
use crate::outcome::Outcome;
use crate::path::path_text;
use std::alloc::Global;
use sw_check::blame::{Blame, CheckFail};
use sw_core::adapter::Adapter;
use sw_core::as_::As;
use sw_core::faithful::faithful;
use sw_core::recode::RecodeError;
use sw_core::token::Faithful;
use sw_json::JsonWire;
use sw_schemas::schema_as::SchemaAdapter;
use sw_tree::fail::Refusal;
use sw_tree::meant::Meant;
use sw_tree::skipped::Skipped;

/// A nest of adapters, with a schema, and with the type of its values.
pub(crate) trait Nest {
    type Value: Meant;

    type Adapter: SchemaAdapter<Self::Value>;
}

/// What stands for a sound nest over JSON, of an adapter with the type of its values.
pub(crate) type Token<A, T> = Faithful<A, T, JsonWire>;

/// The token of the nest, or what is blamed in it.
pub(crate) fn vet<A: Adapter<T>, T: Meant>(alloc: Global) -> Result<Token<A, T>, Outcome>
    ensures { IsVetted result (blame A.expr (plain Json)) }
{
    match faithful::<A, T, JsonWire>(alloc) {
        Ok(token) => Ok(token),
        Err(CheckFail::Blame(blame)) => Err(blamed(alloc, blame)),
        Err(CheckFail::Memory) => Err(Outcome::Memory),
    }
}

/// The outcome of a blame: its rule, and the text of its path.
fn blamed(alloc: Global, blame: Blame) -> Outcome
    ensures { Blames result blame }
{
    match blame.path.print(alloc) {
        Ok(path) => Outcome::Blamed(blame.rule, path),
        Err(_) => Outcome::Memory,
    }
}

/// The JSON text of the value that the bytes mean to the nest, with the text of the log of what was passed
/// over; or why there is none.
pub(crate) fn convert<A: Adapter<T>, T: Meant>(
    alloc: Global,
    token: &Token<A, T>,
    bytes: &[u8],
) -> Result<(Vec<u8>, String), Outcome>
    ensures { IsConverted result (json_answer A.reads A.spot A.writes bytes.now) (json_log A.skips bytes.now) bytes.now }
{
    let mut log = Skipped::new(alloc);
    match As::<A>::recode::<T, JsonWire>(alloc, token, &mut log, bytes) {
        Ok((_, text)) => match log_text(alloc, bytes, log.notes()) {
            Ok(told) => Ok((text, told)),
            Err(_) => Err(Outcome::Memory),
        },
        Err(RecodeError::Syntax) => Err(Outcome::Syntax),
        Err(RecodeError::NotWhole { at }) => Err(Outcome::NotWhole(at)),
        Err(RecodeError::TooDeep { at }) => Err(Outcome::TooDeep(at)),
        Err(RecodeError::Refused(refusal)) => Err(refused(alloc, bytes, refusal)),
        Err(RecodeError::Unwritable(reason)) => Err(Outcome::Unwritable(reason)),
        Err(RecodeError::Memory) => Err(Outcome::Memory),
    }
}

/// The outcome of a refusal: its kind, and the path of the refused node.
fn refused(alloc: Global, bytes: &[u8], refusal: Refusal) -> Outcome
    requires { HasNode bytes.now refusal.place }
    ensures { IsTraced result bytes.now refusal }
{
    match path_text(alloc, bytes, refusal.place) {
        Ok(path) => Outcome::Refused(refusal.error.kind(), path),
        Err(_) => Outcome::Memory,
    }
}
