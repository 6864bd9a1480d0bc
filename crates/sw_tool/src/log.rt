//! The text of a log of refusals that were passed over.

ghost use Rattle.std.specs.Prelude.{◌≡◌, OnOk, IfOk, length, string_bytes};
ghost use Rattle.sw_tree.specs.Path.{HasPlace};
ghost use Rattle.sw_tree.specs.Steps.{Each};
ghost use Rattle.sw_tree.specs.Inner.View.{seen};
ghost use Rattle.sw_tool.specs.Log.{heading, IsLogText};
ghost use Rattle.sw_tool.specs.Path.{HasNode, IsPathIn};
ghost use Rattle.sw_tool.specs.Inner.Log.{IsTold, GainsEntry};

use crate::names::kind_name;
use crate::path::{path_in, read_again};
use itoa::Buffer;
use std::alloc::{AllocError, Global};
use sw_tree::fail::Refusal;
use sw_tree::view::View;

/// How many refusals were passed over while the bytes were read, and the kind of each with the path of its
/// node; nothing where there are none. The tree is read again, once, for all paths.
pub(crate) fn log_text(alloc: Global, bytes: &[u8], log: &[Refusal]) -> Result<String, AllocError>
    requires { Each (λ r. HasNode bytes.now r.place) log.now }
    ensures { IfOk result (λ text. IsLogText bytes.now log.now (string_bytes text)) }
{
    if log.is_empty() {
        return Ok(String::new(alloc));
    }
    match read_again(alloc, bytes) {
        Ok(doc) => told_in(alloc, doc.view(), log),
        Err(error) => Err(error),
    }
}

/// The text of a log over what the view shows, one entry for each refusal.
fn told_in(alloc: Global, view: View<'_>, log: &[Refusal]) -> Result<String, AllocError>
    requires { Each (λ r. HasPlace (seen view) r.place) log.now }
    ensures { IfOk result (λ text. IsTold (IsPathIn (seen view.entry)) (heading (length log.now)) log.now (string_bytes text)) }
{
    let mut text = count_text(alloc, log.len())?;
    for refusal in log {
        push_entry(alloc, &mut text, view, *refusal)?;
    }
    Ok(text)
}

/// The heading of so many entries.
fn count_text(alloc: Global, count: usize) -> Result<String, AllocError>
    ensures { IfOk result (λ text. string_bytes text ≡ heading count) }
{
    let mut text = String::new(alloc);
    let mut digits = Buffer::new();
    text.push_str(digits.format(count))?;
    text.push_str(":")?;
    Ok(text)
}

/// Appends the entry of a refusal: its kind, and the path of its node.
fn push_entry(
    alloc: Global,
    text: &mut String,
    view: View<'_>,
    refusal: Refusal,
) -> Result<(), AllocError>
    requires { HasPlace (seen view) refusal.place }
    ensures { OnOk result (GainsEntry (IsPathIn (seen view.entry)) refusal (string_bytes text.old) (string_bytes text.new)) }
{
    let path = path_in(alloc, view, refusal.place)?;
    text.push_str(" ")?;
    text.push_str(kind_name(refusal.error.kind()))?;
    text.push_str(" at ")?;
    text.push_str(path.as_str())
}
