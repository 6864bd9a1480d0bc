//! The names and ids of schemas, from those of their parts.

ghost use Rattle.std.specs.Prelude.{◌≡◌, ◌++◌, IfOk, string_bytes};
ghost use Rattle.sw_schemas.specs.Definitions as definition;

use std::alloc::{AllocError, Global};
use sw_tree::number::whole_text;
use sw_tree::whole::Whole;

/// Both texts, one behind the other. The one error is want of memory.
pub fn joined(alloc: Global, first: &str, second: &str) -> Result<String, AllocError>
    ensures { IfOk result (λ s. string_bytes s ≡ first.now ++ second.now) }
{
    let mut text = String::from_str(alloc, first)?;
    text.push_str(second)?;
    Ok(text)
}

/// The name of an array of so many items, from that of its part. The one error is want of memory.
pub fn sized(alloc: Global, count: usize, name: &str) -> Result<String, AllocError>
    ensures { IfOk result (λ s. string_bytes s ≡ definition.sized count name.now) }
{
    let mut text = joined(alloc, "[", name)?;
    text.push_str("; ")?;
    text.push_str(whole_text(alloc, Whole::from_u128(count as u128))?.as_str())?;
    text.push_str("]")?;
    Ok(text)
}
