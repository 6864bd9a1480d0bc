//! Lengths and counts, put down.
#![tactic(auto, using(crate::proofs::Appending::appending))]

ghost use Rattle.std.specs.Prelude.{◌≡◌, ◌∷◌, ◌++◌, []};
ghost use Rattle.sw_compact.specs.Inner.Appended.{IsAppended};
ghost use Rattle.sw_compact.specs.Lengths.{groups, length_bytes};

use crate::version::Version;
use sw_tree::SerFail;

/// Appends these bytes. The one refusal is `Memory`.
#[inline]
pub(crate) fn append(out: &mut Vec<u8>, bytes: &[u8]) -> Result<(), SerFail>
    ensures { IsAppended result out.old.items out.new.items bytes.now }
{
    if out.extend_from_slice(bytes).is_err() {
        return Err(SerFail::Memory);
    }
    Ok(())
}

/// Appends this byte. The one refusal is `Memory`.
#[inline]
pub(crate) fn append_byte(out: &mut Vec<u8>, byte: u8) -> Result<(), SerFail>
    ensures { IsAppended result out.old.items out.new.items (byte ∷ []) }
{
    if out.reserve(1).is_err() {
        return Err(SerFail::Memory);
    }
    out.push_reserved(byte);
    Ok(())
}

/// Appends the groups of seven bits of the length, at most so many.
fn push_groups(out: &mut Vec<u8>, most: u32, length: usize) -> Result<(), SerFail>
    ensures { IsAppended result out.old.items out.new.items (groups most length) }
{
    if most == 0 {
        return Ok(());
    }
    if length < 128 {
        return append_byte(out, length as u8);
    }
    append_byte(out, (128 + length % 128) as u8)?;
    push_groups(out, most - 1, length / 128)
}

/// Appends the spelling of a length or a count. The one refusal is `Memory`.
#[inline]
pub(crate) fn push_length(out: &mut Vec<u8>, version: Version, length: usize) -> Result<(), SerFail>
    ensures { IsAppended result out.old.items out.new.items (length_bytes version length) }
{
    match version {
        Version::One => append(out, &(length as u64).to_be_bytes()),
        Version::Two => push_groups(out, 10, length),
    }
}

/// Appends a tag and the spelling of a length or a count. The one refusal is `Memory`.
#[inline]
pub(crate) fn push_head(
    out: &mut Vec<u8>,
    version: Version,
    tag: u8,
    length: usize,
) -> Result<(), SerFail>
    ensures { IsAppended result out.old.items out.new.items (tag ∷ length_bytes version length) }
{
    append_byte(out, tag)?;
    push_length(out, version, length)
}
