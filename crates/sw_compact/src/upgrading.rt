//! A text of either version, put into version 2.

ghost use Rattle.std.specs.Prelude.{◌≡◌, Ok, IfErr};
ghost use Rattle.sw_tree.specs.Wires.{IsRefused};
ghost use Rattle.sw_compact.specs.Spelled.{spells, spelled};
ghost use Rattle.sw_compact.specs.Texts.{IsUpgraded};

use crate::reader::read_either;
use crate::version::Version;
use crate::writer::CompactWriter;
use std::alloc::Global;
use sw_tree::{PrintError, SerFail, WireError, write_view};

/// The text of version 2 of the tree that the bytes spell in either version.
///
/// Its errors have the causes of `CompactWire::read_tree`: `Syntax` where the bytes are no text of either version,
/// otherwise `TooDeep` at the first node that opens a 129th level; `Memory` may come in place of any answer.
pub fn upgrade(alloc: Global, bytes: &[u8]) -> Result<Vec<u8>, WireError>
    ensures text { IsUpgraded result (spelled bytes.now) }
    ensures refused { IfErr result (IsRefused spells bytes.now) }
{
    let document = match read_either(alloc, bytes) {
        Ok(document) => document,
        Err(error) => return Err(error),
    };
    let Ok(mut writer) = CompactWriter::new(alloc, Version::Two, bytes.len()) else {
        return Err(WireError::Memory);
    };
    match write_view(&mut writer, &document.view()) {
        Ok(()) => match writer.finish() {
            Ok(text) => Ok(text),
            Err(_) => Err(WireError::Memory),
        },
        Err(SerFail::Memory) => Err(WireError::Memory),
        Err(SerFail::Unwritable(_)) => unreachable!(),
    }
}
