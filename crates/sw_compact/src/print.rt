//! The text of a node.

ghost use Rattle.std.specs.Prelude.{Some};
ghost use Rattle.sw_tree.specs.Wires.{IsPrinted};
ghost use Rattle.sw_compact.specs.Spelling.{text_by};

use crate::version::Version;
use crate::writer::CompactWriter;
use std::alloc::Global;
use sw_tree::{Node, PrintError, SerFail, write_node};

/// The text of the node's tree in that version. The one refusal is `Memory`.
pub(crate) fn print_by(alloc: Global, version: Version, node: &Node) -> Result<Vec<u8>, PrintError>
    ensures { IsPrinted result (Some (text_by version node.now)) }
{
    let mut writer = CompactWriter::new(alloc, version, 0)?;
    match write_node(&mut writer, node) {
        Ok(()) => writer.finish(),
        Err(SerFail::Memory) => Err(PrintError::Memory),
        Err(SerFail::Unwritable(_)) => unreachable!(),
    }
}
