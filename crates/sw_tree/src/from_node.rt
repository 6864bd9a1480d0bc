//! A tree, copied into a document.
#![tactic(auto)]

ghost use Rattle.std.specs.Prelude.{◌≡◌, IfOk};
ghost use Rattle.sw_tree.specs.Tree.{content_len};

use crate::doc::Doc;
use crate::doc_writer::DocWriter;
use crate::fail::SerFail;
use crate::node::Node;
use crate::write::write_parts;
use std::alloc::{AllocError, Global};

/// A document of that tree.
pub(crate) fn document_of(alloc: Global, node: &Node) -> Result<Doc<'_>, AllocError>
    ensures { IfOk result (λ d. d ≡ record { tree = node.entry.now; side_len = content_len node.entry.now }) }
{
    prove!(node.depth() <= 128);
    let mut writer = DocWriter::new(alloc);
    match write_parts(&mut writer, node) {
        Ok(()) => Ok(writer.finish()),
        Err(SerFail::Memory) => Err(AllocError),
        Err(SerFail::Unwritable(_)) => unreachable!(),
    }
}
