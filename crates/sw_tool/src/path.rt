//! Paths of nodes, for which a text's tree is read again.

ghost use Rattle.std.specs.Prelude.{◌≡◌, true, Ok, IfOk, is_ok, string_bytes};
ghost use Rattle.sw_tree.specs.Path.{HasPlace};
ghost use Rattle.sw_tree.specs.Inner.View.{seen};
ghost use Rattle.sw_json.specs.Spelled.{spelled};
ghost use Rattle.sw_tool.specs.Path.{HasNode, IsPathIn, IsPathTo};

use std::alloc::{AllocError, Global};
use sw_json::JsonWire;
use sw_tree::doc::Doc;
use sw_tree::fail::WireError;
use sw_tree::path::path_of;
use sw_tree::view::View;
use sw_tree::wire::Wire;

/// The document of bytes that were read before, and spell a tree.
pub(crate) fn read_again(alloc: Global, bytes: &[u8]) -> Result<Doc<'_>, AllocError>
    requires { is_ok (spelled bytes.now) ≡ true }
    ensures { IfOk result (λ d. spelled bytes.entry.now ≡ Ok d.tree) }
{
    match JsonWire::read_tree(alloc, bytes) {
        Ok(doc) => Ok(doc),
        Err(WireError::Memory) => Err(AllocError),
        Err(_) => unreachable!(),
    }
}

/// The text of the path of the node of that number in the tree that the bytes spell.
pub(crate) fn path_text(alloc: Global, bytes: &[u8], number: usize) -> Result<String, AllocError>
    requires { HasNode bytes.now number }
    ensures { IfOk result (λ path. IsPathTo bytes.now number (string_bytes path)) }
{
    match read_again(alloc, bytes) {
        Ok(doc) => path_in(alloc, doc.view(), number),
        Err(error) => Err(error),
    }
}

/// The text of the path to the node of that place, from the view's node.
pub(crate) fn path_in(alloc: Global, view: View<'_>, place: usize) -> Result<String, AllocError>
    requires { HasPlace (seen view) place }
    ensures { IfOk result (λ path. IsPathIn (seen view.entry) place (string_bytes path)) }
{
    match path_of(alloc, view, place)? {
        Some(path) => path.print(alloc),
        None => unreachable!(),
    }
}
