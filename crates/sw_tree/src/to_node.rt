//! A leaf's tree, copied.
#![tactic(auto, using(crate::proofs::Children::leaves))]

ghost use Rattle.std.specs.Prelude.{◌≡◌, IfOk, None};
ghost use Rattle.sw_tree.specs.Tree.{items_at, pairs_at};
ghost use Rattle.sw_tree.specs.Inner.View.{tree_of};

use crate::node::Node;
use crate::view::View;
use std::alloc::{AllocError, Global};

/// An equal tree of what is no list and no map.
pub(crate) fn leaf_of(alloc: Global, view: View<'_>) -> Result<Node, AllocError>
    requires no_list { items_at (tree_of view) ≡ None }
    requires no_map { pairs_at (tree_of view) ≡ None }
    ensures { IfOk result (λ n. n ≡ tree_of view.entry) }
{
    if let Some(text) = view.as_text() {
        return Ok(Node::text(String::from_str(alloc, text)?));
    }
    if let Some(bytes) = view.as_bytes() {
        return Ok(Node::bytes(Vec::from_slice(alloc, bytes)?));
    }
    if let Some(value) = view.as_int() {
        return Ok(Node::int(value));
    }
    Ok(match view.as_bool() {
        Some(value) => Node::bool(value),
        None => Node::null(),
    })
}
