//! A whole tree, put into what is built.
#![tactic(auto, using(crate::proofs::Fitting::fitting))]

ghost use Rattle.std.specs.Prelude.{◌≡◌, ◌≤◌, Ok};
ghost use Rattle.sw_tree.specs.Tree.{list, map, trees, entries, depth};
ghost use Rattle.sw_tree.specs.Inner.Seen.{trees_of, pairs_of};
ghost use Rattle.sw_tree.specs.Inner.View.{tree_of};
ghost use Rattle.sw_tree.specs.Building.{IsPut};

use crate::builds::Builds;
use crate::content::Content;
use crate::fail::SerFail;
use crate::known::{shown_bool, shown_bytes, shown_entries, shown_int, shown_items, shown_text};
use crate::mode::Kind;
use crate::node::Node;
use crate::view::{Entries, Items, View};

/// Puts the view's tree in, node by node.
#[cycle(write_view)]
pub fn write_view<B: Builds>(out: &mut B, view: &View<'_>) -> Result<(), SerFail>
    ensures { IsPut B.put result (Ok (tree_of view.now)) out.old out.new }
{
    match view.kind() {
        Kind::Null => out.null(),
        Kind::Bool => out.bool(shown_bool(*view)),
        Kind::Int => out.int(shown_int(*view)),
        Kind::Text => out.text(shown_text(*view)),
        Kind::Bytes => out.bytes(shown_bytes(*view)),
        Kind::List => write_items(out, view.len(), shown_items(*view)),
        Kind::Map => write_entries(out, view.len(), shown_entries(*view)),
    }
}

#[cycle(write_view)]
fn write_items<B: Builds>(out: &mut B, count: usize, items: Items<'_>) -> Result<(), SerFail>
    requires { depth (list (trees (trees_of items))) ≤ 128 }
    ensures { IsPut B.put result (Ok (list (trees (trees_of items.entry)))) out.old out.new }
{
    out.open_list(count)?;
    for item in items {
        write_view(out, &item)?;
    }
    out.close()
}

#[cycle(write_view)]
fn write_entries<B: Builds>(out: &mut B, count: usize, pairs: Entries<'_>) -> Result<(), SerFail>
    requires { depth (map (entries (pairs_of pairs))) ≤ 128 }
    ensures { IsPut B.put result (Ok (map (entries (pairs_of pairs.entry)))) out.old out.new }
{
    out.open_map(count)?;
    for (key, value) in pairs {
        write_view(out, &key)?;
        write_view(out, &value)?;
    }
    out.close()
}

/// Puts the node's tree in: whole where it is taken so, and else node by node.
pub fn write_node<B: Builds>(out: &mut B, node: &Node) -> Result<(), SerFail>
    ensures { IsPut B.put result (Ok node.now) out.old out.new }
{
    if out.whole(node)? {
        return Ok(());
    }
    write_parts(out, node)
}

/// Puts the node's tree in, node by node.
#[cycle(write_parts)]
pub(crate) fn write_parts<B: Builds>(out: &mut B, node: &Node) -> Result<(), SerFail>
    ensures { IsPut B.put result (Ok node.now) out.old out.new }
{
    match node.content() {
        Content::Null => out.null(),
        Content::Bool(value) => out.bool(value),
        Content::Int(number) => out.int(number),
        Content::Text(text) => out.text(text),
        Content::Bytes(bytes) => out.bytes(bytes),
        Content::List(items) => write_nodes(out, node, items),
        Content::Map(pairs) => write_pairs(out, node, pairs),
        Content::Document(view) => write_view(out, &view),
    }
}

#[cycle(write_parts)]
fn write_nodes<B: Builds>(out: &mut B, node: &Node, items: &[Node]) -> Result<(), SerFail>
    requires { node.now ≡ list (trees items.now) }
    ensures { IsPut B.put result (Ok (list (trees items.now))) out.old out.new }
{
    let _kind = node.kind();
    out.open_list(items.len())?;
    for item in items {
        write_parts(out, item)?;
    }
    out.close()
}

#[cycle(write_parts)]
fn write_pairs<B: Builds>(out: &mut B, node: &Node, pairs: &[(Node, Node)]) -> Result<(), SerFail>
    requires { node.now ≡ map (entries pairs.now) }
    ensures { IsPut B.put result (Ok (map (entries pairs.now))) out.old out.new }
{
    let _kind = node.kind();
    out.open_map(pairs.len())?;
    for (key, value) in pairs {
        write_parts(out, key)?;
        write_parts(out, value)?;
    }
    out.close()
}
