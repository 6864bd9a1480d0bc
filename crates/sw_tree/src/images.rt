//! What a wire gives back of a tree.
#![tactic(auto, using(crate::proofs::ImageLemmas::images))]

ghost use Rattle.std.specs.Prelude.{◌≡◌, ◌≤◌, IfOk};
ghost use Rattle.sw_tree.specs.Tree.{list, trees, entries, depth};
ghost use Rattle.sw_tree.specs.Inner.Seen.{trees_of, pairs_of};
ghost use Rattle.sw_tree.specs.Inner.View.{tree_of};
ghost use Rattle.sw_tree.specs.Image as image;
ghost use Rattle.sw_tree.specs.Image.{numbers, value_image, trees_image, entries_image};
ghost use Rattle.sw_tree.specs.Imaged.{MeansImage, IsImaged};
ghost use Rattle.sw_tree.specs.declared.mode.Place.TheVariants.{Value};

use crate::content::Content;
use crate::doc::Doc;
use crate::fail::PrintError;
use crate::mode::WireKind;
use crate::node::Node;
use crate::number::whole_text;
use crate::view::{Entries, Items, View};
use crate::whole::Whole;
use std::alloc::{AllocError, Global};

/// What the wire gives back of a tree that is printed in value place and read again.
///
/// On the compact wire that is the tree. On JSON a byte string becomes the list of its
/// numbers, and a key that is a number or a truth value becomes its text. `Key` exactly
/// where some key is null, a byte string, a list or a map: it has no image on JSON. The
/// image never has more levels than the tree.
pub fn image(alloc: Global, node: &Node, wire: WireKind) -> Result<Node, PrintError>
    ensures image { IsImaged result (image.image wire Value node.now) }
    ensures levels { IfOk result (λ n. depth n ≤ depth node.now) }
{
    match wire {
        WireKind::Json => json_image(alloc, node),
        WireKind::Compact => Ok(node.copy(alloc)?),
    }
}

/// The image on JSON in value place.
fn json_image(alloc: Global, node: &Node) -> Result<Node, PrintError>
    ensures { IsImaged result (value_image node.now) }
{
    if let Content::Document(view) = node.content() {
        return image_of(alloc, view);
    }
    let doc = Doc::from_node(alloc, node)?;
    image_of(alloc, doc.view())
}

/// The image on JSON in value place.
#[cycle(image)]
fn image_of(alloc: Global, view: View<'_>) -> Result<Node, PrintError>
    ensures { IsImaged result (value_image (tree_of view.entry)) }
{
    if let Some(items) = view.items() {
        return Ok(Node::shallow_list(images_of(alloc, items)?));
    }
    if let Some(pairs) = view.entries() {
        return Ok(Node::shallow_map(entry_images_of(alloc, pairs)?));
    }
    match view.as_bytes() {
        Some(bytes) => Ok(list_of_numbers(alloc, bytes)?),
        None => Ok(view.to_node(alloc)?),
    }
}

/// The images of the items.
#[cycle(image)]
fn images_of(alloc: Global, items: Items<'_>) -> Result<Vec<Node>, PrintError>
    ensures { MeansImage
        (λ v. trees v.items)
        result
        (trees_image (trees (trees_of items.entry))) }
{
    let mut images = Vec::new(alloc);
    for item in items {
        images.push(image_of(alloc, item)?)?;
    }
    Ok(images)
}

/// The images of the entries.
#[cycle(image)]
fn entry_images_of(alloc: Global, pairs: Entries<'_>) -> Result<Vec<(Node, Node)>, PrintError>
    ensures { MeansImage
        (λ v. entries v.items)
        result
        (entries_image (entries (pairs_of pairs.entry))) }
{
    let mut images = Vec::new(alloc);
    for (key, value) in pairs {
        images.push((key_image_of(alloc, key)?, image_of(alloc, value)?))?;
    }
    Ok(images)
}

/// The image on JSON in key place.
fn key_image_of(alloc: Global, key: View<'_>) -> Result<Node, PrintError>
    ensures { IsImaged result (image.key_image (tree_of key.entry)) }
{
    if let Some(text) = key.as_text() {
        return Ok(Node::text(String::from_str(alloc, text)?));
    }
    if let Some(number) = key.as_int() {
        return Ok(Node::text(whole_text(alloc, number)?));
    }
    match key.as_bool() {
        Some(true) => Ok(Node::text(String::from_str(alloc, "true")?)),
        Some(false) => Ok(Node::text(String::from_str(alloc, "false")?)),
        None => Err(PrintError::Key),
    }
}

/// The list of these numbers.
fn list_of_numbers(alloc: Global, bytes: &[u8]) -> Result<Node, AllocError>
    ensures { IfOk result (λ n. n ≡ list (numbers bytes.now)) }
{
    let mut items = Vec::new(alloc);
    for byte in bytes {
        items.push(Node::int(Whole::from_u128(u128::from(*byte))))?;
    }
    Ok(Node::shallow_list(items))
}
