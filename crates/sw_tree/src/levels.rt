//! How many levels the tree of a view has.

ghost use Rattle.std.specs.Prelude.{◌≡◌};
ghost use Rattle.sw_tree.specs.Tree.{depth, trees, trees_depth, entries, entries_depth};
ghost use Rattle.sw_tree.specs.Inner.Seen.{trees_of, pairs_of};
ghost use Rattle.sw_tree.specs.Inner.View.{tree_of};

use crate::view::{Entries, Items, View};

/// How many levels the view's tree has, at most 128.
#[cycle(levels_of)]
pub(crate) fn levels_of(view: View<'_>) -> u8
    ensures { result ≡ depth (tree_of view.entry) }
{
    if let Some(items) = view.items() {
        return levels_of_items(items) + 1;
    }
    if let Some(pairs) = view.entries() {
        return levels_of_entries(pairs) + 1;
    }
    match view.as_bytes() {
        Some(_) => 1,
        None => 0,
    }
}

/// The most levels that one of the items has.
#[cycle(levels_of)]
fn levels_of_items(items: Items<'_>) -> u8
    ensures { result ≡ trees_depth (trees (trees_of items.entry)) }
{
    let mut most = 0;
    for item in items {
        most = most.max(levels_of(item));
    }
    most
}

/// The most levels that a key or value of the entries has.
#[cycle(levels_of)]
fn levels_of_entries(pairs: Entries<'_>) -> u8
    ensures { result ≡ entries_depth (entries (pairs_of pairs.entry)) }
{
    let mut most = 0;
    for (key, value) in pairs {
        most = most.max(levels_of(key)).max(levels_of(value));
    }
    most
}
