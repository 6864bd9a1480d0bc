//! What a view of a known kind shows.
#![tactic(auto, using(crate::proofs::Fitting::known))]

ghost use Rattle.std.specs.Prelude.{◌≡◌};
ghost use Rattle.sw_tree.specs.Tree.{truth, int, text, bytes, list, map, trees, entries, kind_of};
ghost use Rattle.sw_tree.specs.Inner.Seen.{trees_of, pairs_of};
ghost use Rattle.sw_tree.specs.Inner.View.{tree_of};

use crate::mode::Kind;
use crate::view::{Entries, Items, View};
use crate::whole::Whole;

/// The truth value.
#[inline]
pub(crate) fn shown_bool(view: View<'_>) -> bool
    requires { kind_of (tree_of view) ≡ Kind.Bool }
    ensures { tree_of view.entry ≡ truth result }
{
    match view.as_bool() {
        Some(value) => value,
        None => unreachable!(),
    }
}

/// The number.
#[inline]
pub(crate) fn shown_int(view: View<'_>) -> Whole
    requires { kind_of (tree_of view) ≡ Kind.Int }
    ensures { tree_of view.entry ≡ int result }
{
    match view.as_int() {
        Some(number) => number,
        None => unreachable!(),
    }
}

/// The text.
#[inline]
pub(crate) fn shown_text<'a>(view: View<'a>) -> &'a str
    requires { kind_of (tree_of view) ≡ Kind.Text }
    ensures { tree_of view.entry ≡ text result.now }
{
    match view.as_text() {
        Some(text) => text,
        None => unreachable!(),
    }
}

/// The bytes of a byte string.
#[inline]
pub(crate) fn shown_bytes<'a>(view: View<'a>) -> &'a [u8]
    requires { kind_of (tree_of view) ≡ Kind.Bytes }
    ensures { tree_of view.entry ≡ bytes result.now }
{
    match view.as_bytes() {
        Some(bytes) => bytes,
        None => unreachable!(),
    }
}

/// The items of a list.
#[inline]
pub(crate) fn shown_items<'a>(view: View<'a>) -> Items<'a>
    requires { kind_of (tree_of view) ≡ Kind.List }
    ensures { tree_of view.entry ≡ list (trees (trees_of result)) }
{
    match view.items() {
        Some(items) => items,
        None => unreachable!(),
    }
}

/// The entries of a map.
#[inline]
pub(crate) fn shown_entries<'a>(view: View<'a>) -> Entries<'a>
    requires { kind_of (tree_of view) ≡ Kind.Map }
    ensures { tree_of view.entry ≡ map (entries (pairs_of result)) }
{
    match view.entries() {
        Some(entries) => entries,
        None => unreachable!(),
    }
}
