//! The nodes that JSON doesn't give back as they are: byte strings, and keys that are no texts.

ghost use Rattle.std.specs.Prelude.{◌≡◌};
ghost use Rattle.sw_tree.specs.Seen.{place_at};
ghost use Rattle.sw_tree.specs.Inner.View.{seen};
ghost use Rattle.sw_tree.specs.ForeignSeen.{foreign_seen};
ghost use Rattle.sw_tree.specs.Inner.ForeignSeen.{foreign_key_seen, foreign_each, foreign_each_entry};

use crate::fail::{DeError, Refusal};
use crate::mode::Kind;
use crate::view::{Entries, Items, View};

/// The refusal of the first such node in reading order, a key before its value: `InvalidType` of its kind.
#[cycle(foreign_in)]
#[tactic(auto, using(crate::proofs::Foreigns::foreign_views))]
pub fn foreign_in(view: View<'_>) -> Option<Refusal>
    ensures { result ≡ foreign_seen (seen view.entry) }
{
    if let Some(items) = view.items() {
        return foreign_in_items(items);
    }
    if let Some(entries) = view.entries() {
        return foreign_in_entries(entries);
    }
    match view.as_bytes() {
        Some(_) => Some(refused(view, Kind::Bytes)),
        None => None,
    }
}

/// The same in these items.
#[cycle(foreign_in)]
fn foreign_in_items(items: Items<'_>) -> Option<Refusal>
    ensures { result ≡ foreign_each items.entry }
{
    for item in items {
        if let Some(refusal) = foreign_in(item) {
            return Some(refusal);
        }
    }
    None
}

/// The same in these entries.
#[cycle(foreign_in)]
fn foreign_in_entries(entries: Entries<'_>) -> Option<Refusal>
    ensures { result ≡ foreign_each_entry entries.entry }
{
    for (key, value) in entries {
        if let Some(refusal) = foreign_key(key) {
            return Some(refusal);
        }
        if let Some(refusal) = foreign_in(value) {
            return Some(refusal);
        }
    }
    None
}

/// The refusal of a key, where it is no text.
fn foreign_key(view: View<'_>) -> Option<Refusal>
    ensures { result ≡ foreign_key_seen (seen view.entry) }
{
    match view.kind() {
        Kind::Text => None,
        kind => Some(refused(view, kind)),
    }
}

/// The refusal of the view's own node for its kind.
fn refused(view: View<'_>, kind: Kind) -> Refusal
    ensures { result ≡ record { error = DeError.InvalidType kind; place = place_at (seen view.entry) 0 } }
{
    Refusal {
        error: DeError::InvalidType(kind),
        place: view.place(),
    }
}
