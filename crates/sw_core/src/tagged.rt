//! Values of one of two variants, or of a third without a value: what names the variant, and how one is written.
#![tactic(auto, using(sw_tree::specs::Laws::Logs::gains))]

ghost use Rattle.std.specs.Prelude.{◌≡◌, [], ◌∷◌, Some};
ghost use Rattle.sw_tree.specs.Building.{IsPut};
ghost use Rattle.sw_tree.specs.Mode.{at_value};
ghost use Rattle.sw_tree.specs.Inner.View.{seen};
ghost use Rattle.sw_tree.specs.Seen.{Seen, entries_seen};
ghost use Rattle.sw_core.specs.Tagged.{case_writes};
ghost use Rattle.sw_core.specs.Inner.Tagged.{IsTag};

use crate::adapter::SerializeAs;
use crate::fields::write_field;
use std::alloc::Global;
use sw_elem::refuse::refused_at;
use sw_tree::builds::Builds;
use sw_tree::fail::{DeError, DeFail, SerFail};
use sw_tree::meant::Meant;
use sw_tree::mode::{Kind, Mode};
use sw_tree::view::{Entries, View};

/// Which variant a name is of.
pub enum Variant {
    First,
    Second,
    /// The one that has no value.
    Alone,
    Unknown,
}

/// The names of a type's variants.
pub(crate) trait Tags {
    ghost use Rattle.std.specs.Prelude.{◌≡◌};
    ghost use Rattle.sw_core.specs.Tagged.{Names, variant_of};

    ghost names: { Names };

    fn variant(name: &str) -> Variant
        ensures { result ≡ variant_of names name.now };
}

/// The variant of a node, with the node of its value if it has one.
pub(crate) enum Tag<'a> {
    One(View<'a>),
    Two(View<'a>),
    Bare,
}

/// The variant of the view's node, where its value is yet to be read.
pub(crate) fn tag_of<'a, N: Tags>(view: View<'a>) -> Result<Tag<'a>, DeFail>
    ensures { IsTag N.names (seen view.entry) result }
{
    if let Some(name) = view.as_text() {
        return match N::variant(name) {
            Variant::Alone => Ok(Tag::Bare),
            Variant::Unknown => Err(refused_at(view, DeError::UnknownVariant)),
            Variant::First => Err(refused_at(view, DeError::InvalidType(Kind::Text))),
            Variant::Second => Err(refused_at(view, DeError::InvalidType(Kind::Text))),
        };
    }
    let count = view.len();
    let Some(mut entries) = view.entries() else {
        return Err(refused_at(view, DeError::InvalidType(view.kind())));
    };
    if count != 1 {
        return Err(refused_at(view, DeError::InvalidLength(count)));
    }
    match entries.next() {
        Some((key, value)) => entry_tag::<N>(key, value),
        None => Err(refused_at(view, DeError::InvalidLength(count))),
    }
}

/// The variant that the key of the one entry names.
fn entry_tag<'a, N: Tags>(key: View<'a>, value: View<'a>) -> Result<Tag<'a>, DeFail>
    ensures { (s : Seen) → Some ((seen key.entry, seen value.entry) ∷ []) ≡ entries_seen s → IsTag N.names s result }
{
    let Some(name) = key.as_text() else {
        return Err(refused_at(key, DeError::InvalidType(key.kind())));
    };
    match N::variant(name) {
        Variant::First => Ok(Tag::One(value)),
        Variant::Second => Ok(Tag::Two(value)),
        Variant::Alone => match value.kind() {
            Kind::Null => Ok(Tag::Bare),
            kind => Err(refused_at(value, DeError::InvalidType(kind))),
        },
        Variant::Unknown => Err(refused_at(key, DeError::UnknownVariant)),
    }
}

/// Puts in the map of one entry: the name, and the value by `A` in value place.
pub(crate) fn write_case<T: Meant, A: SerializeAs<T>, B: Builds>(
    alloc: Global,
    out: &mut B,
    name: &str,
    value: &T,
    mode: Mode,
) -> Result<(), SerFail>
    ensures { IsPut B.put result (case_writes name.now (A.writes (at_value mode) (T.meaning value.now))) out.old out.new }
{
    out.open_map(1)?;
    write_field::<T, A, B>(alloc, out, name, value, mode)?;
    out.close()
}
