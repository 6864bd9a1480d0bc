//! The nests that the program knows, each with the type of its values.

use crate::nest::Nest;
use crate::settings::SettingsAs;
use std::collections::BTreeMap;
use std::marker::PhantomData;
use sw_core::display::DisplayFromStr;
use sw_core::formats::{PreferMany, PreferOne};
use sw_core::same::Same;
use sw_elem::any::Any;
use sw_pairs::Map;
use sw_policy::{OneOrMany, PickFirst};
use sw_schema::json_schema::JsonSchema;

/// A list of texts that spell numbers.
pub(crate) struct NumberTexts;

impl Nest for NumberTexts {
    type Value = Vec<u32>;

    type Adapter = Vec<DisplayFromStr>;
}

/// A value as it stands.
pub(crate) struct AsItStands<T>(PhantomData<T>);

impl<T: JsonSchema> Nest for AsItStands<T> {
    type Value = T;

    type Adapter = Same;
}

/// A table of lists of bytes.
pub(crate) struct ByteTable;

impl Nest for ByteTable {
    type Value = Vec<(i32, Vec<u8>)>;

    type Adapter = Map<DisplayFromStr, Vec<Same>>;
}

/// Numbers, or texts that spell them.
pub(crate) struct Flexible;

impl Nest for Flexible {
    type Value = Vec<u32>;

    type Adapter = Vec<PickFirst<(Same, DisplayFromStr)>>;
}

/// A text, or a list of texts.
pub(crate) struct OneOrManyTexts;

impl Nest for OneOrManyTexts {
    type Value = Vec<String>;

    type Adapter = OneOrMany<Same, PreferOne>;
}

/// A list of bytes, or a list of such lists.
pub(crate) struct OneOrManyLists;

impl Nest for OneOrManyLists {
    type Value = Vec<Vec<u8>>;

    type Adapter = OneOrMany<Vec<Same>, PreferOne>;
}

/// A map from numbers that were set aside, which as keys of JSON are none.
pub(crate) struct AsideKeys;

impl Nest for AsideKeys {
    type Value = Vec<(u32, bool)>;

    type Adapter = Map<PickFirst<(Same, Same)>, Same>;
}

/// A map, or a list of maps.
pub(crate) struct OneOrManyMaps;

impl Nest for OneOrManyMaps {
    type Value = Vec<Vec<(String, Any)>>;

    type Adapter = OneOrMany<Map<Same, Same>, PreferMany>;
}

/// The adapter of settings: a record of a text, of one number or a list of numbers, each as a text too, of two numbers or
/// none, and of a map of texts. No nest names it, since its parts are generic in tuples.
pub(crate) type SettingsNest = SettingsAs<
    Same,
    OneOrMany<PickFirst<(Same, DisplayFromStr)>, PreferOne>,
    Option<(Same, Same)>,
    BTreeMap<Same, Same>,
>;
