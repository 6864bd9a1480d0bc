use std::alloc::{AllocError, Global};
use std::collections::{BTreeMap, HashMap};
use std::marker::PhantomData;
use sw_check::expr::Expr;
use sw_core::adapter::{Adapter, DeserializeAs, SerializeAs};
use sw_tree::builds::Builds;
use sw_tree::fail::{DeFail, SerFail};
use sw_tree::meant::Meant;
use sw_tree::mode::Mode;
use sw_tree::ranked::Keyed;
use sw_tree::skipped::Skipped;
use sw_tree::view::View;

/// A map as the list of its entries, as serde_with's `Seq`. Each entry goes by `P`, a tuple of two: the key
/// by the first, the value by the second.
///
/// It is written and read as by `Vec<P>`.
#[derive(PartialEq, Eq, PartialOrd, Ord, Hash)]
pub struct Seq<P> {
    entries: PhantomData<P>,
}

/// A list of the entries in ascending order of their keys, each a list of its key by `KA` and its value by
/// `VA`, both in value place.
///
/// The first part that isn't written decides, a key before its value. Without one, an entry of which the key
/// or value has 128 levels is `TooDeep`, and so is a list of which an entry has.
impl<K: Keyed, V: Meant, KA: SerializeAs<K>, VA: SerializeAs<V>> SerializeAs<BTreeMap<K, V>>
    for Seq<(KA, VA)> {
    ghost use Rattle.sw_core.specs.MapList.{map_list_writes};

    ghost writes = { map_list_writes KA.writes VA.writes };

    fn write_as<B: Builds>(
        alloc: Global,
        out: &mut B,
        source: &BTreeMap<K, V>,
        mode: Mode,
    ) -> Result<(), SerFail> {
        <Vec<(KA, VA)> as SerializeAs<BTreeMap<K, V>>>::write_as(alloc, out, source, mode)
    }
}

/// The entries of a list's items, each a list of two: its key by `KA`, then its value by `VA`, both in value
/// place. Of keys that compare equal the last value stays.
///
/// A node of another kind is refused as `InvalidType` of that kind; else the first item that is refused
/// decides, those of equal keys too. An item is refused as a tuple of two is: an item of another kind as
/// `InvalidType`; else for its key or its value; else, for another length than 2, as `InvalidLength` of it.
impl<K: Keyed, V: Meant, KA: DeserializeAs<K>, VA: DeserializeAs<V>> DeserializeAs<BTreeMap<K, V>>
    for Seq<(KA, VA)> {
    ghost use Rattle.std.specs.Prelude.{false};
    ghost use Rattle.sw_core.specs.MapList.{map_list_reads, map_list_spot, map_list_skips};
    ghost use Rattle.sw_core.specs.Laws.MapList.{map_list_lawful};

    const FREE: bool = false;

    ghost FREE = { false };

    ghost reads = { map_list_reads K.order KA.reads KA.spot KA.skips VA.reads VA.spot VA.skips };

    ghost spot = { map_list_spot KA.reads KA.spot KA.skips VA.reads VA.spot VA.skips };

    ghost skips = { map_list_skips KA.reads KA.spot KA.skips VA.reads VA.spot VA.skips };

    fn deserialize_as(
        alloc: Global,
        view: View<'_>,
        mode: Mode,
        log: &mut Skipped,
    ) -> Result<BTreeMap<K, V>, DeFail> {
        <Vec<(KA, VA)> as DeserializeAs<BTreeMap<K, V>>>::deserialize_as(alloc, view, mode, log)
    }

    ghost lawful_reading = { map_list_lawful K.order K.ranks KA.skips KA.lawful_reading VA.skips VA.lawful_reading };
}

/// It is as faithful as its values, where its keys are exact: else two keys might be read as one.
impl<K: Keyed, V: Meant, KA: Adapter<K>, VA: Adapter<V>> Adapter<BTreeMap<K, V>> for Seq<(KA, VA)> {
    ghost use Rattle.std.specs.Prelude.{[], ◌∷◌};
    ghost use Rattle.sw_check.specs.Form.{pairs};
    ghost use Rattle.sw_core.specs.OrderedMap.{ordered_map_norm};
    ghost use Rattle.sw_core.specs.Tuple.{tuple_assumes};
    ghost use Rattle.sw_core.specs.Laws.MapList.{map_list_keeps};

    ghost expr = { pairs KA.expr VA.expr };

    ghost norm = { ordered_map_norm VA.norm };

    ghost assumes = { tuple_assumes (KA.assumes ∷ VA.assumes ∷ []) };

    fn describe(alloc: Global) -> Result<Expr, AllocError> {
        <Vec<(KA, VA)> as Adapter<BTreeMap<K, V>>>::describe(alloc)
    }

    ghost keeps = { map_list_keeps K.order K.ranks KA.keeps VA.keeps };
}

/// A list of the entries in ascending order of their keys, each a list of its key by `KA` and its value by
/// `VA`, both in value place. So the tree doesn't tell how the map is hashed.
///
/// The first part that isn't written decides, a key before its value. Without one, an entry of which the key
/// or value has 128 levels is `TooDeep`, and so is a list of which an entry has.
impl<K: Keyed, V: Meant, KA: SerializeAs<K>, VA: SerializeAs<V>> SerializeAs<HashMap<K, V>>
    for Seq<(KA, VA)> {
    ghost use Rattle.sw_core.specs.MapList.{map_list_writes};

    ghost writes = { map_list_writes KA.writes VA.writes };

    fn write_as<B: Builds>(
        alloc: Global,
        out: &mut B,
        source: &HashMap<K, V>,
        mode: Mode,
    ) -> Result<(), SerFail> {
        <Vec<(KA, VA)> as SerializeAs<HashMap<K, V>>>::write_as(alloc, out, source, mode)
    }
}

/// The entries of a list's items, each a list of two: its key by `KA`, then its value by `VA`, both in value
/// place. Of keys that compare equal the last value stays.
///
/// A node of another kind is refused as `InvalidType` of that kind; else the first item that is refused
/// decides, those of equal keys too. An item is refused as a tuple of two is: an item of another kind as
/// `InvalidType`; else for its key or its value; else, for another length than 2, as `InvalidLength` of it.
impl<K: Keyed, V: Meant, KA: DeserializeAs<K>, VA: DeserializeAs<V>> DeserializeAs<HashMap<K, V>>
    for Seq<(KA, VA)> {
    ghost use Rattle.std.specs.Prelude.{false};
    ghost use Rattle.sw_core.specs.MapList.{map_list_reads, map_list_spot, map_list_skips};
    ghost use Rattle.sw_core.specs.Laws.MapList.{map_list_lawful};

    const FREE: bool = false;

    ghost FREE = { false };

    ghost reads = { map_list_reads K.order KA.reads KA.spot KA.skips VA.reads VA.spot VA.skips };

    ghost spot = { map_list_spot KA.reads KA.spot KA.skips VA.reads VA.spot VA.skips };

    ghost skips = { map_list_skips KA.reads KA.spot KA.skips VA.reads VA.spot VA.skips };

    fn deserialize_as(
        alloc: Global,
        view: View<'_>,
        mode: Mode,
        log: &mut Skipped,
    ) -> Result<HashMap<K, V>, DeFail> {
        <Vec<(KA, VA)> as DeserializeAs<HashMap<K, V>>>::deserialize_as(alloc, view, mode, log)
    }

    ghost lawful_reading = { map_list_lawful K.order K.ranks KA.skips KA.lawful_reading VA.skips VA.lawful_reading };
}

/// It is as faithful as its values, where its keys are exact: else two keys might be read as one.
impl<K: Keyed, V: Meant, KA: Adapter<K>, VA: Adapter<V>> Adapter<HashMap<K, V>> for Seq<(KA, VA)> {
    ghost use Rattle.std.specs.Prelude.{[], ◌∷◌};
    ghost use Rattle.sw_check.specs.Form.{pairs};
    ghost use Rattle.sw_core.specs.OrderedMap.{ordered_map_norm};
    ghost use Rattle.sw_core.specs.Tuple.{tuple_assumes};
    ghost use Rattle.sw_core.specs.Laws.MapList.{map_list_keeps};

    ghost expr = { pairs KA.expr VA.expr };

    ghost norm = { ordered_map_norm VA.norm };

    ghost assumes = { tuple_assumes (KA.assumes ∷ VA.assumes ∷ []) };

    fn describe(alloc: Global) -> Result<Expr, AllocError> {
        <Vec<(KA, VA)> as Adapter<HashMap<K, V>>>::describe(alloc)
    }

    ghost keeps = { map_list_keeps K.order K.ranks KA.keeps VA.keeps };
}
