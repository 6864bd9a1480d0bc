//! Maps as lists of their entries, each a list of two, under the name of std's list of tuples.
#![tactic(auto, using(sw_tree::specs::Laws::Logs::gains))]

ghost use Rattle.std.specs.Iterator.{IsFinite};
ghost use Rattle.std.specs.Map.Iter.{deref_pair};
ghost use Rattle.std.specs.Prelude.{List, [], ◌∷◌};
ghost use Rattle.sw_tree.specs.Building.{IsBuilt, IsPut};
ghost use Rattle.sw_tree.specs.Meant.{list_meaning, pair_meaning};
ghost use Rattle.sw_core.specs.Inner.Iterated.{Iterates};
ghost use Rattle.sw_core.specs.Inner.Putting.{all_put};
ghost use Rattle.sw_core.specs.MapList.{map_list_writes};
ghost use Rattle.sw_core.specs.Tuple.{tuple_writes};

use crate::adapter::{Adapter, DeserializeAs, SerializeAs};
use crate::each;
use crate::hashed_map::{by_key, hashed};
use crate::ordered_map::put_in_order;
use crate::parts::write_tuple;
use std::alloc::{AllocError, Global};
use std::collections::{BTreeMap, HashMap};
use sw_check::expr::Expr;
use sw_tree::builds::Builds;
use sw_tree::fail::{DeFail, SerFail};
use sw_tree::meant::Meant;
use sw_tree::mode::Mode;
use sw_tree::ranked::Keyed;
use sw_tree::skipped::Skipped;
use sw_tree::view::View;

/// A list of the entries in ascending order of their keys, each a list of its key by `KA` and its value by
/// `VA`, both in value place.
///
/// The first part that isn't written decides, a key before its value. Without one, an entry of which the key
/// or value has 128 levels is `TooDeep`, and so is a list of which an entry has.
impl<K: Keyed, V: Meant, KA: SerializeAs<K>, VA: SerializeAs<V>> SerializeAs<BTreeMap<K, V>>
    for Vec<(KA, VA)> {
    ghost writes = { map_list_writes KA.writes VA.writes };

    fn write_as<B: Builds>(
        alloc: Global,
        out: &mut B,
        source: &BTreeMap<K, V>,
        mode: Mode,
    ) -> Result<(), SerFail> {
        write_tuples::<K, V, KA, VA, B, _>(alloc, out, source.len(), source.iter(), mode)
    }
}

/// The entries of a list's items, each a list of two: its key by `KA`, then its value by `VA`, both in value
/// place. Of keys that compare equal the last value stays.
///
/// A node of another kind is refused as `InvalidType` of that kind; else the first item that is refused
/// decides, those of equal keys too. An item is refused as a tuple of two is: an item of another kind as
/// `InvalidType`; else for its key or its value; else, for another length than 2, as `InvalidLength` of it.
impl<K: Keyed, V: Meant, KA: DeserializeAs<K>, VA: DeserializeAs<V>> DeserializeAs<BTreeMap<K, V>>
    for Vec<(KA, VA)> {
    ghost use Rattle.std.specs.Prelude.{false};
    ghost use Rattle.sw_core.specs.MapList.{map_list_reads, map_list_spot, map_list_skips};
    ghost use Rattle.sw_core.specs.Laws.MapList.{map_list_lawful};

    const FREE: bool = false;

    ghost FREE = { false };

    ghost reads = { map_list_reads K.order KA.reads KA.spot KA.skips VA.reads VA.spot VA.skips };

    ghost spot = { map_list_spot KA.reads KA.spot KA.skips VA.reads VA.spot VA.skips };

    ghost skips = { map_list_skips KA.reads KA.spot KA.skips VA.reads VA.spot VA.skips };

    fn deserialize_as(
        alloc: Global,
        view: View<'_>,
        mode: Mode,
        log: &mut Skipped,
    ) -> Result<BTreeMap<K, V>, DeFail> {
        let pairs = each::read_list::<(K, V), (KA, VA)>(alloc, view, mode, log)?;
        Ok(put_in_order(alloc, pairs)?)
    }

    ghost lawful_reading = { map_list_lawful K.order K.ranks KA.skips KA.lawful_reading VA.skips VA.lawful_reading };
}

/// It is as faithful as its values, where its keys are exact: else two keys might be read as one.
impl<K: Keyed, V: Meant, KA: Adapter<K>, VA: Adapter<V>> Adapter<BTreeMap<K, V>> for Vec<(KA, VA)> {
    ghost use Rattle.sw_check.specs.Form.{pairs};
    ghost use Rattle.sw_core.specs.OrderedMap.{ordered_map_norm};
    ghost use Rattle.sw_core.specs.Tuple.{tuple_assumes};
    ghost use Rattle.sw_core.specs.Laws.MapList.{map_list_keeps};

    ghost expr = { pairs KA.expr VA.expr };

    ghost norm = { ordered_map_norm VA.norm };

    ghost assumes = { tuple_assumes (KA.assumes ∷ VA.assumes ∷ []) };

    fn describe(alloc: Global) -> Result<Expr, AllocError> {
        Expr::pairs(alloc, KA::describe(alloc)?, VA::describe(alloc)?)
    }

    ghost keeps = { map_list_keeps K.order K.ranks KA.keeps VA.keeps };
}

/// A list of the entries in ascending order of their keys, each a list of its key by `KA` and its value by
/// `VA`, both in value place. So the tree doesn't tell how the map is hashed.
///
/// The first part that isn't written decides, a key before its value. Without one, an entry of which the key
/// or value has 128 levels is `TooDeep`, and so is a list of which an entry has.
impl<K: Keyed, V: Meant, KA: SerializeAs<K>, VA: SerializeAs<V>> SerializeAs<HashMap<K, V>>
    for Vec<(KA, VA)> {
    ghost writes = { map_list_writes KA.writes VA.writes };

    fn write_as<B: Builds>(
        alloc: Global,
        out: &mut B,
        source: &HashMap<K, V>,
        mode: Mode,
    ) -> Result<(), SerFail> {
        let sorted = by_key(alloc, source)?;
        write_tuples::<K, V, KA, VA, B, _>(alloc, out, sorted.len(), sorted.into_iter(), mode)
    }
}

/// The entries of a list's items, each a list of two: its key by `KA`, then its value by `VA`, both in value
/// place. Of keys that compare equal the last value stays.
///
/// A node of another kind is refused as `InvalidType` of that kind; else the first item that is refused
/// decides, those of equal keys too. An item is refused as a tuple of two is: an item of another kind as
/// `InvalidType`; else for its key or its value; else, for another length than 2, as `InvalidLength` of it.
impl<K: Keyed, V: Meant, KA: DeserializeAs<K>, VA: DeserializeAs<V>> DeserializeAs<HashMap<K, V>>
    for Vec<(KA, VA)> {
    ghost use Rattle.std.specs.Prelude.{false};
    ghost use Rattle.sw_core.specs.MapList.{map_list_reads, map_list_spot, map_list_skips};
    ghost use Rattle.sw_core.specs.Laws.MapList.{map_list_lawful};

    const FREE: bool = false;

    ghost FREE = { false };

    ghost reads = { map_list_reads K.order KA.reads KA.spot KA.skips VA.reads VA.spot VA.skips };

    ghost spot = { map_list_spot KA.reads KA.spot KA.skips VA.reads VA.spot VA.skips };

    ghost skips = { map_list_skips KA.reads KA.spot KA.skips VA.reads VA.spot VA.skips };

    fn deserialize_as(
        alloc: Global,
        view: View<'_>,
        mode: Mode,
        log: &mut Skipped,
    ) -> Result<HashMap<K, V>, DeFail> {
        let pairs = each::read_list::<(K, V), (KA, VA)>(alloc, view, mode, log)?;
        Ok(hashed(alloc, pairs)?)
    }

    ghost lawful_reading = { map_list_lawful K.order K.ranks KA.skips KA.lawful_reading VA.skips VA.lawful_reading };
}

/// It is as faithful as its values, where its keys are exact: else two keys might be read as one.
impl<K: Keyed, V: Meant, KA: Adapter<K>, VA: Adapter<V>> Adapter<HashMap<K, V>> for Vec<(KA, VA)> {
    ghost use Rattle.sw_check.specs.Form.{pairs};
    ghost use Rattle.sw_core.specs.OrderedMap.{ordered_map_norm};
    ghost use Rattle.sw_core.specs.Tuple.{tuple_assumes};
    ghost use Rattle.sw_core.specs.Laws.MapList.{map_list_keeps};

    ghost expr = { pairs KA.expr VA.expr };

    ghost norm = { ordered_map_norm VA.norm };

    ghost assumes = { tuple_assumes (KA.assumes ∷ VA.assumes ∷ []) };

    fn describe(alloc: Global) -> Result<Expr, AllocError> {
        Expr::pairs(alloc, KA::describe(alloc)?, VA::describe(alloc)?)
    }

    ghost keeps = { map_list_keeps K.order K.ranks KA.keeps VA.keeps };
}

/// Puts in the list of these entries, each a tuple of two. `count` is how many they are, and decides
/// nothing.
fn write_tuples<
    'a,
    K: Meant + 'a,
    V: Meant + 'a,
    KA: SerializeAs<K>,
    VA: SerializeAs<V>,
    B: Builds,
    I: Iterator<Item = (&'a K, &'a V)>,
>(alloc: Global, out: &mut B, count: usize, entries: I, mode: Mode) -> Result<(), SerFail>
    requires can { I.can_next entries }
    requires ends { IsFinite (I.remaining entries) }
    ensures { (es : List (K × V)) → Iterates deref_pair I.next_gives es entries → IsPut B.put result (map_list_writes KA.writes VA.writes mode (list_meaning (pair_meaning K.meaning V.meaning) es)) out.old out.new }
{
    out.open_list(count)?;
    put_tuples::<K, V, KA, VA, B, I>(alloc, out, entries, mode.value())?;
    out.close()
}

/// Puts in these entries one after another, each a tuple of two.
fn put_tuples<
    'a,
    K: Meant + 'a,
    V: Meant + 'a,
    KA: SerializeAs<K>,
    VA: SerializeAs<V>,
    B: Builds,
    I: Iterator<Item = (&'a K, &'a V)>,
>(alloc: Global, out: &mut B, entries: I, mode: Mode) -> Result<(), SerFail>
    requires can { I.can_next entries }
    requires ends { IsFinite (I.remaining entries) }
    ensures { (es : List (K × V)) → Iterates deref_pair I.next_gives es entries → IsBuilt result (all_put B.put (λ e. tuple_writes (KA.writes ∷ VA.writes ∷ []) mode (pair_meaning K.meaning V.meaning e)) es out.old) out.new }
{
    for (key, value) in entries {
        write_tuple::<(&K, (&V, ())), (KA, (VA, ())), B>(alloc, out, 2, (key, (value, ())), mode)?;
    }
    Ok(())
}
