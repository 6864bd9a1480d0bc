#![tactic(auto, using(sw_tree::specs::Laws::Logs::gains))]

ghost use Rattle.sw_tree.specs.Building.{IsPut};
ghost use Rattle.sw_tree.specs.Meant.{list_meaning, pair_meaning};
ghost use Rattle.sw_tree.specs.Sorted.{sort_onto};
ghost use Rattle.std.specs.Prelude.{◌≡◌, [], IfOk};
ghost use Rattle.sw_core.specs.Entries.{entries_writes};

use crate::adapter::{Adapter, DeserializeAs, SerializeAs};
use crate::entries;
use std::alloc::{AllocError, Global};
use std::collections::BTreeMap;
use sw_check::expr::Expr;
use sw_tree::builds::Builds;
use sw_tree::fail::{DeFail, SerFail};
use sw_tree::meant::Meant;
use sw_tree::mode::Mode;
use sw_tree::ranked::Keyed;
use sw_tree::skipped::Skipped;
use sw_tree::view::View;

/// A map of the entries in ascending order of their keys, each key by `KA` in key place, then its
/// value by `VA` in value place.
///
/// The first part that isn't written decides, a key before its value. Without one, a map of which a
/// key or value has 128 levels is `TooDeep`.
impl<K: Keyed, V: Meant, KA: SerializeAs<K> + Ord, VA: SerializeAs<V>> SerializeAs<BTreeMap<K, V>>
    for BTreeMap<KA, VA> {
    ghost writes = { entries_writes KA.writes VA.writes };

    fn write_as<B: Builds>(
        alloc: Global,
        out: &mut B,
        source: &BTreeMap<K, V>,
        mode: Mode,
    ) -> Result<(), SerFail> {
        write_in_order::<K, V, KA, VA, B>(alloc, out, source, mode)
    }
}

/// The entries of a map, each key by `KA` in key place, then its value by `VA` in value place. Of
/// keys that compare equal the last value stays.
///
/// A node of another kind is refused as `InvalidType` of that kind; else the first key or value that
/// is refused decides, those of equal keys too.
impl<K: Keyed, V: Meant, KA: DeserializeAs<K> + Ord, VA: DeserializeAs<V>> DeserializeAs<
    BTreeMap<K, V>,
> for BTreeMap<KA, VA> {
    ghost use Rattle.std.specs.Prelude.{false};
    ghost use Rattle.sw_core.specs.Entries.{entries_spot, entries_skips};
    ghost use Rattle.sw_core.specs.OrderedMap.{ordered_map_reads};
    ghost use Rattle.sw_core.specs.Laws.OrderedMap.{ordered_map_lawful};

    const FREE: bool = false;

    ghost FREE = { false };

    ghost reads = { ordered_map_reads K.order KA.reads KA.spot KA.skips VA.reads VA.spot VA.skips };

    ghost spot = { entries_spot KA.reads KA.spot KA.skips VA.reads VA.spot VA.skips };

    ghost skips = { entries_skips KA.reads KA.spot KA.skips VA.reads VA.spot VA.skips };

    fn deserialize_as(
        alloc: Global,
        view: View<'_>,
        mode: Mode,
        log: &mut Skipped,
    ) -> Result<BTreeMap<K, V>, DeFail> {
        let pairs = entries::read_entries::<K, V, KA, VA>(alloc, view, mode, log)?;
        Ok(put_in_order(alloc, pairs)?)
    }

    ghost lawful_reading = { ordered_map_lawful K.order K.ranks KA.skips KA.lawful_reading VA.skips VA.lawful_reading };
}

/// It is as faithful as its values, where its keys are exact: else two keys might be read as one.
impl<K: Keyed, V: Meant, KA: Adapter<K> + Ord, VA: Adapter<V>> Adapter<BTreeMap<K, V>>
    for BTreeMap<KA, VA> {
    ghost use Rattle.sw_check.specs.Form.{key_map};
    ghost use Rattle.sw_core.specs.OrderedMap.{ordered_map_norm};
    ghost use Rattle.sw_core.specs.Laws.OrderedMap.{ordered_map_keeps};

    ghost expr = { key_map KA.expr VA.expr };

    ghost norm = { ordered_map_norm VA.norm };

    ghost assumes = { KA.assumes × VA.assumes };

    fn describe(alloc: Global) -> Result<Expr, AllocError> {
        Expr::key_map(alloc, KA::describe(alloc)?, VA::describe(alloc)?)
    }

    ghost keeps = { ordered_map_keeps K.order K.ranks KA.keeps VA.keeps };
}

/// Puts in the map of these entries, in their order.
fn write_in_order<K: Keyed, V: Meant, KA: SerializeAs<K>, VA: SerializeAs<V>, B: Builds>(
    alloc: Global,
    out: &mut B,
    source: &BTreeMap<K, V>,
    mode: Mode,
) -> Result<(), SerFail>
    ensures { IsPut B.put result (entries_writes KA.writes VA.writes mode (list_meaning (pair_meaning K.meaning V.meaning) source.now.entries)) out.old out.new }
{
    out.open_map(source.len())?;
    for (key, value) in source.iter() {
        KA::write_as(alloc, out, key, mode.key())?;
        VA::write_as(alloc, out, value, mode.value())?;
    }
    out.close()
}

/// The map into which these pairs are put in turn.
pub fn put_in_order<K: Keyed, V: Meant>(
    alloc: Global,
    pairs: Vec<(K, V)>,
) -> Result<BTreeMap<K, V>, AllocError>
    ensures { IfOk result (λ map. map.entries ≡ sort_onto K.cmp [] pairs.items) }
{
    let mut map = BTreeMap::new(alloc);
    for (key, value) in pairs {
        if map.insert(key, value).is_err() {
            return Err(AllocError);
        }
    }
    Ok(map)
}
