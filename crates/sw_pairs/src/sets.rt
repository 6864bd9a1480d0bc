#![tactic(auto, using(sw_tree::specs::Laws::Logs::gains))]

use crate::each;
use crate::map::Map;
use std::alloc::{AllocError, Global};
use std::collections::{BTreeSet, HashSet};
use std::hash::Hash;
use sw_check::expr::Expr;
use sw_core::adapter::{Adapter, DeserializeAs, SerializeAs};
use sw_core::entries;
use sw_core::hashed_set::{hashed, in_order};
use sw_core::ordered_set::put_in_order;
use sw_tree::builds::Builds;
use sw_tree::fail::{DeFail, SerFail};
use sw_tree::mode::Mode;
use sw_tree::ranked::Ranked;
use sw_tree::skipped::Skipped;
use sw_tree::view::View;

/// A map of the pairs in ascending order, by their keys and then by their values, each key by `K` in
/// key place, each value by `V` in value place.
///
/// The first part that isn't written decides, a key before its value. Without one, a map of which a
/// key or value has 128 levels is `TooDeep`.
impl<T: Ranked, U: Ranked, K: SerializeAs<T>, V: SerializeAs<U>> SerializeAs<BTreeSet<(T, U)>>
    for Map<K, V> {
    ghost use Rattle.sw_core.specs.Entries.{entries_writes};

    ghost writes = { entries_writes K.writes V.writes };

    fn write_as<B: Builds>(
        alloc: Global,
        out: &mut B,
        source: &BTreeSet<(T, U)>,
        mode: Mode,
    ) -> Result<(), SerFail> {
        each::write_pairs::<T, U, K, V, B, _>(alloc, out, source.len(), source.iter(), mode)
    }
}

/// The set of the pairs of a map's entries, each key by `K` in key place, then its value by `V` in
/// value place. Entries with equal keys are kept; of those whose values are equal too the first stays.
///
/// A node of another kind is refused as `InvalidType` of that kind; else the first key or value that
/// is refused decides, those of equal entries too.
impl<T: Ranked, U: Ranked, K: DeserializeAs<T>, V: DeserializeAs<U>> DeserializeAs<BTreeSet<(T, U)>>
    for Map<K, V> {
    ghost use Rattle.std.specs.Prelude.{false};
    ghost use Rattle.sw_core.specs.Entries.{entries_spot, entries_skips};
    ghost use Rattle.sw_pairs.specs.PairSet.{pair_set_reads};
    ghost use Rattle.sw_pairs.specs.Laws.PairSet.{pair_set_lawful};

    const FREE: bool = false;

    ghost FREE = { false };

    ghost reads = { pair_set_reads T.order U.order K.reads K.spot K.skips V.reads V.spot V.skips };

    ghost spot = { entries_spot K.reads K.spot K.skips V.reads V.spot V.skips };

    ghost skips = { entries_skips K.reads K.spot K.skips V.reads V.spot V.skips };

    fn deserialize_as(
        alloc: Global,
        view: View<'_>,
        mode: Mode,
        log: &mut Skipped,
    ) -> Result<BTreeSet<(T, U)>, DeFail> {
        let pairs = entries::read_entries::<T, U, K, V>(alloc, view, mode, log)?;
        Ok(put_in_order(alloc, pairs)?)
    }

    ghost lawful_reading = { pair_set_lawful T.order T.ranks U.order U.ranks K.skips K.lawful_reading V.skips V.lawful_reading };
}

/// It is faithful where its keys and values are exact: else two of its pairs might be read as one.
impl<T: Ranked, U: Ranked, K: Adapter<T>, V: Adapter<U>> Adapter<BTreeSet<(T, U)>> for Map<K, V> {
    ghost use Rattle.sw_check.specs.Form.{map_set};
    ghost use Rattle.sw_elem.specs.Lawful.{same_norm};
    ghost use Rattle.sw_pairs.specs.Laws.PairSet.{pair_set_keeps};

    ghost expr = { map_set K.expr V.expr };

    ghost norm = { same_norm };

    ghost assumes = { K.assumes × V.assumes };

    fn describe(alloc: Global) -> Result<Expr, AllocError> {
        Expr::map_set(alloc, K::describe(alloc)?, V::describe(alloc)?)
    }

    ghost keeps = { pair_set_keeps T.order T.ranks U.order U.ranks K.keeps V.keeps };
}

/// A map of the pairs in ascending order, by their keys and then by their values, each key by `K` in
/// key place, each value by `V` in value place. So the tree doesn't tell how the set is hashed.
///
/// The first part that isn't written decides, a key before its value. Without one, a map of which a
/// key or value has 128 levels is `TooDeep`.
impl<T: Ranked + Hash, U: Ranked + Hash, K: SerializeAs<T>, V: SerializeAs<U>> SerializeAs<
    HashSet<(T, U)>,
> for Map<K, V> {
    ghost use Rattle.sw_core.specs.Entries.{entries_writes};

    ghost writes = { entries_writes K.writes V.writes };

    fn write_as<B: Builds>(
        alloc: Global,
        out: &mut B,
        source: &HashSet<(T, U)>,
        mode: Mode,
    ) -> Result<(), SerFail> {
        let sorted = in_order(alloc, source)?;
        each::write_pairs::<T, U, K, V, B, _>(alloc, out, sorted.len(), sorted.into_iter(), mode)
    }
}

/// The set of the pairs of a map's entries, each key by `K` in key place, then its value by `V` in
/// value place. Entries with equal keys are kept; of those whose values are equal too the first stays.
///
/// A node of another kind is refused as `InvalidType` of that kind; else the first key or value that
/// is refused decides, those of equal entries too.
impl<T: Ranked + Hash, U: Ranked + Hash, K: DeserializeAs<T>, V: DeserializeAs<U>> DeserializeAs<
    HashSet<(T, U)>,
> for Map<K, V> {
    ghost use Rattle.std.specs.Prelude.{false};
    ghost use Rattle.sw_core.specs.Entries.{entries_spot, entries_skips};
    ghost use Rattle.sw_pairs.specs.PairSet.{pair_set_reads};
    ghost use Rattle.sw_pairs.specs.Laws.PairSet.{pair_set_lawful};

    const FREE: bool = false;

    ghost FREE = { false };

    ghost reads = { pair_set_reads T.order U.order K.reads K.spot K.skips V.reads V.spot V.skips };

    ghost spot = { entries_spot K.reads K.spot K.skips V.reads V.spot V.skips };

    ghost skips = { entries_skips K.reads K.spot K.skips V.reads V.spot V.skips };

    fn deserialize_as(
        alloc: Global,
        view: View<'_>,
        mode: Mode,
        log: &mut Skipped,
    ) -> Result<HashSet<(T, U)>, DeFail> {
        let pairs = entries::read_entries::<T, U, K, V>(alloc, view, mode, log)?;
        Ok(hashed(alloc, pairs)?)
    }

    ghost lawful_reading = { pair_set_lawful T.order T.ranks U.order U.ranks K.skips K.lawful_reading V.skips V.lawful_reading };
}

/// It is faithful where its keys and values are exact: else two of its pairs might be read as one.
impl<T: Ranked + Hash, U: Ranked + Hash, K: Adapter<T>, V: Adapter<U>> Adapter<HashSet<(T, U)>>
    for Map<K, V> {
    ghost use Rattle.sw_check.specs.Form.{map_set};
    ghost use Rattle.sw_elem.specs.Lawful.{same_norm};
    ghost use Rattle.sw_pairs.specs.Laws.PairSet.{pair_set_keeps};

    ghost expr = { map_set K.expr V.expr };

    ghost norm = { same_norm };

    ghost assumes = { K.assumes × V.assumes };

    fn describe(alloc: Global) -> Result<Expr, AllocError> {
        <Map<K, V> as Adapter<BTreeSet<(T, U)>>>::describe(alloc)
    }

    ghost keeps = { pair_set_keeps T.order T.ranks U.order U.ranks K.keeps V.keeps };
}
