//! Lists of pairs as maps, under the names of std's maps: every pair is kept, in order, those with equal
//! keys too.

use crate::adapter::{Adapter, DeserializeAs, SerializeAs};
use crate::entries;
use std::alloc::{AllocError, Global};
use std::collections::{BTreeMap, HashMap};
use std::hash::Hash;
use sw_check::expr::Expr;
use sw_tree::builds::Builds;
use sw_tree::fail::{DeFail, SerFail};
use sw_tree::meant::Meant;
use sw_tree::mode::Mode;
use sw_tree::skipped::Skipped;
use sw_tree::view::View;

/// A map of the pairs in order, each key by `KA` in key place, each value by `VA` in value place.
///
/// The first part that isn't written decides, a key before its value. Without one, a map of which a
/// key or value has 128 levels is `TooDeep`.
impl<T: Meant, U: Meant, KA: SerializeAs<T> + Ord, VA: SerializeAs<U>> SerializeAs<Vec<(T, U)>>
    for BTreeMap<KA, VA> {
    ghost use Rattle.sw_core.specs.Entries.{entries_writes};

    ghost writes = { entries_writes KA.writes VA.writes };

    fn write_as<B: Builds>(
        alloc: Global,
        out: &mut B,
        source: &Vec<(T, U)>,
        mode: Mode,
    ) -> Result<(), SerFail> {
        entries::write_entries::<T, U, KA, VA, B>(alloc, out, source.as_slice(), mode)
    }
}

/// The pairs of a map's entries in order, each key by `KA` in key place, then its value by `VA` in
/// value place. A node of another kind is refused as `InvalidType` of that kind; else the first key
/// or value that is refused decides.
impl<T: Meant, U: Meant, KA: DeserializeAs<T> + Ord, VA: DeserializeAs<U>> DeserializeAs<
    Vec<(T, U)>,
> for BTreeMap<KA, VA> {
    ghost use Rattle.std.specs.Prelude.{false};
    ghost use Rattle.sw_core.specs.Entries.{entries_reads, entries_spot, entries_skips};
    ghost use Rattle.sw_core.specs.Laws.Entries.{entries_lawful};

    const FREE: bool = false;

    ghost FREE = { false };

    ghost reads = { entries_reads KA.reads KA.spot KA.skips VA.reads VA.spot VA.skips };

    ghost spot = { entries_spot KA.reads KA.spot KA.skips VA.reads VA.spot VA.skips };

    ghost skips = { entries_skips KA.reads KA.spot KA.skips VA.reads VA.spot VA.skips };

    fn deserialize_as(
        alloc: Global,
        view: View<'_>,
        mode: Mode,
        log: &mut Skipped,
    ) -> Result<Vec<(T, U)>, DeFail> {
        entries::read_entries::<T, U, KA, VA>(alloc, view, mode, log)
    }

    ghost lawful_reading = { entries_lawful KA.skips KA.lawful_reading VA.skips VA.lawful_reading };
}

/// It is as faithful as its keys and values: the norm of a map has its keys' and values' norms.
impl<T: Meant, U: Meant, KA: Adapter<T> + Ord, VA: Adapter<U>> Adapter<Vec<(T, U)>>
    for BTreeMap<KA, VA> {
    ghost use Rattle.sw_check.specs.Form.{map};
    ghost use Rattle.sw_core.specs.Entries.{entries_norm};
    ghost use Rattle.sw_core.specs.Laws.Entries.{entries_keeps};

    ghost expr = { map KA.expr VA.expr };

    ghost norm = { entries_norm KA.norm VA.norm };

    ghost assumes = { KA.assumes × VA.assumes };

    fn describe(alloc: Global) -> Result<Expr, AllocError> {
        Expr::map(alloc, KA::describe(alloc)?, VA::describe(alloc)?)
    }

    ghost keeps = { entries_keeps KA.keeps VA.keeps };
}

/// A map of the pairs in order and not by their hashes, each key by `KA` in key place, each value by `VA` in value place.
///
/// The first part that isn't written decides, a key before its value. Without one, a map of which a
/// key or value has 128 levels is `TooDeep`.
impl<T: Meant, U: Meant, KA: SerializeAs<T> + Eq + Hash, VA: SerializeAs<U>> SerializeAs<
    Vec<(T, U)>,
> for HashMap<KA, VA> {
    ghost use Rattle.sw_core.specs.Entries.{entries_writes};

    ghost writes = { entries_writes KA.writes VA.writes };

    fn write_as<B: Builds>(
        alloc: Global,
        out: &mut B,
        source: &Vec<(T, U)>,
        mode: Mode,
    ) -> Result<(), SerFail> {
        entries::write_entries::<T, U, KA, VA, B>(alloc, out, source.as_slice(), mode)
    }
}

/// The pairs of a map's entries in order, each key by `KA` in key place, then its value by `VA` in
/// value place. A node of another kind is refused as `InvalidType` of that kind; else the first key
/// or value that is refused decides.
impl<T: Meant, U: Meant, KA: DeserializeAs<T> + Eq + Hash, VA: DeserializeAs<U>> DeserializeAs<
    Vec<(T, U)>,
> for HashMap<KA, VA> {
    ghost use Rattle.std.specs.Prelude.{false};
    ghost use Rattle.sw_core.specs.Entries.{entries_reads, entries_spot, entries_skips};
    ghost use Rattle.sw_core.specs.Laws.Entries.{entries_lawful};

    const FREE: bool = false;

    ghost FREE = { false };

    ghost reads = { entries_reads KA.reads KA.spot KA.skips VA.reads VA.spot VA.skips };

    ghost spot = { entries_spot KA.reads KA.spot KA.skips VA.reads VA.spot VA.skips };

    ghost skips = { entries_skips KA.reads KA.spot KA.skips VA.reads VA.spot VA.skips };

    fn deserialize_as(
        alloc: Global,
        view: View<'_>,
        mode: Mode,
        log: &mut Skipped,
    ) -> Result<Vec<(T, U)>, DeFail> {
        entries::read_entries::<T, U, KA, VA>(alloc, view, mode, log)
    }

    ghost lawful_reading = { entries_lawful KA.skips KA.lawful_reading VA.skips VA.lawful_reading };
}

/// It is as faithful as its keys and values: the norm of a map has its keys' and values' norms.
impl<T: Meant, U: Meant, KA: Adapter<T> + Eq + Hash, VA: Adapter<U>> Adapter<Vec<(T, U)>>
    for HashMap<KA, VA> {
    ghost use Rattle.sw_check.specs.Form.{map};
    ghost use Rattle.sw_core.specs.Entries.{entries_norm};
    ghost use Rattle.sw_core.specs.Laws.Entries.{entries_keeps};

    ghost expr = { map KA.expr VA.expr };

    ghost norm = { entries_norm KA.norm VA.norm };

    ghost assumes = { KA.assumes × VA.assumes };

    fn describe(alloc: Global) -> Result<Expr, AllocError> {
        Expr::map(alloc, KA::describe(alloc)?, VA::describe(alloc)?)
    }

    ghost keeps = { entries_keeps KA.keeps VA.keeps };
}
