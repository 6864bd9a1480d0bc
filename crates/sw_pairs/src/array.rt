//! Arrays of pairs as maps of so many entries.

use crate::map::Map;
use std::alloc::{AllocError, Global};
use sw_check::expr::Expr;
use sw_core::adapter::{Adapter, DeserializeAs, SerializeAs};
use sw_core::entries::write_entries;
use sw_core::entry_array::read_so_many_entries;
use sw_tree::builds::Builds;
use sw_tree::fail::{DeFail, SerFail};
use sw_tree::meant::Meant;
use sw_tree::mode::Mode;
use sw_tree::skipped::Skipped;
use sw_tree::view::View;

/// A map of the pairs in order, each key by `KA` in key place, each value by `VA` in value place.
///
/// The first part that isn't written decides, a key before its value. Without one, a map of which a
/// key or value has 128 levels is `TooDeep`.
impl<T: Meant, U: Meant, KA: SerializeAs<T>, VA: SerializeAs<U>, const N: usize> SerializeAs<
    [(T, U); N],
> for Map<KA, VA> {
    ghost use Rattle.sw_core.specs.Entries.{entries_writes};

    ghost writes = { entries_writes KA.writes VA.writes };

    fn write_as<B: Builds>(
        alloc: Global,
        out: &mut B,
        source: &[(T, U); N],
        mode: Mode,
    ) -> Result<(), SerFail> {
        write_entries::<T, U, KA, VA, B>(alloc, out, source, mode)
    }
}

/// The pairs of a map's `N` entries in order, each key by `KA` in key place, then its value by `VA` in
/// value place.
///
/// A node of another kind is refused as `InvalidType` of that kind; else the first key or value of its
/// first `N` entries that is refused decides; without one, a map of another number of entries is refused
/// as `InvalidLength` of it, at the map.
impl<
    T: Meant + Copy + Default,
    U: Meant + Copy + Default,
    KA: DeserializeAs<T>,
    VA: DeserializeAs<U>,
    const N: usize,
> DeserializeAs<[(T, U); N]> for Map<KA, VA> {
    ghost use Rattle.std.specs.Prelude.{false};
    ghost use Rattle.sw_core.specs.EntryArray.{entry_array_reads, entry_array_spot, entry_array_skips};
    ghost use Rattle.sw_core.specs.Laws.EntryArray.{entry_array_lawful};

    const FREE: bool = false;

    ghost FREE = { false };

    ghost reads = { entry_array_reads N KA.reads KA.spot KA.skips VA.reads VA.spot VA.skips };

    ghost spot = { entry_array_spot N KA.reads KA.spot KA.skips VA.reads VA.spot VA.skips };

    ghost skips = { entry_array_skips N KA.reads KA.spot KA.skips VA.reads VA.spot VA.skips };

    fn deserialize_as(
        alloc: Global,
        view: View<'_>,
        mode: Mode,
        log: &mut Skipped,
    ) -> Result<[(T, U); N], DeFail> {
        read_so_many_entries::<T, U, KA, VA, N>(alloc, view, mode, log)
    }

    ghost lawful_reading = { entry_array_lawful N KA.skips KA.lawful_reading VA.skips VA.lawful_reading };
}

/// It is as faithful as its keys and values: the norm of a map has its keys' and values' norms.
impl<
    T: Meant + Copy + Default,
    U: Meant + Copy + Default,
    KA: Adapter<T>,
    VA: Adapter<U>,
    const N: usize,
> Adapter<[(T, U); N]> for Map<KA, VA> {
    ghost use Rattle.sw_check.specs.Form.{map};
    ghost use Rattle.sw_core.specs.Entries.{entries_norm};
    ghost use Rattle.sw_core.specs.Laws.EntryArray.{entry_array_keeps};

    ghost expr = { map KA.expr VA.expr };

    ghost norm = { entries_norm KA.norm VA.norm };

    ghost assumes = { KA.assumes × VA.assumes };

    fn describe(alloc: Global) -> Result<Expr, AllocError> {
        Expr::map(alloc, KA::describe(alloc)?, VA::describe(alloc)?)
    }

    ghost keeps = { entry_array_keeps N KA.keeps VA.keeps };
}
