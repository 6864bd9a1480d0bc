use std::alloc::{AllocError, Global};
use std::marker::PhantomData;
use sw_check::expr::Expr;
use sw_core::adapter::{Adapter, DeserializeAs, SerializeAs};
use sw_core::entries;
use sw_tree::builds::Builds;
use sw_tree::fail::{DeFail, SerFail};
use sw_tree::meant::Meant;
use sw_tree::mode::Mode;
use sw_tree::skipped::Skipped;
use sw_tree::view::View;

/// A collection of pairs as a map, as serde_with's `Map`. Keys go by `K`, values by `V`.
///
/// Every pair is kept, in the collection's order, those with equal keys too.
#[derive(PartialEq, Eq, PartialOrd, Ord, Hash)]
pub struct Map<K, V> {
    parts: PhantomData<(K, V)>,
}

/// A map of the pairs in order, each key by `K` in key place, each value by `V` in value place.
///
/// The first part that isn't written decides, a key before its value. Without one, a map of which a
/// key or value has 128 levels is `TooDeep`.
impl<T: Meant, U: Meant, K: SerializeAs<T>, V: SerializeAs<U>> SerializeAs<Vec<(T, U)>>
    for Map<K, V> {
    ghost use Rattle.sw_core.specs.Entries.{entries_writes};

    ghost writes = { entries_writes K.writes V.writes };

    fn write_as<B: Builds>(
        alloc: Global,
        out: &mut B,
        source: &Vec<(T, U)>,
        mode: Mode,
    ) -> Result<(), SerFail> {
        entries::write_entries::<T, U, K, V, B>(alloc, out, source.as_slice(), mode)
    }
}

/// The pairs of a map's entries in order, each key by `K` in key place, then its value by `V` in
/// value place. A node of another kind is refused as `InvalidType` of that kind; else the first key
/// or value that is refused decides.
impl<T: Meant, U: Meant, K: DeserializeAs<T>, V: DeserializeAs<U>> DeserializeAs<Vec<(T, U)>>
    for Map<K, V> {
    ghost use Rattle.std.specs.Prelude.{false};
    ghost use Rattle.sw_core.specs.Entries.{entries_reads, entries_spot, entries_skips};
    ghost use Rattle.sw_core.specs.Laws.Entries.{entries_lawful};

    const FREE: bool = false;

    ghost FREE = { false };

    ghost reads = { entries_reads K.reads K.spot K.skips V.reads V.spot V.skips };

    ghost spot = { entries_spot K.reads K.spot K.skips V.reads V.spot V.skips };

    ghost skips = { entries_skips K.reads K.spot K.skips V.reads V.spot V.skips };

    fn deserialize_as(
        alloc: Global,
        view: View<'_>,
        mode: Mode,
        log: &mut Skipped,
    ) -> Result<Vec<(T, U)>, DeFail> {
        entries::read_entries::<T, U, K, V>(alloc, view, mode, log)
    }

    ghost lawful_reading = { entries_lawful K.skips K.lawful_reading V.skips V.lawful_reading };
}

/// It is as faithful as its keys and values: the norm of a map has its keys' and values' norms.
impl<T: Meant, U: Meant, K: Adapter<T>, V: Adapter<U>> Adapter<Vec<(T, U)>> for Map<K, V> {
    ghost use Rattle.sw_check.specs.Form.{map};
    ghost use Rattle.sw_core.specs.Entries.{entries_norm};
    ghost use Rattle.sw_core.specs.Laws.Entries.{entries_keeps};

    ghost expr = { map K.expr V.expr };

    ghost norm = { entries_norm K.norm V.norm };

    ghost assumes = { K.assumes × V.assumes };

    fn describe(alloc: Global) -> Result<Expr, AllocError> {
        Expr::map(alloc, K::describe(alloc)?, V::describe(alloc)?)
    }

    ghost keeps = { entries_keeps K.keeps V.keeps };
}
