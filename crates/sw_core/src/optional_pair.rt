//! Optional pairs as maps of one entry or none, under the names of std's maps.
#![tactic(auto, using(sw_tree::specs::Laws::Logs::gains))]

ghost use Rattle.sw_tree.specs.Building.{IsPut};
ghost use Rattle.sw_tree.specs.Meant.{option_meaning, pair_meaning};
ghost use Rattle.sw_tree.specs.Placed.{placed, placed_notes};
ghost use Rattle.sw_tree.specs.Inner.View.{seen, tree_of};
ghost use Rattle.sw_elem.specs.Answers.{IsRead, IsLogged};
ghost use Rattle.sw_core.specs.OptionalPair.{optional_pair_writes, optional_pair_reads, optional_pair_spot, optional_pair_skips};

use crate::adapter::{Adapter, DeserializeAs, SerializeAs};
use crate::entries::read_entry;
use std::alloc::{AllocError, Global};
use std::collections::{BTreeMap, HashMap};
use std::hash::Hash;
use sw_check::expr::Expr;
use sw_elem::refuse::refused_at;
use sw_tree::builds::Builds;
use sw_tree::fail::{DeError, DeFail, SerFail};
use sw_tree::meant::Meant;
use sw_tree::mode::Mode;
use sw_tree::skipped::Skipped;
use sw_tree::view::View;

/// A map of the one pair, its key by `KA` in key place, its value by `VA` in value place; an empty
/// map for `None`.
///
/// The first part that isn't written decides, the key before its value. Without one, a map of which
/// the key or value has 128 levels is `TooDeep`.
impl<T: Meant, U: Meant, KA: SerializeAs<T> + Ord, VA: SerializeAs<U>> SerializeAs<Option<(T, U)>>
    for BTreeMap<KA, VA> {
    ghost writes = { optional_pair_writes KA.writes VA.writes };

    fn write_as<B: Builds>(
        alloc: Global,
        out: &mut B,
        source: &Option<(T, U)>,
        mode: Mode,
    ) -> Result<(), SerFail> {
        write_optional::<T, U, KA, VA, B>(alloc, out, source, mode)
    }
}

/// The pair of a map's one entry, its key by `KA` in key place, then its value by `VA` in value
/// place; `None` of an empty map.
///
/// A node of another kind is refused as `InvalidType` of that kind. Of more entries the first is read
/// alone: where its key or value is refused, that decides, and else `InvalidLength` of their number.
impl<T: Meant, U: Meant, KA: DeserializeAs<T> + Ord, VA: DeserializeAs<U>> DeserializeAs<
    Option<(T, U)>,
> for BTreeMap<KA, VA> {
    ghost use Rattle.std.specs.Prelude.{false};
    ghost use Rattle.sw_core.specs.Laws.OptionalPair.{optional_pair_lawful};

    const FREE: bool = false;

    ghost FREE = { false };

    ghost reads = { optional_pair_reads KA.reads KA.spot KA.skips VA.reads VA.spot VA.skips };

    ghost spot = { optional_pair_spot KA.reads KA.spot KA.skips VA.reads VA.spot VA.skips };

    ghost skips = { optional_pair_skips KA.reads KA.spot KA.skips VA.reads VA.spot VA.skips };

    fn deserialize_as(
        alloc: Global,
        view: View<'_>,
        mode: Mode,
        log: &mut Skipped,
    ) -> Result<Option<(T, U)>, DeFail> {
        read_optional::<T, U, KA, VA>(alloc, view, mode, log)
    }

    ghost lawful_reading = { optional_pair_lawful KA.skips KA.lawful_reading VA.skips VA.lawful_reading };
}

/// It is as faithful as its key and value: the norm of the pair has their norms.
impl<T: Meant, U: Meant, KA: Adapter<T> + Ord, VA: Adapter<U>> Adapter<Option<(T, U)>>
    for BTreeMap<KA, VA> {
    ghost use Rattle.sw_check.specs.Form.{map};
    ghost use Rattle.sw_core.specs.OptionalPair.{optional_pair_norm};
    ghost use Rattle.sw_core.specs.Laws.OptionalPair.{optional_pair_keeps};

    ghost expr = { map KA.expr VA.expr };

    ghost norm = { optional_pair_norm KA.norm VA.norm };

    ghost assumes = { KA.assumes × VA.assumes };

    fn describe(alloc: Global) -> Result<Expr, AllocError> {
        Expr::map(alloc, KA::describe(alloc)?, VA::describe(alloc)?)
    }

    ghost keeps = { optional_pair_keeps KA.keeps VA.keeps };
}

/// A map of the one pair, its key by `KA` in key place, its value by `VA` in value place; an empty
/// map for `None`.
///
/// The first part that isn't written decides, the key before its value. Without one, a map of which
/// the key or value has 128 levels is `TooDeep`.
impl<T: Meant, U: Meant, KA: SerializeAs<T> + Eq + Hash, VA: SerializeAs<U>> SerializeAs<
    Option<(T, U)>,
> for HashMap<KA, VA> {
    ghost writes = { optional_pair_writes KA.writes VA.writes };

    fn write_as<B: Builds>(
        alloc: Global,
        out: &mut B,
        source: &Option<(T, U)>,
        mode: Mode,
    ) -> Result<(), SerFail> {
        write_optional::<T, U, KA, VA, B>(alloc, out, source, mode)
    }
}

/// The pair of a map's one entry, its key by `KA` in key place, then its value by `VA` in value
/// place; `None` of an empty map.
///
/// A node of another kind is refused as `InvalidType` of that kind. Of more entries the first is read
/// alone: where its key or value is refused, that decides, and else `InvalidLength` of their number.
impl<T: Meant, U: Meant, KA: DeserializeAs<T> + Eq + Hash, VA: DeserializeAs<U>> DeserializeAs<
    Option<(T, U)>,
> for HashMap<KA, VA> {
    ghost use Rattle.std.specs.Prelude.{false};
    ghost use Rattle.sw_core.specs.Laws.OptionalPair.{optional_pair_lawful};

    const FREE: bool = false;

    ghost FREE = { false };

    ghost reads = { optional_pair_reads KA.reads KA.spot KA.skips VA.reads VA.spot VA.skips };

    ghost spot = { optional_pair_spot KA.reads KA.spot KA.skips VA.reads VA.spot VA.skips };

    ghost skips = { optional_pair_skips KA.reads KA.spot KA.skips VA.reads VA.spot VA.skips };

    fn deserialize_as(
        alloc: Global,
        view: View<'_>,
        mode: Mode,
        log: &mut Skipped,
    ) -> Result<Option<(T, U)>, DeFail> {
        read_optional::<T, U, KA, VA>(alloc, view, mode, log)
    }

    ghost lawful_reading = { optional_pair_lawful KA.skips KA.lawful_reading VA.skips VA.lawful_reading };
}

/// It is as faithful as its key and value: the norm of the pair has their norms.
impl<T: Meant, U: Meant, KA: Adapter<T> + Eq + Hash, VA: Adapter<U>> Adapter<Option<(T, U)>>
    for HashMap<KA, VA> {
    ghost use Rattle.sw_check.specs.Form.{map};
    ghost use Rattle.sw_core.specs.OptionalPair.{optional_pair_norm};
    ghost use Rattle.sw_core.specs.Laws.OptionalPair.{optional_pair_keeps};

    ghost expr = { map KA.expr VA.expr };

    ghost norm = { optional_pair_norm KA.norm VA.norm };

    ghost assumes = { KA.assumes × VA.assumes };

    fn describe(alloc: Global) -> Result<Expr, AllocError> {
        Expr::map(alloc, KA::describe(alloc)?, VA::describe(alloc)?)
    }

    ghost keeps = { optional_pair_keeps KA.keeps VA.keeps };
}

/// Puts in the map of this pair, or of none.
pub fn write_optional<T: Meant, U: Meant, K: SerializeAs<T>, V: SerializeAs<U>, B: Builds>(
    alloc: Global,
    out: &mut B,
    source: &Option<(T, U)>,
    mode: Mode,
) -> Result<(), SerFail>
    ensures { IsPut
        B.put
        result
        (optional_pair_writes K.writes V.writes mode (option_meaning (pair_meaning T.meaning U.meaning) source.now))
        out.old
        out.new }
{
    match source {
        None => {
            out.open_map(0)?;
            out.close()
        }
        Some(pair) => {
            out.open_map(1)?;
            K::write_as(alloc, out, &pair.0, mode.key())?;
            V::write_as(alloc, out, &pair.1, mode.value())?;
            out.close()
        }
    }
}

/// The pair of a map's one entry, or none.
fn read_optional<T: Meant, U: Meant, K: DeserializeAs<T>, V: DeserializeAs<U>>(
    alloc: Global,
    view: View<'_>,
    mode: Mode,
    log: &mut Skipped,
) -> Result<Option<(T, U)>, DeFail>
    ensures answer { IsRead
        (option_meaning (pair_meaning T.meaning U.meaning))
        result
        (placed
        (optional_pair_reads K.reads K.spot K.skips V.reads V.spot V.skips mode)
        (optional_pair_spot K.reads K.spot K.skips V.reads V.spot V.skips mode)
        (seen view.entry)) }
    ensures logs { IsLogged
        result
        log.old
        (placed_notes (seen view.entry) (optional_pair_skips K.reads K.spot K.skips V.reads V.spot V.skips mode (tree_of view.entry)))
        log.new }
{
    let Some(mut entries) = view.entries() else {
        return Err(refused_at(view, DeError::InvalidType(view.kind())));
    };
    let Some((key, value)) = entries.next() else {
        return Ok(None);
    };
    let pair = match read_entry::<T, U, K, V>(alloc, key, value, mode, log) {
        Ok(pair) => pair,
        Err(DeFail::Refused(refusal)) => return Err(DeFail::Refused(refusal)),
        Err(DeFail::Memory) => return Err(DeFail::Memory),
    };
    let count = view.len();
    if count != 1 {
        return Err(refused_at(view, DeError::InvalidLength(count)));
    }
    Ok(Some(pair))
}
