#![tactic(auto, using(sw_tree::specs::Laws::Logs::gains))]

ghost use Rattle.std.specs.Prelude.{[], ◌∷◌};
ghost use Rattle.sw_tree.specs.Building.{IsPut};
ghost use Rattle.sw_tree.specs.Meant.{list_meaning, pair_meaning};
ghost use Rattle.sw_tree.specs.Mode.{at_key, at_value};
ghost use Rattle.sw_tree.specs.Placed.{placed, placed_notes};
ghost use Rattle.sw_tree.specs.Inner.View.{seen, tree_of};
ghost use Rattle.sw_elem.specs.Answers.{IsRead, IsLogged};
ghost use Rattle.sw_core.specs.Entries.{entries_writes, entries_reads, entries_spot, entries_skips};
ghost use Rattle.sw_core.specs.Inner.Rows.{seen_reads, seen_logs, seen_turns, both, all_both};
ghost use Rattle.sw_core.specs.Rows.{reader, turns_by};

use crate::adapter::{DeserializeAs, SerializeAs};
use std::alloc::Global;
use sw_elem::refuse::refused_at;
use sw_tree::builds::Builds;
use sw_tree::fail::{DeError, DeFail, SerFail};
use sw_tree::meant::Meant;
use sw_tree::mode::Mode;
use sw_tree::skipped::Skipped;
use sw_tree::view::{Entries, View};

/// Puts in the map of these pairs, each key by `K` in key place, then its value by `V` in value
/// place.
///
/// The first part that isn't written decides, a key before its value. Without one, a map of which a
/// key or value has 128 levels is `TooDeep`.
pub fn write_entries<T: Meant, U: Meant, K: SerializeAs<T>, V: SerializeAs<U>, B: Builds>(
    alloc: Global,
    out: &mut B,
    pairs: &[(T, U)],
    mode: Mode,
) -> Result<(), SerFail>
    ensures { IsPut B.put result (entries_writes K.writes V.writes mode (list_meaning (pair_meaning T.meaning U.meaning) pairs.now)) out.old out.new }
{
    out.open_map(pairs.len())?;
    for pair in pairs {
        K::write_as(alloc, out, &pair.0, mode.key())?;
        V::write_as(alloc, out, &pair.1, mode.value())?;
    }
    out.close()
}

/// The pairs of a map's entries in order, each key by `K` in key place, then its value by `V` in
/// value place. A node of another kind is refused as `InvalidType` of that kind; else the first key
/// or value that is refused decides.
///
/// Room for all pairs is taken first.
pub fn read_entries<T: Meant, U: Meant, K: DeserializeAs<T>, V: DeserializeAs<U>>(
    alloc: Global,
    view: View<'_>,
    mode: Mode,
    log: &mut Skipped,
) -> Result<Vec<(T, U)>, DeFail>
    ensures answer { IsRead
        (λ pairs. list_meaning (pair_meaning T.meaning U.meaning) pairs.items)
        result
        (placed
        (entries_reads K.reads K.spot K.skips V.reads V.spot V.skips mode)
        (entries_spot K.reads K.spot K.skips V.reads V.spot V.skips mode)
        (seen view.entry)) }
    ensures logs { IsLogged
        result
        log.old
        (placed_notes (seen view.entry) (entries_skips K.reads K.spot K.skips V.reads V.spot V.skips mode (tree_of view.entry)))
        log.new }
{
    match view.entries() {
        None => Err(refused_at(view, DeError::InvalidType(view.kind()))),
        Some(entries) => { read_each_entry::<T, U, K, V>(alloc, view.len(), entries, mode, log) }
    }
}

/// Reads each entry, into a list with room for so many taken at once.
fn read_each_entry<T: Meant, U: Meant, K: DeserializeAs<T>, V: DeserializeAs<U>>(
    alloc: Global,
    room: usize,
    entries: Entries<'_>,
    mode: Mode,
    log: &mut Skipped,
) -> Result<Vec<(T, U)>, DeFail>
    ensures answer { IsRead
        (λ pairs. all_both T.meaning U.meaning pairs.items)
        result
        (seen_reads
        (turns_by (reader K.reads K.spot K.skips (at_key mode)) (reader V.reads V.spot V.skips (at_value mode)) entries.entry)
        (seen_turns entries.entry)) }
    ensures logs { IsLogged
        result
        log.old
        (seen_logs
        (turns_by (reader K.reads K.spot K.skips (at_key mode)) (reader V.reads V.spot V.skips (at_value mode)) entries.entry)
        (seen_turns entries.entry))
        log.new }
{
    let Ok(mut pairs) = Vec::with_capacity(alloc, room) else {
        return Err(DeFail::Memory);
    };
    for (key, value) in entries {
        let pair = match read_entry::<T, U, K, V>(alloc, key, value, mode, log) {
            Ok(pair) => pair,
            Err(DeFail::Refused(refusal)) => return Err(DeFail::Refused(refusal)),
            Err(DeFail::Memory) => return Err(DeFail::Memory),
        };
        if pairs.push(pair).is_err() {
            return Err(DeFail::Memory);
        }
    }
    Ok(pairs)
}

/// Reads the key, then the value.
pub(crate) fn read_entry<T: Meant, U: Meant, K: DeserializeAs<T>, V: DeserializeAs<U>>(
    alloc: Global,
    key: View<'_>,
    value: View<'_>,
    mode: Mode,
    log: &mut Skipped,
) -> Result<(T, U), DeFail>
    ensures answer { IsRead
        (both T.meaning U.meaning)
        result
        (seen_reads
        (reader K.reads K.spot K.skips (at_key mode) ∷ reader V.reads V.spot V.skips (at_value mode) ∷ [])
        (seen key.entry ∷ seen value.entry ∷ [])) }
    ensures logs { IsLogged
        result
        log.old
        (seen_logs
        (reader K.reads K.spot K.skips (at_key mode) ∷ reader V.reads V.spot V.skips (at_value mode) ∷ [])
        (seen key.entry ∷ seen value.entry ∷ []))
        log.new }
{
    let key = match K::deserialize_as(alloc, key, mode.key(), log) {
        Ok(key) => key,
        Err(DeFail::Refused(refusal)) => return Err(DeFail::Refused(refusal)),
        Err(DeFail::Memory) => return Err(DeFail::Memory),
    };
    let value = match V::deserialize_as(alloc, value, mode.value(), log) {
        Ok(value) => value,
        Err(DeFail::Refused(refusal)) => return Err(DeFail::Refused(refusal)),
        Err(DeFail::Memory) => return Err(DeFail::Memory),
    };
    Ok((key, value))
}
