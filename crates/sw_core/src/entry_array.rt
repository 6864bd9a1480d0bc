//! Arrays of pairs that are read from the entries of a map, of which there have to be as many.
#![tactic(auto, using(sw_tree::specs::Laws::Logs::gains))]

ghost use Rattle.std.specs.Prelude.{◌≡◌, length, take, IfOk};
ghost use Rattle.sw_tree.specs.Meant.{list_meaning, pair_meaning};
ghost use Rattle.sw_tree.specs.Mode.{at_key, at_value};
ghost use Rattle.sw_tree.specs.Placed.{placed, placed_notes};
ghost use Rattle.sw_tree.specs.Inner.View.{seen, tree_of};
ghost use Rattle.sw_elem.specs.Answers.{IsRead, IsLogged};
ghost use Rattle.sw_core.specs.EntryArray.{entry_array_reads, entry_array_spot, entry_array_skips};
ghost use Rattle.sw_core.specs.Inner.Rows.{seen_reads, seen_logs, seen_turns, all_both};
ghost use Rattle.sw_core.specs.Rows.{reader, turns_by};

use crate::adapter::DeserializeAs;
use crate::entries::read_entry;
use std::alloc::Global;
use sw_elem::refuse::refused_at;
use sw_tree::fail::{DeError, DeFail};
use sw_tree::meant::Meant;
use sw_tree::mode::Mode;
use sw_tree::skipped::Skipped;
use sw_tree::view::{Entries, View};

/// The `N` pairs of a map's entries in order, each key by `K` in key place, then its value by `V` in
/// value place. A node of another kind is refused as `InvalidType` of that kind; else the first key or
/// value of its first `N` entries that is refused decides; without one, a map of another number of
/// entries is refused as `InvalidLength` of it, at the map.
pub fn read_so_many_entries<
    T: Meant + Copy + Default,
    U: Meant + Copy + Default,
    K: DeserializeAs<T>,
    V: DeserializeAs<U>,
    const N: usize,
>(alloc: Global, view: View<'_>, mode: Mode, log: &mut Skipped) -> Result<[(T, U); N], DeFail>
    ensures answer { IsRead
        (list_meaning (pair_meaning T.meaning U.meaning))
        result
        (placed
        (entry_array_reads N K.reads K.spot K.skips V.reads V.spot V.skips mode)
        (entry_array_spot N K.reads K.spot K.skips V.reads V.spot V.skips mode)
        (seen view.entry)) }
    ensures logs { IsLogged
        result
        log.old
        (placed_notes (seen view.entry) (entry_array_skips N K.reads K.spot K.skips V.reads V.spot V.skips mode (tree_of view.entry)))
        log.new }
{
    let Some(entries) = view.entries() else {
        return Err(refused_at(view, DeError::InvalidType(view.kind())));
    };
    let pairs = match fill_in_turn::<T, U, K, V, N>(alloc, entries, mode, log) {
        Ok(pairs) => pairs,
        Err(DeFail::Refused(refusal)) => return Err(DeFail::Refused(refusal)),
        Err(DeFail::Memory) => return Err(DeFail::Memory),
    };
    let count = view.len();
    if count != N {
        return Err(refused_at(view, DeError::InvalidLength(count)));
    }
    Ok(pairs)
}

/// Reads each of the first `N` entries, in order. Where there are fewer, the pairs behind theirs are
/// the default.
fn fill_in_turn<
    T: Meant + Copy + Default,
    U: Meant + Copy + Default,
    K: DeserializeAs<T>,
    V: DeserializeAs<U>,
    const N: usize,
>(
    alloc: Global,
    mut entries: Entries<'_>,
    mode: Mode,
    log: &mut Skipped,
) -> Result<[(T, U); N], DeFail>
    ensures answer { IsRead
        (λ pairs. all_both T.meaning U.meaning (take (length entries.entry) pairs))
        result
        (seen_reads
        (turns_by (reader K.reads K.spot K.skips (at_key mode)) (reader V.reads V.spot V.skips (at_value mode)) (take N entries.entry))
        (seen_turns (take N entries.entry))) }
    ensures logs { IsLogged
        result
        log.old
        (seen_logs
        (turns_by (reader K.reads K.spot K.skips (at_key mode)) (reader V.reads V.spot V.skips (at_value mode)) (take N entries.entry))
        (seen_turns (take N entries.entry)))
        log.new }
    ensures room { IfOk result (λ pairs. length pairs ≡ N) }
{
    let mut pairs = [(T::default(), U::default()); N];
    for index in 0..N {
        let Some((key, value)) = entries.next() else {
            return Ok(pairs);
        };
        pairs[index] = match read_entry::<T, U, K, V>(alloc, key, value, mode, log) {
            Ok(pair) => pair,
            Err(DeFail::Refused(refusal)) => return Err(DeFail::Refused(refusal)),
            Err(DeFail::Memory) => return Err(DeFail::Memory),
        };
    }
    Ok(pairs)
}
