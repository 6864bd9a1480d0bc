//! Parts side by side, each by an adapter of its own. A row of parts is a pair of its first part and the row of the others, and `()` is the
//! row of none, of adapters as of values: `(A, (B, ()))` reads `(T, (U, ()))`.
#![tactic(auto, using(sw_tree::specs::Laws::Logs::gains))]

ghost use Rattle.std.specs.Prelude.{◌≡◌, ◌<◌, [], ◌∷◌, ◌++◌, length, true, IfOk};
ghost use Rattle.sw_tree.specs.Building.{IsPut};
ghost use Rattle.sw_tree.specs.Meant.{row};
ghost use Rattle.sw_tree.specs.Placed.{placed, placed_notes};
ghost use Rattle.sw_tree.specs.Inner.View.{seen, tree_of};
ghost use Rattle.sw_elem.specs.Answers.{IsRead, IsLogged, ReadsFreely};
ghost use Rattle.sw_core.specs.Tuple.{tuple_writes, tuple_reads, tuple_spot, tuple_skips};

use crate::adapter::{Adapter, DeserializeAs, SerializeAs};
use std::alloc::{AllocError, Global};
use sw_check::exprs::ExprList;
use sw_elem::refuse::refused_at;
use sw_tree::builds::Builds;
use sw_tree::fail::{DeError, DeFail, SerFail};
use sw_tree::meant::Meant;
use sw_tree::mode::Mode;
use sw_tree::skipped::Skipped;
use sw_tree::view::{Items, View};

/// Adapters side by side that write a row of borrowed values.
pub(crate) trait WriteParts<V> {
    ghost use Rattle.std.specs.Prelude.{List};
    ghost use Rattle.sw_tree.specs.Building.{IsBuilt};
    ghost use Rattle.sw_tree.specs.Meaning.{Meaning};
    ghost use Rattle.sw_elem.specs.Equations.{Writes};
    ghost use Rattle.sw_core.specs.Inner.Parts.{row_put};

    ghost writers: { List Writes };

    ghost shows: { V → List Meaning };

    /// Puts in each value by its adapter, in order. The first that isn't written decides.
    fn put_parts<B: Builds>(
        alloc: Global,
        out: &mut B,
        values: V,
        mode: Mode,
    ) -> Result<(), SerFail>
        ensures { IsBuilt result (row_put B.put writers mode (shows values) out.old) out.new };
}

impl WriteParts<()> for () {
    ghost use Rattle.std.specs.Prelude.{[]};

    ghost writers = { [] };

    ghost shows = { λ v. [] };

    fn put_parts<B: Builds>(
        _alloc: Global,
        _out: &mut B,
        _values: (),
        _mode: Mode,
    ) -> Result<(), SerFail> {
        Ok(())
    }
}

impl<'a, T: Meant + 'a, V: Copy, A: SerializeAs<T>, O: WriteParts<V>> WriteParts<(&'a T, V)>
    for (A, O) {
    ghost use Rattle.std.specs.Prelude.{◌∷◌};

    ghost writers = { A.writes ∷ O.writers };

    ghost shows = { λ v. T.meaning v.0.now ∷ O.shows v.1 };

    fn put_parts<B: Builds>(
        alloc: Global,
        out: &mut B,
        values: (&'a T, V),
        mode: Mode,
    ) -> Result<(), SerFail> {
        let (first, others) = values;
        A::write_as(alloc, out, first, mode)?;
        O::put_parts(alloc, out, others, mode)
    }
}

/// Adapters side by side that read a row of values.
pub(crate) trait ReadParts<V> {
    ghost use Rattle.std.specs.Prelude.{◌≡◌, Bool, true, List, option_map};
    ghost use Rattle.sw_tree.specs.Meaning.{Meaning};
    ghost use Rattle.sw_elem.specs.Answers.{IsRead, IsLogged, ReadsFreely};
    ghost use Rattle.sw_core.specs.Parts.{Reading, all_in};
    ghost use Rattle.sw_core.specs.Inner.Parts.{row_seen};
    ghost use Rattle.sw_core.specs.Inner.Rows.{seen_logs};

    /// Whether no part takes memory.
    const FREE: bool;

    ghost FREE: { Bool };

    ghost readings: { List Reading };

    ghost shows: { V → List Meaning };

    /// Reads an item for each part, in order. The first that is refused decides; `None` where there
    /// are not as many items as parts.
    fn read_parts(
        alloc: Global,
        items: Items<'_>,
        mode: Mode,
        log: &mut Skipped,
    ) -> Result<Option<V>, DeFail>
        ensures answer { IsRead (option_map shows) result (row_seen (all_in mode readings) items.entry) }
        ensures logs { IsLogged result log.old (seen_logs (all_in mode readings) items.entry) log.new }
        ensures free { FREE ≡ true → ReadsFreely result };
}

impl ReadParts<()> for () {
    ghost use Rattle.std.specs.Prelude.{[], true};

    const FREE: bool = true;

    ghost FREE = { true };

    ghost readings = { [] };

    ghost shows = { λ v. [] };

    fn read_parts(
        _alloc: Global,
        mut items: Items<'_>,
        _mode: Mode,
        _log: &mut Skipped,
    ) -> Result<Option<()>, DeFail> {
        match items.next() {
            None => Ok(Some(())),
            Some(_) => Ok(None),
        }
    }
}

impl<T: Meant, V, A: DeserializeAs<T>, O: ReadParts<V>> ReadParts<(T, V)> for (A, O) {
    ghost use Rattle.std.specs.Prelude.{◌∷◌, ◌&&◌};
    ghost use Rattle.sw_core.specs.Parts.{reading};

    const FREE: bool = A::FREE && O::FREE;

    ghost FREE = { A.FREE && O.FREE };

    ghost readings = { reading A.reads A.spot A.skips ∷ O.readings };

    ghost shows = { λ v. T.meaning v.0 ∷ O.shows v.1 };

    fn read_parts(
        alloc: Global,
        mut items: Items<'_>,
        mode: Mode,
        log: &mut Skipped,
    ) -> Result<Option<(T, V)>, DeFail> {
        let Some(item) = items.next() else {
            return Ok(None);
        };
        let first = match A::deserialize_as(alloc, item, mode, log) {
            Ok(first) => first,
            Err(DeFail::Refused(refusal)) => return Err(DeFail::Refused(refusal)),
            Err(DeFail::Memory) => return Err(DeFail::Memory),
        };
        match O::read_parts(alloc, items, mode, log) {
            Ok(Some(others)) => Ok(Some((first, others))),
            Ok(None) => Ok(None),
            Err(DeFail::Refused(refusal)) => Err(DeFail::Refused(refusal)),
            Err(DeFail::Memory) => Err(DeFail::Memory),
        }
    }
}

/// Puts in the list of these values, each by its adapter in value place. `count` is how many they are, and
/// decides nothing.
///
/// The first part that isn't written decides. Without one, a list of which a part has 128 levels is
/// `TooDeep`.
pub(crate) fn write_tuple<V: Copy, O: WriteParts<V>, B: Builds>(
    alloc: Global,
    out: &mut B,
    count: usize,
    values: V,
    mode: Mode,
) -> Result<(), SerFail>
    ensures { IsPut B.put result (tuple_writes O.writers mode (row (O.shows values))) out.old out.new }
{
    out.open_list(count)?;
    O::put_parts(alloc, out, values, mode.value())?;
    out.close()
}

/// The values of a list's items, each by its adapter in value place. A node of another kind is refused as
/// `InvalidType` of that kind; else the first item that is refused decides, of those that have an adapter;
/// without one, a list of another length is refused as `InvalidLength` of it.
pub(crate) fn read_tuple<V, O: ReadParts<V>>(
    alloc: Global,
    view: View<'_>,
    mode: Mode,
    log: &mut Skipped,
) -> Result<V, DeFail>
    ensures answer { IsRead (λ v. row (O.shows v)) result (placed (tuple_reads O.readings mode) (tuple_spot O.readings mode) (seen view.entry)) }
    ensures logs { IsLogged result log.old (placed_notes (seen view.entry) (tuple_skips O.readings mode (tree_of view.entry))) log.new }
    ensures free { O.FREE ≡ true → ReadsFreely result }
{
    let Some(items) = view.items() else {
        return Err(refused_at(view, DeError::InvalidType(view.kind())));
    };
    match O::read_parts(alloc, items, mode.value(), log) {
        Ok(Some(values)) => Ok(values),
        Ok(None) => Err(refused_at(view, DeError::InvalidLength(view.len()))),
        Err(DeFail::Refused(refusal)) => Err(DeFail::Refused(refusal)),
        Err(DeFail::Memory) => Err(DeFail::Memory),
    }
}

/// The parts, and `A`'s expression behind them.
pub(crate) fn with_part<T: Meant, A: Adapter<T>>(
    alloc: Global,
    mut parts: ExprList,
) -> Result<ExprList, AllocError>
    requires room { length parts < 65535 }
    ensures { IfOk result (λ list. list ≡ parts ++ A.expr ∷ []) }
{
    parts.push(A::describe(alloc)?)?;
    Ok(parts)
}
