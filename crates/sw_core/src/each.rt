#![tactic(auto, using(sw_tree::specs::Laws::Logs::gains))]

ghost use Rattle.std.specs.Prelude.{List, map};
ghost use Rattle.std.specs.Iterator.{IsFinite};
ghost use Rattle.std.specs.Map.Iter.{deref};
ghost use Rattle.sw_tree.specs.Building.{IsBuilt, IsPut};
ghost use Rattle.sw_tree.specs.Meant.{list_meaning};
ghost use Rattle.sw_tree.specs.Mode.{at_value};
ghost use Rattle.sw_tree.specs.Placed.{placed, placed_notes};
ghost use Rattle.sw_tree.specs.Inner.View.{seen, tree_of};
ghost use Rattle.sw_elem.specs.Answers.{IsRead, IsLogged};
ghost use Rattle.sw_core.specs.Inner.Iterated.{Iterates};
ghost use Rattle.sw_core.specs.Inner.Putting.{all_put};
ghost use Rattle.sw_core.specs.Inner.Rows.{seen_reads, seen_logs};
ghost use Rattle.sw_core.specs.Rows.{reader, each_by};
ghost use Rattle.sw_core.specs.Vec.{list_writes, list_reads, list_spot, list_skips};

use crate::adapter::{DeserializeAs, SerializeAs};
use std::alloc::Global;
use sw_elem::refuse::refused_at;
use sw_tree::builds::Builds;
use sw_tree::fail::{DeError, DeFail, SerFail};
use sw_tree::meant::Meant;
use sw_tree::mode::Mode;
use sw_tree::skipped::Skipped;
use sw_tree::view::{Items, View};

/// Puts in the list of these values, each by `A` in value place. `count` is how many they are, and
/// decides nothing.
///
/// The first part that isn't written decides. Without one, a list of which a part has 128 levels is
/// `TooDeep`.
pub fn write_list<'a, T: Meant + 'a, A: SerializeAs<T>, B: Builds, I: Iterator<Item = &'a T>>(
    alloc: Global,
    out: &mut B,
    count: usize,
    values: I,
    mode: Mode,
) -> Result<(), SerFail>
    requires can { I.can_next values }
    requires ends { IsFinite (I.remaining values) }
    ensures { (xs : List T) → Iterates deref I.next_gives xs values → IsPut B.put result (list_writes A.writes mode (list_meaning T.meaning xs)) out.old out.new }
{
    out.open_list(count)?;
    put_each::<T, A, B, I>(alloc, out, values, mode)?;
    out.close()
}

/// Puts in these values one after another, each by `A` in value place.
fn put_each<'a, T: Meant + 'a, A: SerializeAs<T>, B: Builds, I: Iterator<Item = &'a T>>(
    alloc: Global,
    out: &mut B,
    values: I,
    mode: Mode,
) -> Result<(), SerFail>
    requires can { I.can_next values }
    requires ends { IsFinite (I.remaining values) }
    ensures { (xs : List T) → Iterates deref I.next_gives xs values → IsBuilt result (all_put B.put (λ x. A.writes (at_value mode) (T.meaning x)) xs out.old) out.new }
{
    for value in values {
        A::write_as(alloc, out, value, mode.value())?;
    }
    Ok(())
}

/// The values of a list's items, each by `A` in value place. A node of another kind is refused as
/// `InvalidType` of that kind; else the first item that is refused decides.
pub fn read_list<T: Meant, A: DeserializeAs<T>>(
    alloc: Global,
    view: View<'_>,
    mode: Mode,
    log: &mut Skipped,
) -> Result<Vec<T>, DeFail>
    ensures answer { IsRead
        (λ values. list_meaning T.meaning values.items)
        result
        (placed (list_reads A.reads A.spot A.skips mode) (list_spot A.reads A.spot A.skips mode) (seen view.entry)) }
    ensures logs { IsLogged result log.old (placed_notes (seen view.entry) (list_skips A.reads A.spot A.skips mode (tree_of view.entry))) log.new }
{
    match view.items() {
        None => Err(refused_at(view, DeError::InvalidType(view.kind()))),
        Some(items) => read_each::<T, A>(alloc, view.len(), items, mode.value(), log),
    }
}

/// Reads each item by `A`, into a list with room for so many taken at once.
fn read_each<T: Meant, A: DeserializeAs<T>>(
    alloc: Global,
    room: usize,
    items: Items<'_>,
    mode: Mode,
    log: &mut Skipped,
) -> Result<Vec<T>, DeFail>
    ensures answer { IsRead (λ values. map T.meaning values.items) result (seen_reads (each_by (reader A.reads A.spot A.skips mode) items.entry) items.entry) }
    ensures logs { IsLogged result log.old (seen_logs (each_by (reader A.reads A.spot A.skips mode) items.entry) items.entry) log.new }
{
    let Ok(mut values) = Vec::with_capacity(alloc, room) else {
        return Err(DeFail::Memory);
    };
    for item in items {
        let value = match A::deserialize_as(alloc, item, mode, log) {
            Ok(value) => value,
            Err(DeFail::Refused(refusal)) => return Err(DeFail::Refused(refusal)),
            Err(DeFail::Memory) => return Err(DeFail::Memory),
        };
        if values.push(value).is_err() {
            return Err(DeFail::Memory);
        }
    }
    Ok(values)
}
