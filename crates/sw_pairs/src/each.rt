#![tactic(auto)]

ghost use Rattle.std.specs.Prelude.{List, [], ◌∷◌};
ghost use Rattle.std.specs.Iterator.{IsFinite};
ghost use Rattle.std.specs.Map.Iter.{deref};
ghost use Rattle.sw_tree.specs.Building.{IsBuilt, IsPut};
ghost use Rattle.sw_tree.specs.Meant.{list_meaning, pair_meaning};
ghost use Rattle.sw_tree.specs.Mode.{at_key, at_value};
ghost use Rattle.sw_tree.specs.Placed.{pair_of};
ghost use Rattle.sw_core.specs.Entries.{entries_writes};
ghost use Rattle.sw_core.specs.Inner.Iterated.{Iterates};
ghost use Rattle.sw_core.specs.Inner.Putting.{all_put_pairs};

use std::alloc::Global;
use sw_core::adapter::SerializeAs;
use sw_tree::builds::Builds;
use sw_tree::fail::SerFail;
use sw_tree::meant::Meant;
use sw_tree::mode::Mode;

/// Puts in the map of these pairs, each key by `K` in key place, then its value by `V` in value
/// place. `count` is how many they are, and decides nothing.
///
/// The first part that isn't written decides, a key before its value. Without one, a map of which a
/// key or value has 128 levels is `TooDeep`.
pub(crate) fn write_pairs<
    'a,
    T: Meant + 'a,
    U: Meant + 'a,
    K: SerializeAs<T>,
    V: SerializeAs<U>,
    B: Builds,
    I: Iterator<Item = &'a (T, U)>,
>(alloc: Global, out: &mut B, count: usize, pairs: I, mode: Mode) -> Result<(), SerFail>
    requires can { I.can_next pairs }
    requires ends { IsFinite (I.remaining pairs) }
    ensures { (xs : List (T × U)) → Iterates deref I.next_gives xs pairs → IsPut B.put result (entries_writes K.writes V.writes mode (list_meaning (pair_meaning T.meaning U.meaning) xs)) out.old out.new }
{
    out.open_map(count)?;
    put_pairs::<T, U, K, V, B, I>(alloc, out, pairs, mode)?;
    out.close()
}

/// Puts in these pairs one after another.
fn put_pairs<
    'a,
    T: Meant + 'a,
    U: Meant + 'a,
    K: SerializeAs<T>,
    V: SerializeAs<U>,
    B: Builds,
    I: Iterator<Item = &'a (T, U)>,
>(alloc: Global, out: &mut B, pairs: I, mode: Mode) -> Result<(), SerFail>
    requires can { I.can_next pairs }
    requires ends { IsFinite (I.remaining pairs) }
    ensures { (xs : List (T × U)) → Iterates deref I.next_gives xs pairs
        → IsBuilt result (all_put_pairs B.put (pair_of (λ x. K.writes (at_key mode) (T.meaning x)) (λ y. V.writes (at_value mode) (U.meaning y))) xs out.old) out.new }
{
    for pair in pairs {
        put_pair::<T, U, K, V, B>(alloc, out, pair, mode)?;
    }
    Ok(())
}

/// Puts in the key by `K` in key place, then the value by `V` in value place.
fn put_pair<T: Meant, U: Meant, K: SerializeAs<T>, V: SerializeAs<U>, B: Builds>(
    alloc: Global,
    out: &mut B,
    pair: &(T, U),
    mode: Mode,
) -> Result<(), SerFail>
    ensures { IsBuilt
        result
        (all_put_pairs B.put (pair_of (λ x. K.writes (at_key mode) (T.meaning x)) (λ y. V.writes (at_value mode) (U.meaning y))) (pair.now ∷ []) out.old)
        out.new }
{
    K::write_as(alloc, out, &pair.0, mode.key())?;
    V::write_as(alloc, out, &pair.1, mode.value())
}
