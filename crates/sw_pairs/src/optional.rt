#![tactic(auto)]

use crate::map::Map;
use std::alloc::Global;
use sw_core::adapter::SerializeAs;
use sw_core::optional_pair::write_optional;
use sw_tree::builds::Builds;
use sw_tree::fail::SerFail;
use sw_tree::meant::Meant;
use sw_tree::mode::Mode;

/// A map of the one pair, its key by `K` in key place, its value by `V` in value place; an empty map
/// for `None`. It is written alone, and isn't read.
///
/// The first part that isn't written decides, the key before its value. Without one, a map of which
/// the key or value has 128 levels is `TooDeep`.
impl<T: Meant, U: Meant, K: SerializeAs<T>, V: SerializeAs<U>> SerializeAs<Option<(T, U)>>
    for Map<K, V> {
    ghost use Rattle.sw_core.specs.OptionalPair.{optional_pair_writes};

    ghost writes = { optional_pair_writes K.writes V.writes };

    fn write_as<B: Builds>(
        alloc: Global,
        out: &mut B,
        source: &Option<(T, U)>,
        mode: Mode,
    ) -> Result<(), SerFail> {
        write_optional::<T, U, K, V, B>(alloc, out, source, mode)
    }
}
