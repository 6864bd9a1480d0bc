//! Laws of the constants: what is read of a map or of a list of pairs takes memory.

ghost use Rattle.std.specs.Prelude.{◌≡◌, false};

use crate::map::Map;
use crate::seq::Seq;
use std::collections::BTreeMap;
use sw_core::adapter::DeserializeAs;
use sw_tree::meant::Meant;
use sw_tree::ranked::Keyed;

/// A map isn't read without memory, whatever its parts are.
pub fn is_map_free<T: Meant, U: Meant, K: DeserializeAs<T>, V: DeserializeAs<U>>() -> bool
    ensures { result ≡ false }
{
    <Map<K, V> as DeserializeAs<Vec<(T, U)>>>::FREE
}

/// Nor is a map as a list of its entries.
pub fn is_seq_free<K: Keyed, V: Meant, KA: DeserializeAs<K>, VA: DeserializeAs<V>>() -> bool
    ensures { result ≡ false }
{
    <Seq<(KA, VA)> as DeserializeAs<BTreeMap<K, V>>>::FREE
}
