//! The schemas of collections of pairs as maps: an object whose values are valid for the value's schema. Keys have no say in it.

ghost use Rattle.std.specs.Prelude.{◌≡◌, IfOk, string_bytes};
ghost use Rattle.sw_schemas.specs.Definitions.{map_definition};

use crate::map::Map;
use std::alloc::{AllocError, Global};
use std::boxed::BoxedSlice;
use std::collections::{BTreeSet, HashSet, LinkedList, VecDeque};
use std::hash::Hash;
use sw_core::adapter::Adapter;
use sw_schema::schema::SchemaTree;
use sw_schemas::names::joined;
use sw_schemas::schema_as::{JsonSchemaAs, SchemaAdapter};
use sw_tree::meant::Meant;
use sw_tree::ranked::Ranked;

/// The name of the schema of maps of values by `V`.
fn map_name<U: Meant, V: JsonSchemaAs<U>>(alloc: Global) -> Result<String, AllocError>
    ensures { IfOk result (λ s. string_bytes s ≡ (map_definition V.definition).name) }
{
    joined(alloc, "Map_of_", V::schema_name(alloc)?.as_str())
}

/// Its id.
fn map_id<U: Meant, V: JsonSchemaAs<U>>(alloc: Global) -> Result<String, AllocError>
    ensures { IfOk result (λ s. string_bytes s ≡ (map_definition V.definition).id) }
{
    joined(alloc, "Map_of_", V::schema_id(alloc)?.as_str())
}

/// The schema.
fn map_schema<U: Meant, V: JsonSchemaAs<U>>(alloc: Global) -> Result<SchemaTree, AllocError>
    ensures { IfOk result (λ s. s ≡ (map_definition V.definition).schema) }
{
    SchemaTree::object(alloc, V::json_schema(alloc)?)
}

impl<T: Meant, U: Meant, K, V: JsonSchemaAs<U>> JsonSchemaAs<Vec<(T, U)>> for Map<K, V> {
    ghost use Rattle.sw_schemas.specs.Definitions.{map_definition};

    ghost definition = { map_definition V.definition };

    fn inline_schema() -> bool {
        true
    }

    fn schema_name(alloc: Global) -> Result<String, AllocError> {
        map_name::<U, V>(alloc)
    }

    fn schema_id(alloc: Global) -> Result<String, AllocError> {
        map_id::<U, V>(alloc)
    }

    fn json_schema(alloc: Global) -> Result<SchemaTree, AllocError> {
        map_schema::<U, V>(alloc)
    }
}

impl<T: Meant, U: Meant, K: Adapter<T>, V: SchemaAdapter<U>> SchemaAdapter<Vec<(T, U)>>
    for Map<K, V> {
    ghost use Rattle.sw_schemas.specs.Laws.Entries.{entries_fits};

    ghost fits = { entries_fits K.keeps V.fits };
}

impl<T: Meant, U: Meant, K, V: JsonSchemaAs<U>> JsonSchemaAs<VecDeque<(T, U)>> for Map<K, V> {
    ghost use Rattle.sw_schemas.specs.Definitions.{map_definition};

    ghost definition = { map_definition V.definition };

    fn inline_schema() -> bool {
        true
    }

    fn schema_name(alloc: Global) -> Result<String, AllocError> {
        map_name::<U, V>(alloc)
    }

    fn schema_id(alloc: Global) -> Result<String, AllocError> {
        map_id::<U, V>(alloc)
    }

    fn json_schema(alloc: Global) -> Result<SchemaTree, AllocError> {
        map_schema::<U, V>(alloc)
    }
}

impl<T: Meant, U: Meant, K: Adapter<T>, V: SchemaAdapter<U>> SchemaAdapter<VecDeque<(T, U)>>
    for Map<K, V> {
    ghost use Rattle.sw_schemas.specs.Laws.Entries.{entries_fits};

    ghost fits = { entries_fits K.keeps V.fits };
}

impl<T: Meant, U: Meant, K, V: JsonSchemaAs<U>> JsonSchemaAs<LinkedList<(T, U)>> for Map<K, V> {
    ghost use Rattle.sw_schemas.specs.Definitions.{map_definition};

    ghost definition = { map_definition V.definition };

    fn inline_schema() -> bool {
        true
    }

    fn schema_name(alloc: Global) -> Result<String, AllocError> {
        map_name::<U, V>(alloc)
    }

    fn schema_id(alloc: Global) -> Result<String, AllocError> {
        map_id::<U, V>(alloc)
    }

    fn json_schema(alloc: Global) -> Result<SchemaTree, AllocError> {
        map_schema::<U, V>(alloc)
    }
}

impl<T: Meant, U: Meant, K: Adapter<T>, V: SchemaAdapter<U>> SchemaAdapter<LinkedList<(T, U)>>
    for Map<K, V> {
    ghost use Rattle.sw_schemas.specs.Laws.Entries.{entries_fits};

    ghost fits = { entries_fits K.keeps V.fits };
}

impl<T: Meant, U: Meant, K, V: JsonSchemaAs<U>> JsonSchemaAs<BoxedSlice<(T, U)>> for Map<K, V> {
    ghost use Rattle.sw_schemas.specs.Definitions.{map_definition};

    ghost definition = { map_definition V.definition };

    fn inline_schema() -> bool {
        true
    }

    fn schema_name(alloc: Global) -> Result<String, AllocError> {
        map_name::<U, V>(alloc)
    }

    fn schema_id(alloc: Global) -> Result<String, AllocError> {
        map_id::<U, V>(alloc)
    }

    fn json_schema(alloc: Global) -> Result<SchemaTree, AllocError> {
        map_schema::<U, V>(alloc)
    }
}

impl<T: Meant, U: Meant, K: Adapter<T>, V: SchemaAdapter<U>> SchemaAdapter<BoxedSlice<(T, U)>>
    for Map<K, V> {
    ghost use Rattle.sw_schemas.specs.Laws.Entries.{entries_fits};

    ghost fits = { entries_fits K.keeps V.fits };
}

impl<T: Meant, U: Meant, KA, VA: JsonSchemaAs<U>, const N: usize> JsonSchemaAs<[(T, U); N]>
    for Map<KA, VA> {
    ghost use Rattle.sw_schemas.specs.Definitions.{map_definition};

    ghost definition = { map_definition VA.definition };

    fn inline_schema() -> bool {
        true
    }

    fn schema_name(alloc: Global) -> Result<String, AllocError> {
        map_name::<U, VA>(alloc)
    }

    fn schema_id(alloc: Global) -> Result<String, AllocError> {
        map_id::<U, VA>(alloc)
    }

    fn json_schema(alloc: Global) -> Result<SchemaTree, AllocError> {
        map_schema::<U, VA>(alloc)
    }
}

impl<
    T: Meant + Copy + Default,
    U: Meant + Copy + Default,
    KA: Adapter<T>,
    VA: SchemaAdapter<U>,
    const N: usize,
> SchemaAdapter<[(T, U); N]> for Map<KA, VA> {
    ghost use Rattle.sw_schemas.specs.Laws.Entries.{entry_array_fits};

    ghost fits = { entry_array_fits KA.keeps VA.fits N };
}

impl<T: Meant, U: Meant, K, V: JsonSchemaAs<U>> JsonSchemaAs<Option<(T, U)>> for Map<K, V> {
    ghost use Rattle.sw_schemas.specs.Definitions.{map_definition};

    ghost definition = { map_definition V.definition };

    fn inline_schema() -> bool {
        true
    }

    fn schema_name(alloc: Global) -> Result<String, AllocError> {
        map_name::<U, V>(alloc)
    }

    fn schema_id(alloc: Global) -> Result<String, AllocError> {
        map_id::<U, V>(alloc)
    }

    fn json_schema(alloc: Global) -> Result<SchemaTree, AllocError> {
        map_schema::<U, V>(alloc)
    }
}

impl<T: Ranked, U: Ranked, K, V: JsonSchemaAs<U>> JsonSchemaAs<BTreeSet<(T, U)>> for Map<K, V> {
    ghost use Rattle.sw_schemas.specs.Definitions.{map_definition};

    ghost definition = { map_definition V.definition };

    fn inline_schema() -> bool {
        true
    }

    fn schema_name(alloc: Global) -> Result<String, AllocError> {
        map_name::<U, V>(alloc)
    }

    fn schema_id(alloc: Global) -> Result<String, AllocError> {
        map_id::<U, V>(alloc)
    }

    fn json_schema(alloc: Global) -> Result<SchemaTree, AllocError> {
        map_schema::<U, V>(alloc)
    }
}

impl<T: Ranked, U: Ranked, K: Adapter<T>, V: SchemaAdapter<U>> SchemaAdapter<BTreeSet<(T, U)>>
    for Map<K, V> {
    ghost use Rattle.sw_schemas.specs.Laws.Entries.{pair_set_fits};
    ghost use Rattle.sw_tree.specs.PairRanks.{pair_order};

    ghost fits = { pair_set_fits K.keeps V.fits (pair_order T.order U.order) };
}

impl<T: Ranked + Hash, U: Ranked + Hash, K, V: JsonSchemaAs<U>> JsonSchemaAs<HashSet<(T, U)>>
    for Map<K, V> {
    ghost use Rattle.sw_schemas.specs.Definitions.{map_definition};

    ghost definition = { map_definition V.definition };

    fn inline_schema() -> bool {
        true
    }

    fn schema_name(alloc: Global) -> Result<String, AllocError> {
        map_name::<U, V>(alloc)
    }

    fn schema_id(alloc: Global) -> Result<String, AllocError> {
        map_id::<U, V>(alloc)
    }

    fn json_schema(alloc: Global) -> Result<SchemaTree, AllocError> {
        map_schema::<U, V>(alloc)
    }
}

impl<T: Ranked + Hash, U: Ranked + Hash, K: Adapter<T>, V: SchemaAdapter<U>> SchemaAdapter<
    HashSet<(T, U)>,
> for Map<K, V> {
    ghost use Rattle.sw_schemas.specs.Laws.Entries.{pair_set_fits};
    ghost use Rattle.sw_tree.specs.PairRanks.{pair_order};

    ghost fits = { pair_set_fits K.keeps V.fits (pair_order T.order U.order) };
}
