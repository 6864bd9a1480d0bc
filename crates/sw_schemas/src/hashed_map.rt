use crate::names::joined;
use crate::schema_as::{JsonSchemaAs, SchemaAdapter};
use std::alloc::{AllocError, Global};
use std::collections::HashMap;
use std::hash::Hash;
use sw_core::adapter::Adapter;
use sw_schema::schema::SchemaTree;
use sw_tree::meant::Meant;
use sw_tree::ranked::Keyed;

/// An object whose values are valid for the value's schema. Keys have no say in it.
impl<K: Keyed, V: Meant, KA: Eq + Hash, VA: JsonSchemaAs<V>> JsonSchemaAs<HashMap<K, V>>
    for HashMap<KA, VA> {
    ghost use Rattle.sw_schemas.specs.Definitions.{map_definition};

    ghost definition = { map_definition VA.definition };

    fn inline_schema() -> bool {
        true
    }

    fn schema_name(alloc: Global) -> Result<String, AllocError> {
        joined(alloc, "Map_of_", VA::schema_name(alloc)?.as_str())
    }

    fn schema_id(alloc: Global) -> Result<String, AllocError> {
        joined(alloc, "Map_of_", VA::schema_id(alloc)?.as_str())
    }

    fn json_schema(alloc: Global) -> Result<SchemaTree, AllocError> {
        SchemaTree::object(alloc, VA::json_schema(alloc)?)
    }
}

impl<K: Keyed, V: Meant, KA: Adapter<K> + Eq + Hash, VA: SchemaAdapter<V>> SchemaAdapter<
    HashMap<K, V>,
> for HashMap<KA, VA> {
    ghost use Rattle.sw_schemas.specs.Laws.Entries.{map_fits};

    ghost fits = { map_fits KA.keeps VA.fits K.order };
}
