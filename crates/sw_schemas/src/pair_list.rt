//! The schemas of lists of pairs as maps, under the names of std's maps.

use crate::names::joined;
use crate::schema_as::{JsonSchemaAs, SchemaAdapter};
use std::alloc::{AllocError, Global};
use std::collections::{BTreeMap, HashMap};
use std::hash::Hash;
use sw_core::adapter::Adapter;
use sw_schema::schema::SchemaTree;
use sw_tree::meant::Meant;

/// An object whose values are valid for the value's schema. Keys have no say in it.
impl<T: Meant, U: Meant, KA: Ord, VA: JsonSchemaAs<U>> JsonSchemaAs<Vec<(T, U)>>
    for BTreeMap<KA, VA> {
    ghost use Rattle.sw_schemas.specs.Definitions.{map_definition};

    ghost definition = { map_definition VA.definition };

    fn inline_schema() -> bool {
        true
    }

    fn schema_name(alloc: Global) -> Result<String, AllocError> {
        joined(alloc, "Map_of_", VA::schema_name(alloc)?.as_str())
    }

    fn schema_id(alloc: Global) -> Result<String, AllocError> {
        joined(alloc, "Map_of_", VA::schema_id(alloc)?.as_str())
    }

    fn json_schema(alloc: Global) -> Result<SchemaTree, AllocError> {
        SchemaTree::object(alloc, VA::json_schema(alloc)?)
    }
}

impl<T: Meant, U: Meant, KA: Adapter<T> + Ord, VA: SchemaAdapter<U>> SchemaAdapter<Vec<(T, U)>>
    for BTreeMap<KA, VA> {
    ghost use Rattle.sw_schemas.specs.Laws.Entries.{entries_fits};

    ghost fits = { entries_fits KA.keeps VA.fits };
}

/// An object whose values are valid for the value's schema. Keys have no say in it.
impl<T: Meant, U: Meant, KA: Eq + Hash, VA: JsonSchemaAs<U>> JsonSchemaAs<Vec<(T, U)>>
    for HashMap<KA, VA> {
    ghost use Rattle.sw_schemas.specs.Definitions.{map_definition};

    ghost definition = { map_definition VA.definition };

    fn inline_schema() -> bool {
        true
    }

    fn schema_name(alloc: Global) -> Result<String, AllocError> {
        joined(alloc, "Map_of_", VA::schema_name(alloc)?.as_str())
    }

    fn schema_id(alloc: Global) -> Result<String, AllocError> {
        joined(alloc, "Map_of_", VA::schema_id(alloc)?.as_str())
    }

    fn json_schema(alloc: Global) -> Result<SchemaTree, AllocError> {
        SchemaTree::object(alloc, VA::json_schema(alloc)?)
    }
}

impl<T: Meant, U: Meant, KA: Adapter<T> + Eq + Hash, VA: SchemaAdapter<U>> SchemaAdapter<
    Vec<(T, U)>,
> for HashMap<KA, VA> {
    ghost use Rattle.sw_schemas.specs.Laws.Entries.{entries_fits};

    ghost fits = { entries_fits KA.keeps VA.fits };
}
