//! The schemas of maps as lists of their entries, under the name of std's list of tuples.

use crate::schema_as::{JsonSchemaAs, SchemaAdapter};
use std::alloc::{AllocError, Global};
use std::collections::{BTreeMap, HashMap};
use sw_schema::schema::SchemaTree;
use sw_tree::meant::Meant;
use sw_tree::ranked::Keyed;

/// The schema of a list of tuples of two: a key, then its value.
impl<K: Keyed, V: Meant, KA: JsonSchemaAs<K>, VA: JsonSchemaAs<V>> JsonSchemaAs<BTreeMap<K, V>>
    for Vec<(KA, VA)> {
    ghost use Rattle.sw_schemas.specs.Definitions.{entry_list_definition};

    ghost definition = { entry_list_definition KA.definition VA.definition };

    fn inline_schema() -> bool {
        true
    }

    fn schema_name(alloc: Global) -> Result<String, AllocError> {
        <Vec<(KA, VA)> as JsonSchemaAs<Vec<(K, V)>>>::schema_name(alloc)
    }

    fn schema_id(alloc: Global) -> Result<String, AllocError> {
        <Vec<(KA, VA)> as JsonSchemaAs<Vec<(K, V)>>>::schema_id(alloc)
    }

    fn json_schema(alloc: Global) -> Result<SchemaTree, AllocError> {
        <Vec<(KA, VA)> as JsonSchemaAs<Vec<(K, V)>>>::json_schema(alloc)
    }
}

impl<K: Keyed, V: Meant, KA: SchemaAdapter<K>, VA: SchemaAdapter<V>> SchemaAdapter<BTreeMap<K, V>>
    for Vec<(KA, VA)> {
    ghost use Rattle.sw_schemas.specs.Laws.MapList.{map_list_fits};

    ghost fits = { map_list_fits K.order KA.fits VA.fits };
}

/// The schema of a list of tuples of two: a key, then its value.
impl<K: Keyed, V: Meant, KA: JsonSchemaAs<K>, VA: JsonSchemaAs<V>> JsonSchemaAs<HashMap<K, V>>
    for Vec<(KA, VA)> {
    ghost use Rattle.sw_schemas.specs.Definitions.{entry_list_definition};

    ghost definition = { entry_list_definition KA.definition VA.definition };

    fn inline_schema() -> bool {
        true
    }

    fn schema_name(alloc: Global) -> Result<String, AllocError> {
        <Vec<(KA, VA)> as JsonSchemaAs<Vec<(K, V)>>>::schema_name(alloc)
    }

    fn schema_id(alloc: Global) -> Result<String, AllocError> {
        <Vec<(KA, VA)> as JsonSchemaAs<Vec<(K, V)>>>::schema_id(alloc)
    }

    fn json_schema(alloc: Global) -> Result<SchemaTree, AllocError> {
        <Vec<(KA, VA)> as JsonSchemaAs<Vec<(K, V)>>>::json_schema(alloc)
    }
}

impl<K: Keyed, V: Meant, KA: SchemaAdapter<K>, VA: SchemaAdapter<V>> SchemaAdapter<HashMap<K, V>>
    for Vec<(KA, VA)> {
    ghost use Rattle.sw_schemas.specs.Laws.MapList.{map_list_fits};

    ghost fits = { map_list_fits K.order KA.fits VA.fits };
}
