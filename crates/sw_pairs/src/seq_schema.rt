//! The schemas of maps as the lists of their entries.

use crate::seq::Seq;
use std::alloc::{AllocError, Global};
use std::collections::{BTreeMap, HashMap};
use sw_schema::schema::SchemaTree;
use sw_schemas::schema_as::{JsonSchemaAs, SchemaAdapter};
use sw_tree::meant::Meant;
use sw_tree::ranked::Keyed;

impl<K: Keyed, V: Meant, KA: JsonSchemaAs<K>, VA: JsonSchemaAs<V>> JsonSchemaAs<BTreeMap<K, V>>
    for Seq<(KA, VA)> {
    ghost use Rattle.sw_schemas.specs.Definitions.{entry_list_definition};

    ghost definition = { entry_list_definition KA.definition VA.definition };

    fn inline_schema() -> bool {
        true
    }

    fn schema_name(alloc: Global) -> Result<String, AllocError> {
        <Vec<(KA, VA)> as JsonSchemaAs<BTreeMap<K, V>>>::schema_name(alloc)
    }

    fn schema_id(alloc: Global) -> Result<String, AllocError> {
        <Vec<(KA, VA)> as JsonSchemaAs<BTreeMap<K, V>>>::schema_id(alloc)
    }

    fn json_schema(alloc: Global) -> Result<SchemaTree, AllocError> {
        <Vec<(KA, VA)> as JsonSchemaAs<BTreeMap<K, V>>>::json_schema(alloc)
    }
}

impl<K: Keyed, V: Meant, KA: SchemaAdapter<K>, VA: SchemaAdapter<V>> SchemaAdapter<BTreeMap<K, V>>
    for Seq<(KA, VA)> {
    ghost use Rattle.sw_schemas.specs.Laws.MapList.{map_list_fits};

    ghost fits = { map_list_fits K.order KA.fits VA.fits };
}

impl<K: Keyed, V: Meant, KA: JsonSchemaAs<K>, VA: JsonSchemaAs<V>> JsonSchemaAs<HashMap<K, V>>
    for Seq<(KA, VA)> {
    ghost use Rattle.sw_schemas.specs.Definitions.{entry_list_definition};

    ghost definition = { entry_list_definition KA.definition VA.definition };

    fn inline_schema() -> bool {
        true
    }

    fn schema_name(alloc: Global) -> Result<String, AllocError> {
        <Vec<(KA, VA)> as JsonSchemaAs<HashMap<K, V>>>::schema_name(alloc)
    }

    fn schema_id(alloc: Global) -> Result<String, AllocError> {
        <Vec<(KA, VA)> as JsonSchemaAs<HashMap<K, V>>>::schema_id(alloc)
    }

    fn json_schema(alloc: Global) -> Result<SchemaTree, AllocError> {
        <Vec<(KA, VA)> as JsonSchemaAs<HashMap<K, V>>>::json_schema(alloc)
    }
}

impl<K: Keyed, V: Meant, KA: SchemaAdapter<K>, VA: SchemaAdapter<V>> SchemaAdapter<HashMap<K, V>>
    for Seq<(KA, VA)> {
    ghost use Rattle.sw_schemas.specs.Laws.MapList.{map_list_fits};

    ghost fits = { map_list_fits K.order KA.fits VA.fits };
}
