use crate::names::joined;
use crate::schema_as::{JsonSchemaAs, SchemaAdapter};
use std::alloc::{AllocError, Global};
use std::collections::HashSet;
use std::hash::Hash;
use sw_schema::schema::SchemaTree;
use sw_tree::ranked::Ranked;

/// An array of items that are valid for the part's schema, no two of them the same.
impl<T: Ranked + Hash, A: JsonSchemaAs<T> + Eq + Hash> JsonSchemaAs<HashSet<T>> for HashSet<A> {
    ghost use Rattle.sw_schemas.specs.Definitions.{set_definition};

    ghost definition = { set_definition A.definition };

    fn inline_schema() -> bool {
        true
    }

    fn schema_name(alloc: Global) -> Result<String, AllocError> {
        joined(alloc, "Set_of_", A::schema_name(alloc)?.as_str())
    }

    fn schema_id(alloc: Global) -> Result<String, AllocError> {
        joined(alloc, "Set_of_", A::schema_id(alloc)?.as_str())
    }

    fn json_schema(alloc: Global) -> Result<SchemaTree, AllocError> {
        SchemaTree::array(alloc, A::json_schema(alloc)?, None, None, true)
    }
}

impl<T: Ranked + Hash, A: SchemaAdapter<T> + Eq + Hash> SchemaAdapter<HashSet<T>> for HashSet<A> {
    ghost use Rattle.sw_schemas.specs.Laws.Sets.{set_fits};

    ghost fits = { set_fits T.order T.ranks A.keeps A.fits };
}
