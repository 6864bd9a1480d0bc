use crate::names::joined;
use crate::schema_as::{JsonSchemaAs, SchemaAdapter};
use std::alloc::{AllocError, Global};
use std::collections::LinkedList;
use sw_schema::schema::SchemaTree;
use sw_tree::meant::Meant;

/// An array of items that are valid for the part's schema.
impl<T: Meant, A: JsonSchemaAs<T>> JsonSchemaAs<LinkedList<T>> for LinkedList<A> {
    ghost use Rattle.sw_schemas.specs.Definitions.{list_definition};

    ghost definition = { list_definition A.definition };

    fn inline_schema() -> bool {
        true
    }

    fn schema_name(alloc: Global) -> Result<String, AllocError> {
        joined(alloc, "Array_of_", A::schema_name(alloc)?.as_str())
    }

    fn schema_id(alloc: Global) -> Result<String, AllocError> {
        joined(alloc, "Array_of_", A::schema_id(alloc)?.as_str())
    }

    fn json_schema(alloc: Global) -> Result<SchemaTree, AllocError> {
        SchemaTree::array(alloc, A::json_schema(alloc)?, None, None, false)
    }
}

impl<T: Meant, A: SchemaAdapter<T>> SchemaAdapter<LinkedList<T>> for LinkedList<A> {
    ghost use Rattle.sw_schemas.specs.Laws.Lists.{list_fits};

    ghost fits = { list_fits A.fits };
}
