use crate::schema_as::{JsonSchemaAs, SchemaAdapter};
use std::alloc::{AllocError, Global};
use sw_schema::schema::SchemaTree;
use sw_tree::meant::Meant;

/// The part's schema, under the part's name.
impl<T: Meant, A: JsonSchemaAs<T>> JsonSchemaAs<Box<T>> for Box<A> {
    ghost definition = { A.definition };

    fn inline_schema() -> bool {
        A::inline_schema()
    }

    fn schema_name(alloc: Global) -> Result<String, AllocError> {
        A::schema_name(alloc)
    }

    fn schema_id(alloc: Global) -> Result<String, AllocError> {
        A::schema_id(alloc)
    }

    fn json_schema(alloc: Global) -> Result<SchemaTree, AllocError> {
        A::json_schema(alloc)
    }
}

impl<T: Meant, A: SchemaAdapter<T>> SchemaAdapter<Box<T>> for Box<A> {
    ghost fits = { A.fits };
}
