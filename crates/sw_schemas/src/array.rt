use crate::names::sized;
use crate::schema_as::{JsonSchemaAs, SchemaAdapter};
use std::alloc::{AllocError, Global};
use sw_schema::schema::SchemaTree;
use sw_tree::meant::Meant;

/// An array of exactly `N` items that are valid for the part's schema.
impl<T: Meant, A: JsonSchemaAs<T>, const N: usize> JsonSchemaAs<[T; N]> for [A; N] {
    ghost use Rattle.sw_schemas.specs.Definitions.{array_definition};

    ghost definition = { array_definition N A.definition };

    fn inline_schema() -> bool {
        true
    }

    fn schema_name(alloc: Global) -> Result<String, AllocError> {
        sized(alloc, N, A::schema_name(alloc)?.as_str())
    }

    fn schema_id(alloc: Global) -> Result<String, AllocError> {
        sized(alloc, N, A::schema_id(alloc)?.as_str())
    }

    fn json_schema(alloc: Global) -> Result<SchemaTree, AllocError> {
        SchemaTree::array(alloc, A::json_schema(alloc)?, Some(N), Some(N), false)
    }
}

impl<T: Meant + Copy + Default, A: SchemaAdapter<T>, const N: usize> SchemaAdapter<[T; N]>
    for [A; N] {
    ghost use Rattle.sw_schemas.specs.Laws.Arrays.{array_fits};

    ghost fits = { array_fits N A.fits };
}
