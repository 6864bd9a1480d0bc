use crate::names::joined;
use crate::schema_as::{JsonSchemaAs, SchemaAdapter};
use std::alloc::{AllocError, Global};
use sw_schema::lists::SchemaList;
use sw_schema::schema::SchemaTree;
use sw_tree::meant::Meant;

/// What is valid for the part's schema, or null.
impl<T: Meant, A: JsonSchemaAs<T>> JsonSchemaAs<Option<T>> for Option<A> {
    ghost use Rattle.sw_schemas.specs.Definitions.{option_definition};

    ghost definition = { option_definition A.definition };

    fn inline_schema() -> bool {
        true
    }

    fn schema_name(alloc: Global) -> Result<String, AllocError> {
        joined(alloc, "Nullable_", A::schema_name(alloc)?.as_str())
    }

    fn schema_id(alloc: Global) -> Result<String, AllocError> {
        joined(alloc, "Nullable_", A::schema_id(alloc)?.as_str())
    }

    fn json_schema(alloc: Global) -> Result<SchemaTree, AllocError> {
        let mut options = SchemaList::new(alloc);
        options.push(A::json_schema(alloc)?)?;
        options.push(SchemaTree::null())?;
        Ok(SchemaTree::any_of(options))
    }
}

impl<T: Meant, A: SchemaAdapter<T>> SchemaAdapter<Option<T>> for Option<A> {
    ghost use Rattle.sw_schemas.specs.Laws.Options.{option_fits};

    ghost fits = { option_fits A.fits };
}
