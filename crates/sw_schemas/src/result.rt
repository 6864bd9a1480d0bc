use crate::names::joined;
use crate::schema_as::{JsonSchemaAs, SchemaAdapter};
use crate::variants::variant;
use std::alloc::{AllocError, Global};
use sw_schema::lists::SchemaList;
use sw_schema::schema::SchemaTree;
use sw_tree::meant::Meant;

/// Exactly one of an object with `Ok`, of the value's schema, and an object with `Err`, of the error's.
impl<T: Meant, E: Meant, A: JsonSchemaAs<T>, B: JsonSchemaAs<E>> JsonSchemaAs<Result<T, E>>
    for Result<A, B> {
    ghost use Rattle.sw_schemas.specs.Definitions.{result_definition};

    ghost definition = { result_definition A.definition B.definition };

    fn inline_schema() -> bool {
        true
    }

    fn schema_name(alloc: Global) -> Result<String, AllocError> {
        let value = A::schema_name(alloc)?;
        let error = joined(alloc, "_or_", B::schema_name(alloc)?.as_str())?;
        joined(
            alloc,
            "Result_of_",
            joined(alloc, value.as_str(), error.as_str())?.as_str(),
        )
    }

    fn schema_id(alloc: Global) -> Result<String, AllocError> {
        let value = A::schema_id(alloc)?;
        let error = joined(alloc, "_or_", B::schema_id(alloc)?.as_str())?;
        joined(
            alloc,
            "Result_of_",
            joined(alloc, value.as_str(), error.as_str())?.as_str(),
        )
    }

    fn json_schema(alloc: Global) -> Result<SchemaTree, AllocError> {
        let mut options = SchemaList::new(alloc);
        options.push(variant(alloc, "Ok", A::json_schema(alloc)?)?)?;
        options.push(variant(alloc, "Err", B::json_schema(alloc)?)?)?;
        Ok(SchemaTree::one_of(options))
    }
}

impl<T: Meant, E: Meant, A: SchemaAdapter<T>, B: SchemaAdapter<E>> SchemaAdapter<Result<T, E>>
    for Result<A, B> {
    ghost use Rattle.sw_schemas.specs.Laws.Tagged.{result_fits};

    ghost fits = { result_fits A.fits B.fits };
}
