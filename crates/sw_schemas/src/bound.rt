use crate::names::joined;
use crate::schema_as::{JsonSchemaAs, SchemaAdapter};
use crate::variants::variant;
use std::alloc::{AllocError, Global};
use std::ops::Bound;
use sw_schema::lists::SchemaList;
use sw_schema::schema::SchemaTree;
use sw_tree::meant::Meant;

/// Exactly one of an object with `Included`, an object with `Excluded`, both of the part's schema, and the text `Unbounded`.
impl<T: Meant, A: JsonSchemaAs<T>> JsonSchemaAs<Bound<T>> for Bound<A> {
    ghost use Rattle.sw_schemas.specs.Definitions.{bound_definition};

    ghost definition = { bound_definition A.definition };

    fn inline_schema() -> bool {
        true
    }

    fn schema_name(alloc: Global) -> Result<String, AllocError> {
        joined(alloc, "Bound_of_", A::schema_name(alloc)?.as_str())
    }

    fn schema_id(alloc: Global) -> Result<String, AllocError> {
        joined(alloc, "Bound_of_", A::schema_id(alloc)?.as_str())
    }

    fn json_schema(alloc: Global) -> Result<SchemaTree, AllocError> {
        let value = A::json_schema(alloc)?;
        let copy = value.copy(alloc)?;
        let mut options = SchemaList::new(alloc);
        options.push(variant(alloc, "Included", value)?)?;
        options.push(variant(alloc, "Excluded", copy)?)?;
        options.push(SchemaTree::constant(String::from_str(alloc, "Unbounded")?))?;
        Ok(SchemaTree::one_of(options))
    }
}

impl<T: Meant, A: SchemaAdapter<T>> SchemaAdapter<Bound<T>> for Bound<A> {
    ghost use Rattle.sw_schemas.specs.Laws.Tagged.{bound_fits};

    ghost fits = { bound_fits A.fits };
}
