//! A range is an object of its bounds, all required, each valid for the part's schema.

ghost use Rattle.std.specs.Prelude.{◌≡◌, IfOk};
ghost use Rattle.sw_schemas.specs.Definitions.{closed_range_definition};

use crate::names::joined;
use crate::schema_as::{JsonSchemaAs, SchemaAdapter};
use std::alloc::{AllocError, Global};
use std::ops::{Range, RangeFrom, RangeInclusive, RangeTo};
use sw_schema::lists::FieldList;
use sw_schema::schema::{SchemaField, SchemaTree};
use sw_tree::meant::Meant;

impl<T: Meant, A: JsonSchemaAs<T>> JsonSchemaAs<Range<T>> for Range<A> {
    ghost definition = { closed_range_definition A.definition };

    fn inline_schema() -> bool {
        true
    }

    fn schema_name(alloc: Global) -> Result<String, AllocError> {
        joined(alloc, "Range_of_", A::schema_name(alloc)?.as_str())
    }

    fn schema_id(alloc: Global) -> Result<String, AllocError> {
        joined(alloc, "Range_of_", A::schema_id(alloc)?.as_str())
    }

    fn json_schema(alloc: Global) -> Result<SchemaTree, AllocError> {
        both_bounds::<T, A>(alloc)
    }
}

impl<T: Meant, A: SchemaAdapter<T>> SchemaAdapter<Range<T>> for Range<A> {
    ghost use Rattle.sw_schemas.specs.Laws.Ranges.{closed_range_fits};

    ghost fits = { closed_range_fits A.fits };
}

impl<T: Meant, A: JsonSchemaAs<T>> JsonSchemaAs<RangeInclusive<T>> for RangeInclusive<A> {
    ghost definition = { closed_range_definition A.definition };

    fn inline_schema() -> bool {
        true
    }

    fn schema_name(alloc: Global) -> Result<String, AllocError> {
        joined(alloc, "Range_of_", A::schema_name(alloc)?.as_str())
    }

    fn schema_id(alloc: Global) -> Result<String, AllocError> {
        joined(alloc, "Range_of_", A::schema_id(alloc)?.as_str())
    }

    fn json_schema(alloc: Global) -> Result<SchemaTree, AllocError> {
        both_bounds::<T, A>(alloc)
    }
}

impl<T: Meant, A: SchemaAdapter<T>> SchemaAdapter<RangeInclusive<T>> for RangeInclusive<A> {
    ghost use Rattle.sw_schemas.specs.Laws.Ranges.{inclusive_fits};

    ghost fits = { inclusive_fits A.fits };
}

impl<T: Meant, A: JsonSchemaAs<T>> JsonSchemaAs<RangeFrom<T>> for RangeFrom<A> {
    ghost use Rattle.sw_schemas.specs.Definitions.{range_from_definition};

    ghost definition = { range_from_definition A.definition };

    fn inline_schema() -> bool {
        true
    }

    fn schema_name(alloc: Global) -> Result<String, AllocError> {
        joined(alloc, "RangeFrom_of_", A::schema_name(alloc)?.as_str())
    }

    fn schema_id(alloc: Global) -> Result<String, AllocError> {
        joined(alloc, "RangeFrom_of_", A::schema_id(alloc)?.as_str())
    }

    fn json_schema(alloc: Global) -> Result<SchemaTree, AllocError> {
        let mut fields = FieldList::new(alloc);
        let name = String::from_str(alloc, "start")?;
        fields.push(SchemaField::new(name, A::json_schema(alloc)?, true))?;
        Ok(SchemaTree::fields(fields))
    }
}

impl<T: Meant, A: SchemaAdapter<T>> SchemaAdapter<RangeFrom<T>> for RangeFrom<A> {
    ghost use Rattle.sw_schemas.specs.Laws.Ranges.{range_from_fits};

    ghost fits = { range_from_fits A.fits };
}

impl<T: Meant, A: JsonSchemaAs<T>> JsonSchemaAs<RangeTo<T>> for RangeTo<A> {
    ghost use Rattle.sw_schemas.specs.Definitions.{range_to_definition};

    ghost definition = { range_to_definition A.definition };

    fn inline_schema() -> bool {
        true
    }

    fn schema_name(alloc: Global) -> Result<String, AllocError> {
        joined(alloc, "RangeTo_of_", A::schema_name(alloc)?.as_str())
    }

    fn schema_id(alloc: Global) -> Result<String, AllocError> {
        joined(alloc, "RangeTo_of_", A::schema_id(alloc)?.as_str())
    }

    fn json_schema(alloc: Global) -> Result<SchemaTree, AllocError> {
        let mut fields = FieldList::new(alloc);
        let name = String::from_str(alloc, "end")?;
        fields.push(SchemaField::new(name, A::json_schema(alloc)?, true))?;
        Ok(SchemaTree::fields(fields))
    }
}

impl<T: Meant, A: SchemaAdapter<T>> SchemaAdapter<RangeTo<T>> for RangeTo<A> {
    ghost use Rattle.sw_schemas.specs.Laws.Ranges.{range_to_fits};

    ghost fits = { range_to_fits A.fits };
}

/// The object of `start` and `end`, both required.
fn both_bounds<T: Meant, A: JsonSchemaAs<T>>(alloc: Global) -> Result<SchemaTree, AllocError>
    ensures { IfOk result (λ s. s ≡ (closed_range_definition A.definition).schema) }
{
    let start = A::json_schema(alloc)?;
    let end = start.copy(alloc)?;
    let mut fields = FieldList::new(alloc);
    fields.push(SchemaField::new(String::from_str(alloc, "start")?, start, true))?;
    fields.push(SchemaField::new(String::from_str(alloc, "end")?, end, true))?;
    Ok(SchemaTree::fields(fields))
}
