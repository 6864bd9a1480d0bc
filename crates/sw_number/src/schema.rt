//! The schemas of numbers without 0.

use crate::nonzero::NonZero;
use std::alloc::{AllocError, Global};
use sw_schema::elements::NumberSchema;
use sw_schema::json_schema::JsonSchema;
use sw_schema::schema::SchemaTree;

/// The number type's own, which takes 0 too.
impl<N: NumberSchema> JsonSchema for NonZero<N> {
    ghost use Rattle.sw_number.specs.Laws.NonZero.{nonzero_writes_schema};
    ghost use Rattle.sw_schema.specs.Elements.{number_definition};

    ghost definition = { number_definition N.named N.lowest N.highest };

    fn inline_schema() -> bool {
        <N as JsonSchema>::inline_schema()
    }

    fn schema_name(alloc: Global) -> Result<String, AllocError> {
        <N as JsonSchema>::schema_name(alloc)
    }

    fn schema_id(alloc: Global) -> Result<String, AllocError> {
        <N as JsonSchema>::schema_id(alloc)
    }

    fn json_schema(alloc: Global) -> Result<SchemaTree, AllocError> {
        <N as JsonSchema>::json_schema(alloc)
    }

    ghost fits = { nonzero_writes_schema N.within };
}
