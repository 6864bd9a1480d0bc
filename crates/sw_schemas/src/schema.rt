ghost use Rattle.std.specs.Prelude.{◌≡◌, IfOk, string_bytes};

use crate::schema_as::JsonSchemaAs;
use std::alloc::{AllocError, Global};
use std::marker::PhantomData;
use sw_schema::schema::SchemaTree;
use sw_tree::meant::Meant;

/// The schema of a `T` by the adapter `TA`, as serde_with's `Schema`. It has no values.
pub struct Schema<T, TA> {
    named: PhantomData<(T, TA)>,
}

impl<T: Meant, TA: JsonSchemaAs<T>> Schema<T, TA> {
    /// Whether the schema stands inline, as `TA` answers.
    pub fn inline_schema() -> bool
        ensures { result ≡ TA.definition.inlined }
    {
        TA::inline_schema()
    }

    /// The schema's name, as `TA` answers.
    pub fn schema_name(alloc: Global) -> Result<String, AllocError>
        ensures { IfOk result (λ s. string_bytes s ≡ TA.definition.name) }
    {
        TA::schema_name(alloc)
    }

    /// The schema's id, as `TA` answers.
    pub fn schema_id(alloc: Global) -> Result<String, AllocError>
        ensures { IfOk result (λ s. string_bytes s ≡ TA.definition.id) }
    {
        TA::schema_id(alloc)
    }

    /// The schema, as `TA` answers.
    pub fn json_schema(alloc: Global) -> Result<SchemaTree, AllocError>
        ensures { IfOk result (λ s. s ≡ TA.definition.schema) }
    {
        TA::json_schema(alloc)
    }
}
