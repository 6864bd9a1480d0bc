use std::alloc::{AllocError, Global};
use sw_core::adapter::Adapter;
use sw_schema::schema::SchemaTree;
use sw_tree::meant::Meant;

/// Names a schema of a `T`, in place of serde_with's `JsonSchemaAs`.
///
/// It names its definition: the schema, its name and id, and whether it stands inline.
pub trait JsonSchemaAs<T: Meant> {
    ghost use Rattle.std.specs.Prelude.{◌≡◌, IfOk, string_bytes};
    ghost use Rattle.sw_schema.specs.Definition.{Definition};

    ghost definition: { Definition };

    /// Whether the schema stands inline where it is used, rather than under its name.
    fn inline_schema() -> bool
        ensures { result ≡ definition.inlined };

    /// The schema's name. The one error is want of memory.
    fn schema_name(alloc: Global) -> Result<String, AllocError>
        ensures { IfOk result (λ s. string_bytes s ≡ definition.name) };

    /// The schema's id. The one error is want of memory.
    fn schema_id(alloc: Global) -> Result<String, AllocError>
        ensures { IfOk result (λ s. string_bytes s ≡ definition.id) };

    /// The schema. The one error is want of memory.
    fn json_schema(alloc: Global) -> Result<SchemaTree, AllocError>
        ensures { IfOk result (λ s. s ≡ definition.schema) };
}

/// An adapter that writes what is valid for its schema.
///
/// In value place of JSON, buffered or not, where its expression is sound there, the image of each tree that is written is valid
/// for the schema, under what the adapter assumes. Its law follows from those of its parts.
pub trait SchemaAdapter<T: Meant>: Adapter<T> + JsonSchemaAs<T> {
    ghost use Rattle.sw_schemas.specs.FitsSchema.{FitsSchema};

    ghost fits: { FitsSchema T.is_meaning Self.writes Self.expr (Self.definition.schema) Self.assumes };
}
