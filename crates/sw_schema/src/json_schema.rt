use crate::schema::SchemaTree;
use std::alloc::{AllocError, Global};
use sw_elem::element::Element;

/// A type that writes itself, with the schema of what it writes as JSON, as schemars' `JsonSchema`.
///
/// It names its definition: the schema, its name and id, and whether it stands inline. In value place of JSON, buffered or not,
/// the image of each tree that is written is valid for the schema.
pub trait JsonSchema: Element {
    ghost use Rattle.std.specs.Prelude.{◌≡◌, IfOk, string_bytes};
    ghost use Rattle.sw_schema.specs.Definition.{Definition};
    ghost use Rattle.sw_schema.specs.JsonSchema.{WritesSchema};

    ghost definition: { Definition };

    /// Whether the schema stands inline where it is used, rather than under its name.
    fn inline_schema() -> bool
        ensures { result ≡ definition.inlined };

    /// The schema's name. The one error is want of memory.
    fn schema_name(alloc: Global) -> Result<String, AllocError>
        ensures { IfOk result (λ s. string_bytes s ≡ definition.name) };

    /// The schema's id. The one error is want of memory.
    fn schema_id(alloc: Global) -> Result<String, AllocError>
        ensures { IfOk result (λ s. string_bytes s ≡ definition.id) };

    /// The schema. The one error is want of memory.
    fn json_schema(alloc: Global) -> Result<SchemaTree, AllocError>
        ensures { IfOk result (λ s. s ≡ definition.schema) };

    ghost fits: { WritesSchema Self.is_meaning Self.writes definition.schema };
}
