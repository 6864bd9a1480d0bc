//! Schemas, copied.

ghost use Rattle.std.specs.Prelude.{◌≡◌, IfOk};

use crate::schema::{SchemaField, SchemaTree, Shape};
use std::alloc::{AllocError, Global};

impl SchemaTree {
    /// An equal schema. The one error is want of memory.
    pub fn copy(&self, alloc: Global) -> Result<SchemaTree, AllocError>
        ensures { IfOk result (λ s. s ≡ self.now) }
    {
        copy_of(alloc, self)
    }
}

#[cycle(copy_of)]
fn copy_of(alloc: Global, schema: &SchemaTree) -> Result<SchemaTree, AllocError>
    ensures { IfOk result (λ s. s ≡ schema.now) }
{
    match &schema.shape {
        Shape::Any => Ok(SchemaTree::any()),
        Shape::Null => Ok(SchemaTree::null()),
        Shape::Boolean => Ok(SchemaTree::boolean()),
        Shape::Integer(minimum, maximum) => Ok(SchemaTree::integer(*minimum, *maximum)),
        Shape::Number(minimum, write_only) => Ok(SchemaTree::number(*minimum, *write_only)),
        Shape::Text(pattern, base64, write_only) => {
            Ok(SchemaTree::text(*pattern, *base64, *write_only))
        }
        Shape::Const(name) => Ok(SchemaTree::constant(String::from_str(alloc, name.as_str())?)),
        Shape::Array(items, min, max, unique) => {
            SchemaTree::array(alloc, copy_of(alloc, items)?, *min, *max, *unique)
        }
        Shape::Tuple(parts) => Ok(SchemaTree {
            shape: Shape::Tuple(copies_of(alloc, parts.as_slice())?),
        }),
        Shape::Object(values) => SchemaTree::object(alloc, copy_of(alloc, values)?),
        Shape::Fields(fields) => Ok(SchemaTree {
            shape: Shape::Fields(field_copies_of(alloc, fields.as_slice())?),
        }),
        Shape::AnyOf(options) => Ok(SchemaTree {
            shape: Shape::AnyOf(copies_of(alloc, options.as_slice())?),
        }),
        Shape::OneOf(options) => Ok(SchemaTree {
            shape: Shape::OneOf(copies_of(alloc, options.as_slice())?),
        }),
        Shape::WriteOnly(part) => SchemaTree::write_only(alloc, copy_of(alloc, part)?),
    }
}

#[cycle(copy_of)]
fn copies_of(alloc: Global, parts: &[SchemaTree]) -> Result<Vec<SchemaTree>, AllocError>
    ensures { IfOk result (λ v. v.items ≡ parts.now) }
{
    let mut copies = Vec::new(alloc);
    for part in parts {
        copies.push(copy_of(alloc, part)?)?;
    }
    Ok(copies)
}

#[cycle(copy_of)]
fn field_copies_of(alloc: Global, fields: &[SchemaField]) -> Result<Vec<SchemaField>, AllocError>
    ensures { IfOk result (λ v. v.items ≡ fields.now) }
{
    let mut copies = Vec::new(alloc);
    for field in fields {
        let name = String::from_str(alloc, field.name())?;
        let schema = copy_of(alloc, field.schema())?;
        copies.push(SchemaField::new(name, schema, field.required()))?;
    }
    Ok(copies)
}
