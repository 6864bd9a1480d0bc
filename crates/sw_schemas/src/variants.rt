//! The schema of a variant.

ghost use Rattle.std.specs.Prelude.{◌≡◌, IfOk};
ghost use Rattle.sw_schemas.specs.Definitions.{variant};

use std::alloc::{AllocError, Global};
use sw_schema::lists::FieldList;
use sw_schema::schema::{SchemaField, SchemaTree};

/// The object with the field of that name, whose value has that schema. The one error is want of memory.
pub(crate) fn variant(
    alloc: Global,
    name: &str,
    value: SchemaTree,
) -> Result<SchemaTree, AllocError>
    ensures { IfOk result (λ s. s ≡ variant name.now value) }
{
    let mut fields = FieldList::new(alloc);
    fields.push(SchemaField::new(String::from_str(alloc, name)?, value, true))?;
    Ok(SchemaTree::fields(fields))
}
