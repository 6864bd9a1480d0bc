ghost use Rattle.std.specs.Prelude.{◌≡◌, [], ◌∷◌, ◌++◌, is_ok, if◌then◌else◌};

use crate::schema::{SchemaField, SchemaTree};
use std::alloc::{AllocError, Global};
use std::marker::Model;

/// Schemas in a row.
#[derive(Drop)]
pub struct SchemaList {
    parts: Vec<SchemaTree>,
}

impl Model for SchemaList {
    ghost use Rattle.std.specs.Prelude.{List};
    ghost use Rattle.std.specs.Coded.{coded_list};
    ghost use Rattle.sw_schema.specs.Schema.{Schema};
    ghost use Rattle.sw_schema.specs.Laws.SchemaCode.{coded_schema};

    ghost Value = { List Schema };

    ghost coded = { coded_list coded_schema };

    ghost view = { λ a. a.parts.items };
}

impl SchemaList {
    /// No schemas. It takes no memory.
    pub fn new(alloc: Global) -> SchemaList
        ensures { result ≡ [] }
    {
        SchemaList {
            parts: Vec::new(alloc),
        }
    }

    /// Appends a schema. After want of memory the list is unchanged, and the schema is given up.
    pub fn push(&mut self, part: SchemaTree) -> Result<(), AllocError>
        ensures { self.new ≡ (if is_ok result then self.old ++ part ∷ [] else self.old) }
    {
        self.parts.push(part)?;
        Ok(())
    }

    /// The schemas in order.
    pub(crate) fn into_parts(self) -> Vec<SchemaTree>
        ensures { result.items ≡ self }
    {
        self.parts
    }
}

/// Fields in a row.
#[derive(Drop)]
pub struct FieldList {
    parts: Vec<SchemaField>,
}

impl Model for FieldList {
    ghost use Rattle.std.specs.Prelude.{List};
    ghost use Rattle.std.specs.Coded.{coded_list};
    ghost use Rattle.sw_schema.specs.Field.{Field};
    ghost use Rattle.sw_schema.specs.Laws.SchemaCode.{coded_field};

    ghost Value = { List Field };

    ghost coded = { coded_list coded_field };

    ghost view = { λ a. a.parts.items };
}

impl FieldList {
    /// No fields. It takes no memory.
    pub fn new(alloc: Global) -> FieldList
        ensures { result ≡ [] }
    {
        FieldList {
            parts: Vec::new(alloc),
        }
    }

    /// Appends a field. After want of memory the list is unchanged, and the field is given up.
    pub fn push(&mut self, field: SchemaField) -> Result<(), AllocError>
        ensures { self.new ≡ (if is_ok result then self.old ++ field ∷ [] else self.old) }
    {
        self.parts.push(field)?;
        Ok(())
    }

    /// The fields in order.
    pub(crate) fn into_parts(self) -> Vec<SchemaField>
        ensures { result.items ≡ self }
    {
        self.parts
    }
}
