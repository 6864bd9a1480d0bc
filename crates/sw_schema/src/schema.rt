ghost use Rattle.std.specs.Prelude.{◌≡◌, IfOk, string_bytes};
ghost use Rattle.sw_schema.specs.Schema.{any, null, boolean, integer, number, text, constant, array, tuple, object, fields, any_of, one_of, write_only, schemas};
ghost use Rattle.sw_schema.specs.Field.{field_row};
ghost use Rattle.sw_schema.specs.Form.{form_schema};

use crate::lists::{FieldList, SchemaList};
use crate::pattern::Pattern;
use std::alloc::{AllocError, Global};
use std::marker::Model;
use sw_tree::Whole;

/// A schema of JSON Schema 2020-12, in one of the forms that adapters say: which trees are valid, and what is marked.
///
/// It may be as deep as its user builds it. Letting it go, copying it and asking `valid` take stack for each level.
#[cycle(schema)]
#[derive(Drop)]
pub struct SchemaTree {
    pub(crate) shape: Shape,
}

#[cycle(schema)]
#[derive(Drop)]
pub(crate) enum Shape {
    Any,
    Null,
    Boolean,
    Integer(Option<Whole>, Option<Whole>),
    Number(Option<Whole>, bool),
    Text(Option<Pattern>, bool, bool),
    Const(String),
    Array(Box<SchemaTree>, Option<usize>, Option<usize>, bool),
    Tuple(Vec<SchemaTree>),
    Object(Box<SchemaTree>),
    Fields(Vec<SchemaField>),
    AnyOf(Vec<SchemaTree>),
    OneOf(Vec<SchemaTree>),
    WriteOnly(Box<SchemaTree>),
}

/// A field of maps: its name, the schema of its value, and whether an entry of the name must be there.
#[cycle(schema)]
#[derive(Drop)]
pub struct SchemaField {
    pub(crate) name: String,
    pub(crate) schema: SchemaTree,
    pub(crate) required: bool,
}

/// What a schema is, with its parts.
#[derive(Clone, Copy)]
pub enum SchemaForm<'a> {
    Any,
    Null,
    Boolean,
    Integer {
        minimum: Option<Whole>,
        maximum: Option<Whole>,
    },
    Number {
        minimum: Option<Whole>,
        write_only: bool,
    },
    Text {
        pattern: Option<Pattern>,
        base64: bool,
        write_only: bool,
    },
    Const(&'a str),
    Array {
        items: &'a SchemaTree,
        min: Option<usize>,
        max: Option<usize>,
        unique: bool,
    },
    Tuple(&'a [SchemaTree]),
    Object {
        values: &'a SchemaTree,
    },
    Fields(&'a [SchemaField]),
    AnyOf(&'a [SchemaTree]),
    OneOf(&'a [SchemaTree]),
    WriteOnly(&'a SchemaTree),
}

impl Model for SchemaTree {
    ghost use Rattle.sw_schema.specs.Schema.{Schema};
    ghost use Rattle.sw_schema.specs.Inner.Levels.{weight};
    ghost use Rattle.sw_schema.specs.Laws.SchemaCode.{coded_schema};

    ghost Value = { Schema };

    ghost coded = { coded_schema };

    ghost use Rattle.sw_schema.specs.Inner.Shape.{shape_schema};

    ghost view = { λ a. shape_schema a.shape };

    ghost size = { weight };

    ghost use Rattle.sw_schema.specs.Laws.Shape.{deep_le-weight};

    ghost size_decreases = { λ a h. deep_le-weight a.shape };
}

impl Model for SchemaField {
    ghost use Rattle.std.specs.Prelude.{string_bytes};
    ghost use Rattle.sw_schema.specs.Field.{Field};
    ghost use Rattle.sw_schema.specs.Inner.Levels.{field_weight};
    ghost use Rattle.sw_schema.specs.Laws.SchemaCode.{coded_field};
    ghost use Rattle.std.proofs.Common.{arith};

    ghost Value = { Field };

    ghost coded = { coded_field };

    ghost view = { λ a. record { name = string_bytes a.name; schema = a.schema; required = a.required } };

    ghost size = { field_weight };

    ghost size_decreases = { λ a h. Prim.omega arith };
}

impl SchemaField {
    /// The field of that name, whose value has that schema.
    pub fn new(name: String, schema: SchemaTree, required: bool) -> SchemaField
        ensures { result ≡ record { name = string_bytes name; schema = schema; required = required } }
    {
        SchemaField {
            name,
            schema,
            required,
        }
    }

    /// The name.
    pub fn name(&self) -> &str
        ensures { result.now ≡ self.now.name }
    {
        self.name.as_str()
    }

    /// The schema of the value.
    pub fn schema(&self) -> &SchemaTree
        ensures { result.now ≡ self.now.schema }
    {
        &self.schema
    }

    /// Whether an entry of the name must be there.
    pub fn required(&self) -> bool
        ensures { result ≡ self.now.required }
    {
        self.required
    }
}

impl SchemaTree {
    /// Every tree.
    pub fn any() -> SchemaTree
        ensures { result ≡ any }
    {
        SchemaTree { shape: Shape::Any }
    }

    /// The null.
    pub fn null() -> SchemaTree
        ensures { result ≡ null }
    {
        SchemaTree { shape: Shape::Null }
    }

    /// Truth values.
    pub fn boolean() -> SchemaTree
        ensures { result ≡ boolean }
    {
        SchemaTree {
            shape: Shape::Boolean,
        }
    }

    /// Numbers from the minimum to the maximum, both taken.
    pub fn integer(minimum: Option<Whole>, maximum: Option<Whole>) -> SchemaTree
        ensures { result ≡ integer minimum maximum }
    {
        SchemaTree {
            shape: Shape::Integer(minimum, maximum),
        }
    }

    /// Numbers from the minimum on, where a number need not be whole. `write_only` is a mark, which takes no tree away.
    pub fn number(minimum: Option<Whole>, write_only: bool) -> SchemaTree
        ensures { result ≡ number minimum write_only }
    {
        SchemaTree {
            shape: Shape::Number(minimum, write_only),
        }
    }

    /// Texts that the pattern matches. `base64` and `write_only` are marks, which take no tree away.
    pub fn text(pattern: Option<Pattern>, base64: bool, write_only: bool) -> SchemaTree
        ensures { result ≡ text pattern base64 write_only }
    {
        SchemaTree {
            shape: Shape::Text(pattern, base64, write_only),
        }
    }

    /// That text.
    pub fn constant(name: String) -> SchemaTree
        ensures { result ≡ constant (string_bytes name) }
    {
        SchemaTree {
            shape: Shape::Const(name),
        }
    }

    /// Lists of at least `min` items and at most `max`, each valid for `items`; where they are `unique`, no two are the same tree. The one
    /// error is want of memory.
    pub fn array(
        alloc: Global,
        items: SchemaTree,
        min: Option<usize>,
        max: Option<usize>,
        unique: bool,
    ) -> Result<SchemaTree, AllocError>
        ensures { IfOk result (λ s. s ≡ array items min max unique) }
    {
        Ok(SchemaTree {
            shape: Shape::Array(Box::new(alloc, items)?, min, max, unique),
        })
    }

    /// Lists of as many items as these, each valid for the one at its place.
    pub fn tuple(list: SchemaList) -> SchemaTree
        ensures { result ≡ tuple (schemas list) }
    {
        SchemaTree {
            shape: Shape::Tuple(list.into_parts()),
        }
    }

    /// Maps whose values are valid for `values`. The one error is want of memory.
    pub fn object(alloc: Global, values: SchemaTree) -> Result<SchemaTree, AllocError>
        ensures { IfOk result (λ s. s ≡ object values) }
    {
        Ok(SchemaTree {
            shape: Shape::Object(Box::new(alloc, values)?),
        })
    }

    /// Maps in which each entry of a listed name has a value that is valid for every field of that name, and each required name
    /// has an entry. Other names may stand there.
    pub fn fields(list: FieldList) -> SchemaTree
        ensures { result ≡ fields (field_row list) }
    {
        SchemaTree {
            shape: Shape::Fields(list.into_parts()),
        }
    }

    /// Trees that are valid for at least one of these.
    pub fn any_of(list: SchemaList) -> SchemaTree
        ensures { result ≡ any_of (schemas list) }
    {
        SchemaTree {
            shape: Shape::AnyOf(list.into_parts()),
        }
    }

    /// Trees that are valid for exactly one of these.
    pub fn one_of(list: SchemaList) -> SchemaTree
        ensures { result ≡ one_of (schemas list) }
    {
        SchemaTree {
            shape: Shape::OneOf(list.into_parts()),
        }
    }

    /// What is valid for the part, marked as written and never read. The one error is want of memory.
    pub fn write_only(alloc: Global, part: SchemaTree) -> Result<SchemaTree, AllocError>
        ensures { IfOk result (λ s. s ≡ write_only part) }
    {
        Ok(SchemaTree {
            shape: Shape::WriteOnly(Box::new(alloc, part)?),
        })
    }

    /// Its form, with its parts.
    pub fn form(&self) -> SchemaForm<'_>
        ensures { form_schema result ≡ self.now }
    {
        match &self.shape {
            Shape::Any => SchemaForm::Any,
            Shape::Null => SchemaForm::Null,
            Shape::Boolean => SchemaForm::Boolean,
            Shape::Integer(minimum, maximum) => SchemaForm::Integer {
                minimum: *minimum,
                maximum: *maximum,
            },
            Shape::Number(minimum, write_only) => SchemaForm::Number {
                minimum: *minimum,
                write_only: *write_only,
            },
            Shape::Text(pattern, base64, write_only) => SchemaForm::Text {
                pattern: *pattern,
                base64: *base64,
                write_only: *write_only,
            },
            Shape::Const(name) => SchemaForm::Const(name.as_str()),
            Shape::Array(items, min, max, unique) => SchemaForm::Array {
                items,
                min: *min,
                max: *max,
                unique: *unique,
            },
            Shape::Tuple(parts) => SchemaForm::Tuple(parts.as_slice()),
            Shape::Object(values) => SchemaForm::Object { values },
            Shape::Fields(fields) => SchemaForm::Fields(fields.as_slice()),
            Shape::AnyOf(options) => SchemaForm::AnyOf(options.as_slice()),
            Shape::OneOf(options) => SchemaForm::OneOf(options.as_slice()),
            Shape::WriteOnly(part) => SchemaForm::WriteOnly(part),
        }
    }
}
