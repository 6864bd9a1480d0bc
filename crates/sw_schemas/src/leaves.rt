//! The schemas of `Same` and `DisplayFromStr`.

use crate::schema_as::{JsonSchemaAs, SchemaAdapter};
use std::alloc::{AllocError, Global};
use sw_core::display::DisplayFromStr;
use sw_core::same::Same;
use sw_elem::text::TextForm;
use sw_schema::json_schema::JsonSchema;
use sw_schema::schema::SchemaTree;

impl<T: JsonSchema> JsonSchemaAs<T> for Same {
    ghost definition = { T.definition };

    fn inline_schema() -> bool {
        T::inline_schema()
    }

    fn schema_name(alloc: Global) -> Result<String, AllocError> {
        T::schema_name(alloc)
    }

    fn schema_id(alloc: Global) -> Result<String, AllocError> {
        T::schema_id(alloc)
    }

    fn json_schema(alloc: Global) -> Result<SchemaTree, AllocError> {
        T::json_schema(alloc)
    }
}

impl<T: JsonSchema> SchemaAdapter<T> for Same {
    ghost use Rattle.sw_check.specs.Form.{leaf};
    ghost use Rattle.sw_schemas.specs.Laws.Leaves.{always_fits};

    ghost fits = { always_fits (leaf T.known) T.fits };
}

impl<T: TextForm> JsonSchemaAs<T> for DisplayFromStr {
    ghost use Rattle.sw_schema.specs.Elements.{text_definition};

    ghost definition = { text_definition };

    fn inline_schema() -> bool {
        String::inline_schema()
    }

    fn schema_name(alloc: Global) -> Result<String, AllocError> {
        String::schema_name(alloc)
    }

    fn schema_id(alloc: Global) -> Result<String, AllocError> {
        String::schema_id(alloc)
    }

    fn json_schema(alloc: Global) -> Result<SchemaTree, AllocError> {
        String::json_schema(alloc)
    }
}

impl<T: TextForm> SchemaAdapter<T> for DisplayFromStr {
    ghost use Rattle.sw_check.specs.Form.{leaf};
    ghost use Rattle.sw_elem.specs.Facts.{text_facts};
    ghost use Rattle.sw_schema.specs.Laws.Leaves.{texted_writes_schema};
    ghost use Rattle.sw_schemas.specs.Laws.Leaves.{always_fits};

    ghost fits = { always_fits (leaf text_facts) (texted_writes_schema T.is_meaning T.shows) };
}
