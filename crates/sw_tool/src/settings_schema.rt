//! The schema of settings: a map of the fields, of which limits alone may be missing.

ghost use Rattle.std.specs.Prelude.{◌≡◌, IfOk};

use crate::settings::{Settings, SettingsAs};
use std::alloc::{AllocError, Global};
use std::collections::BTreeMap;
use sw_schema::lists::FieldList;
use sw_schema::schema::{SchemaField, SchemaTree};
use sw_schemas::schema_as::{JsonSchemaAs, SchemaAdapter};
use sw_tree::meant::Meant;

/// The field of that name with the schema of `A`. The one error is want of memory.
fn field<T: Meant, A: JsonSchemaAs<T>>(
    alloc: Global,
    name: &str,
    required: bool,
) -> Result<SchemaField, AllocError>
    ensures { IfOk result (λ f. f ≡ record { name = name.now; schema = A.definition.schema; required = required }) }
{
    let name = String::from_str(alloc, name)?;
    Ok(SchemaField::new(name, A::json_schema(alloc)?, required))
}

impl<
    A: JsonSchemaAs<String>,
    B: JsonSchemaAs<Vec<u32>>,
    C: JsonSchemaAs<Option<(u32, u32)>>,
    D: JsonSchemaAs<BTreeMap<String, String>>,
> JsonSchemaAs<Settings> for SettingsAs<A, B, C, D> {
    ghost use Rattle.sw_tool.specs.Settings.{settings_definition};

    ghost definition = { settings_definition A.definition B.definition C.definition D.definition };

    fn inline_schema() -> bool {
        false
    }

    fn schema_name(alloc: Global) -> Result<String, AllocError> {
        String::from_str(alloc, "Settings")
    }

    fn schema_id(alloc: Global) -> Result<String, AllocError> {
        String::from_str(alloc, "Settings")
    }

    fn json_schema(alloc: Global) -> Result<SchemaTree, AllocError> {
        let mut list = FieldList::new(alloc);
        list.push(field::<String, A>(alloc, "name", true)?)?;
        list.push(field::<Vec<u32>, B>(alloc, "ids", true)?)?;
        list.push(field::<Option<(u32, u32)>, C>(alloc, "limits", false)?)?;
        list.push(field::<BTreeMap<String, String>, D>(alloc, "labels", true)?)?;
        Ok(SchemaTree::fields(list))
    }
}

impl<
    A: SchemaAdapter<String>,
    B: SchemaAdapter<Vec<u32>>,
    C: SchemaAdapter<Option<(u32, u32)>>,
    D: SchemaAdapter<BTreeMap<String, String>>,
> SchemaAdapter<Settings> for SettingsAs<A, B, C, D> {
    ghost use Rattle.std.specs.Prelude.{[], ◌∷◌, codes, false, refl};
    ghost use Rattle.sw_check.specs.declared.grade.Grade.TheVariants.{Exact};
    ghost use Rattle.sw_schemas.specs.Laws.Records.{required, optional, record_fits};

    ghost fits = { record_fits
        (required (codes "name") A.fits ∷ required (codes "ids") B.fits ∷ optional (codes "limits") C.fits ∷ required (codes "labels") D.fits ∷ [])
        refl
        false
        Exact };
}
