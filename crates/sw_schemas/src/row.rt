//! The schemas and names of parts side by side, in the rows that `sw_core` reads and writes: `(A, (B, ()))` is the row of `A` and `B`.

ghost use Rattle.std.specs.Prelude.{◌≡◌, ◌∷◌, ◌++◌, codes, map, IfOk, string_bytes};
ghost use Rattle.sw_schema.specs.Definition.{Definition};
ghost use Rattle.sw_schema.specs.Schema.{schemas, tuple};
ghost use Rattle.sw_schemas.specs.Definitions.{parted};

use crate::names::joined;
use crate::schema_as::JsonSchemaAs;
use std::alloc::{AllocError, Global};
use sw_schema::lists::SchemaList;
use sw_schema::schema::SchemaTree;
use sw_tree::meant::Meant;

/// Adapters side by side that name schemas of a row of values.
pub(crate) trait SchemaRow<V> {
    ghost use Rattle.std.specs.Prelude.{◌≡◌, ◌∷◌, ◌++◌, List, map, IfOk, string_bytes};
    ghost use Rattle.sw_schema.specs.Definition.{Definition};
    ghost use Rattle.sw_schemas.specs.Definitions.{parted};

    ghost definitions: { List Definition };

    /// The name, and the parts' names behind it.
    fn names_behind(alloc: Global, name: String) -> Result<String, AllocError>
        ensures { IfOk result (λ s. string_bytes s ≡ parted (string_bytes name ∷ map (λ (x : Definition). x.name) definitions)) };

    /// The id, and the parts' ids behind it.
    fn ids_behind(alloc: Global, id: String) -> Result<String, AllocError>
        ensures { IfOk result (λ s. string_bytes s ≡ parted (string_bytes id ∷ map (λ (x : Definition). x.id) definitions)) };

    /// These schemas, and the parts' schemas behind them.
    fn schemas_behind(alloc: Global, list: SchemaList) -> Result<SchemaList, AllocError>
        ensures { IfOk result (λ l. l ≡ list ++ map (λ (x : Definition). x.schema) definitions) };
}

impl SchemaRow<()> for () {
    ghost use Rattle.std.specs.Prelude.{[]};

    ghost definitions = { [] };

    fn names_behind(_alloc: Global, name: String) -> Result<String, AllocError> {
        Ok(name)
    }

    fn ids_behind(_alloc: Global, id: String) -> Result<String, AllocError> {
        Ok(id)
    }

    fn schemas_behind(_alloc: Global, list: SchemaList) -> Result<SchemaList, AllocError> {
        Ok(list)
    }
}

impl<T: Meant, V, A: JsonSchemaAs<T>, O: SchemaRow<V>> SchemaRow<(T, V)> for (A, O) {
    ghost use Rattle.std.specs.Prelude.{◌∷◌};

    ghost definitions = { A.definition ∷ O.definitions };

    fn names_behind(alloc: Global, name: String) -> Result<String, AllocError> {
        let others = O::names_behind(alloc, A::schema_name(alloc)?)?;
        both_names(alloc, name.as_str(), others.as_str())
    }

    fn ids_behind(alloc: Global, id: String) -> Result<String, AllocError> {
        let others = O::ids_behind(alloc, A::schema_id(alloc)?)?;
        both_names(alloc, id.as_str(), others.as_str())
    }

    fn schemas_behind(alloc: Global, list: SchemaList) -> Result<SchemaList, AllocError> {
        let mut list = list;
        list.push(A::json_schema(alloc)?)?;
        O::schemas_behind(alloc, list)
    }
}

/// The name, and the others behind it.
fn both_names(alloc: Global, name: &str, others: &str) -> Result<String, AllocError>
    ensures { IfOk result (λ s. string_bytes s ≡ name.now ++ codes "_and_" ++ others.now) }
{
    joined(alloc, joined(alloc, name, "_and_")?.as_str(), others)
}

/// The name of a tuple of a first part and the others.
pub(crate) fn tuple_name<T: Meant, V, A: JsonSchemaAs<T>, O: SchemaRow<V>>(
    alloc: Global,
) -> Result<String, AllocError>
    ensures { IfOk result (λ s. string_bytes s ≡ codes "Tuple_of_" ++ parted (map (λ (x : Definition). x.name) (A.definition ∷ O.definitions))) }
{
    let names = O::names_behind(alloc, A::schema_name(alloc)?)?;
    joined(alloc, "Tuple_of_", names.as_str())
}

/// The id of a tuple of a first part and the others.
pub(crate) fn tuple_id<T: Meant, V, A: JsonSchemaAs<T>, O: SchemaRow<V>>(
    alloc: Global,
) -> Result<String, AllocError>
    ensures { IfOk result (λ s. string_bytes s ≡ codes "Tuple_of_" ++ parted (map (λ (x : Definition). x.id) (A.definition ∷ O.definitions))) }
{
    let ids = O::ids_behind(alloc, A::schema_id(alloc)?)?;
    joined(alloc, "Tuple_of_", ids.as_str())
}

/// The schema of a tuple of these parts.
pub(crate) fn tuple_schema<V, O: SchemaRow<V>>(alloc: Global) -> Result<SchemaTree, AllocError>
    ensures { IfOk result (λ s. s ≡ tuple (schemas (map (λ (x : Definition). x.schema) O.definitions))) }
{
    Ok(SchemaTree::tuple(O::schemas_behind(alloc, SchemaList::new(alloc))?))
}
