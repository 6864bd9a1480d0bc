//! The schemas of `PickFirst`: what it writes is valid for its first option's.

ghost use Rattle.std.specs.Prelude.{◌≡◌, [], ◌∷◌, ◌++◌, IfOk, codes, string_bytes};
ghost use Rattle.sw_schema.specs.Schema.{write_only};

use crate::pick_first::PickFirst;
use std::alloc::{AllocError, Global};
use sw_core::adapter::Adapter;
use sw_schema::lists::SchemaList;
use sw_schema::schema::SchemaTree;
use sw_schemas::names::joined;
use sw_schemas::schema_as::{JsonSchemaAs, SchemaAdapter};
use sw_tree::meant::Meant;

/// The text, and `B`'s name behind it. The one error is want of memory.
fn with_name<T: Meant, B: JsonSchemaAs<T>>(
    alloc: Global,
    mut text: String,
) -> Result<String, AllocError>
    ensures { IfOk result (λ s. string_bytes s ≡ string_bytes text ++ B.definition.name) }
{
    text.push_str(B::schema_name(alloc)?.as_str())?;
    Ok(text)
}

/// The text, and `B`'s id behind it. The one error is want of memory.
fn with_id<T: Meant, B: JsonSchemaAs<T>>(
    alloc: Global,
    mut text: String,
) -> Result<String, AllocError>
    ensures { IfOk result (λ s. string_bytes s ≡ string_bytes text ++ B.definition.id) }
{
    text.push_str(B::schema_id(alloc)?.as_str())?;
    Ok(text)
}

/// The text, closed by a parenthesis. The one error is want of memory.
fn closed(mut text: String) -> Result<String, AllocError>
    ensures { IfOk result (λ s. string_bytes s ≡ string_bytes text ++ codes ")") }
{
    text.push_str(")")?;
    Ok(text)
}

/// The schema of `A` alone. The one error is want of memory.
fn first_option<T: Meant, A: JsonSchemaAs<T>>(alloc: Global) -> Result<SchemaList, AllocError>
    ensures { IfOk result (λ list. list ≡ A.definition.schema ∷ []) }
{
    let mut options = SchemaList::new(alloc);
    options.push(A::json_schema(alloc)?)?;
    Ok(options)
}

/// The options, and the marked schema of `B` behind them. The one error is want of memory.
fn with_option<T: Meant, B: JsonSchemaAs<T>>(
    alloc: Global,
    mut options: SchemaList,
) -> Result<SchemaList, AllocError>
    ensures { IfOk result (λ list. list ≡ options ++ write_only B.definition.schema ∷ []) }
{
    options.push(SchemaTree::write_only(alloc, B::json_schema(alloc)?)?)?;
    Ok(options)
}

/// Any of that option's schema alone.
impl<T: Meant, A: JsonSchemaAs<T>> JsonSchemaAs<T> for PickFirst<(A,)> {
    ghost use Rattle.std.specs.Prelude.{[], ◌∷◌};
    ghost use Rattle.sw_policy.specs.Definitions.{pick_definition};

    ghost definition = { pick_definition (A.definition ∷ []) };

    fn inline_schema() -> bool {
        false
    }

    fn schema_name(alloc: Global) -> Result<String, AllocError> {
        closed(joined(alloc, "PickFirst(", A::schema_name(alloc)?.as_str())?)
    }

    fn schema_id(alloc: Global) -> Result<String, AllocError> {
        closed(joined(
            alloc,
            "serde_with::PickFirst(",
            A::schema_id(alloc)?.as_str(),
        )?)
    }

    fn json_schema(alloc: Global) -> Result<SchemaTree, AllocError> {
        Ok(SchemaTree::any_of(first_option::<T, A>(alloc)?))
    }
}

/// Any of the first option's schema and of the second's, which is marked since it is never written.
impl<T: Meant, A: JsonSchemaAs<T>, B: JsonSchemaAs<T>> JsonSchemaAs<T> for PickFirst<(A, B)> {
    ghost use Rattle.std.specs.Prelude.{[], ◌∷◌};
    ghost use Rattle.sw_policy.specs.Definitions.{pick_definition};

    ghost definition = { pick_definition (A.definition ∷ B.definition ∷ []) };

    fn inline_schema() -> bool {
        false
    }

    fn schema_name(alloc: Global) -> Result<String, AllocError> {
        let text = joined(alloc, "PickFirst(", A::schema_name(alloc)?.as_str())?;
        closed(with_name::<T, B>(alloc, text)?)
    }

    fn schema_id(alloc: Global) -> Result<String, AllocError> {
        let text = joined(
            alloc,
            "serde_with::PickFirst(",
            A::schema_id(alloc)?.as_str(),
        )?;
        closed(with_id::<T, B>(alloc, text)?)
    }

    fn json_schema(alloc: Global) -> Result<SchemaTree, AllocError> {
        let options = with_option::<T, B>(alloc, first_option::<T, A>(alloc)?)?;
        Ok(SchemaTree::any_of(options))
    }
}

/// As of two options.
impl<T: Meant, A: JsonSchemaAs<T>, B: JsonSchemaAs<T>, C: JsonSchemaAs<T>> JsonSchemaAs<T>
    for PickFirst<(A, B, C)> {
    ghost use Rattle.std.specs.Prelude.{[], ◌∷◌};
    ghost use Rattle.sw_policy.specs.Definitions.{pick_definition};

    ghost definition = { pick_definition (A.definition ∷ B.definition ∷ C.definition ∷ []) };

    fn inline_schema() -> bool {
        false
    }

    fn schema_name(alloc: Global) -> Result<String, AllocError> {
        let text = joined(alloc, "PickFirst(", A::schema_name(alloc)?.as_str())?;
        let text = with_name::<T, B>(alloc, text)?;
        closed(with_name::<T, C>(alloc, text)?)
    }

    fn schema_id(alloc: Global) -> Result<String, AllocError> {
        let text = joined(
            alloc,
            "serde_with::PickFirst(",
            A::schema_id(alloc)?.as_str(),
        )?;
        let text = with_id::<T, B>(alloc, text)?;
        closed(with_id::<T, C>(alloc, text)?)
    }

    fn json_schema(alloc: Global) -> Result<SchemaTree, AllocError> {
        let options = with_option::<T, B>(alloc, first_option::<T, A>(alloc)?)?;
        let options = with_option::<T, C>(alloc, options)?;
        Ok(SchemaTree::any_of(options))
    }
}

/// As of two options.
impl<
    T: Meant,
    A: JsonSchemaAs<T>,
    B: JsonSchemaAs<T>,
    C: JsonSchemaAs<T>,
    D: JsonSchemaAs<T>,
> JsonSchemaAs<T> for PickFirst<(A, B, C, D)> {
    ghost use Rattle.std.specs.Prelude.{[], ◌∷◌};
    ghost use Rattle.sw_policy.specs.Definitions.{pick_definition};

    ghost definition = { pick_definition (A.definition ∷ B.definition ∷ C.definition ∷ D.definition ∷ []) };

    fn inline_schema() -> bool {
        false
    }

    fn schema_name(alloc: Global) -> Result<String, AllocError> {
        let text = joined(alloc, "PickFirst(", A::schema_name(alloc)?.as_str())?;
        let text = with_name::<T, B>(alloc, text)?;
        let text = with_name::<T, C>(alloc, text)?;
        closed(with_name::<T, D>(alloc, text)?)
    }

    fn schema_id(alloc: Global) -> Result<String, AllocError> {
        let text = joined(
            alloc,
            "serde_with::PickFirst(",
            A::schema_id(alloc)?.as_str(),
        )?;
        let text = with_id::<T, B>(alloc, text)?;
        let text = with_id::<T, C>(alloc, text)?;
        closed(with_id::<T, D>(alloc, text)?)
    }

    fn json_schema(alloc: Global) -> Result<SchemaTree, AllocError> {
        let options = with_option::<T, B>(alloc, first_option::<T, A>(alloc)?)?;
        let options = with_option::<T, C>(alloc, options)?;
        let options = with_option::<T, D>(alloc, options)?;
        Ok(SchemaTree::any_of(options))
    }
}

impl<T: Meant, A: SchemaAdapter<T>> SchemaAdapter<T> for PickFirst<(A,)> {
    ghost use Rattle.sw_schema.specs.Schema.{no_schemas};
    ghost use Rattle.sw_policy.specs.Laws.PickSchema.{pick_one_fits};

    ghost fits = { pick_one_fits A.fits no_schemas };
}

impl<T: Meant, A: SchemaAdapter<T>, B: Adapter<T> + JsonSchemaAs<T>> SchemaAdapter<T>
    for PickFirst<(A, B)> {
    ghost use Rattle.std.specs.Prelude.{[], ◌∷◌};
    ghost use Rattle.sw_schema.specs.Schema.{write_only, schemas};
    ghost use Rattle.sw_policy.specs.Laws.PickSchema.{pick_fits};

    ghost fits = { pick_fits A.fits (A.assumes × B.assumes) (λ x. x.0) A.keeps.unmarked B.expr [] (schemas (write_only B.definition.schema ∷ [])) };
}

impl<
    T: Meant,
    A: SchemaAdapter<T>,
    B: Adapter<T> + JsonSchemaAs<T>,
    C: Adapter<T> + JsonSchemaAs<T>,
> SchemaAdapter<T> for PickFirst<(A, B, C)> {
    ghost use Rattle.std.specs.Prelude.{[], ◌∷◌};
    ghost use Rattle.sw_schema.specs.Schema.{write_only, schemas};
    ghost use Rattle.sw_policy.specs.Laws.PickSchema.{pick_fits};

    ghost fits = { pick_fits A.fits (A.assumes × B.assumes × C.assumes) (λ x. x.0) A.keeps.unmarked B.expr (C.expr ∷ []) (schemas (write_only B.definition.schema ∷ write_only C.definition.schema ∷ [])) };
}

impl<
    T: Meant,
    A: SchemaAdapter<T>,
    B: Adapter<T> + JsonSchemaAs<T>,
    C: Adapter<T> + JsonSchemaAs<T>,
    D: Adapter<T> + JsonSchemaAs<T>,
> SchemaAdapter<T> for PickFirst<(A, B, C, D)> {
    ghost use Rattle.std.specs.Prelude.{[], ◌∷◌};
    ghost use Rattle.sw_schema.specs.Schema.{write_only, schemas};
    ghost use Rattle.sw_policy.specs.Laws.PickSchema.{pick_fits};

    ghost fits = { pick_fits A.fits (A.assumes × B.assumes × C.assumes × D.assumes) (λ x. x.0) A.keeps.unmarked B.expr (C.expr ∷ D.expr ∷ []) (schemas (write_only B.definition.schema ∷ write_only C.definition.schema ∷ write_only D.definition.schema ∷ [])) };
}
