//! The schema of a tuple of one to eight parts: a list of as many items, each valid for its part's schema.

use crate::row::{tuple_id, tuple_name, tuple_schema};
use crate::schema_as::{JsonSchemaAs, SchemaAdapter};
use std::alloc::{AllocError, Global};
use sw_schema::schema::SchemaTree;
use sw_tree::meant::Meant;

impl<T: Meant, A: JsonSchemaAs<T>> JsonSchemaAs<(T,)> for (A,) {
    ghost use Rattle.std.specs.Prelude.{[], ◌∷◌};
    ghost use Rattle.sw_schemas.specs.Definitions.{tuple_definition};

    ghost definition = { tuple_definition (A.definition ∷ []) };

    fn inline_schema() -> bool {
        true
    }

    fn schema_name(alloc: Global) -> Result<String, AllocError> {
        tuple_name::<T, (), A, ()>(alloc)
    }

    fn schema_id(alloc: Global) -> Result<String, AllocError> {
        tuple_id::<T, (), A, ()>(alloc)
    }

    fn json_schema(alloc: Global) -> Result<SchemaTree, AllocError> {
        tuple_schema::<(T, ()), (A, ())>(alloc)
    }
}

impl<T: Meant, A: SchemaAdapter<T>> SchemaAdapter<(T,)> for (A,) {
    ghost use Rattle.std.specs.Prelude.{[], ◌∷◌};
    ghost use Rattle.sw_schemas.specs.Laws.Tuples.{fit, tuple_fits};

    ghost fits = { tuple_fits (fit A.fits ∷ []) };
}

impl<T: Meant, U: Meant, A: JsonSchemaAs<T>, B: JsonSchemaAs<U>> JsonSchemaAs<(T, U)> for (A, B) {
    ghost use Rattle.std.specs.Prelude.{[], ◌∷◌};
    ghost use Rattle.sw_schemas.specs.Definitions.{tuple_definition};

    ghost definition = { tuple_definition (A.definition ∷ B.definition ∷ []) };

    fn inline_schema() -> bool {
        true
    }

    fn schema_name(alloc: Global) -> Result<String, AllocError> {
        tuple_name::<T, (U, ()), A, (B, ())>(alloc)
    }

    fn schema_id(alloc: Global) -> Result<String, AllocError> {
        tuple_id::<T, (U, ()), A, (B, ())>(alloc)
    }

    fn json_schema(alloc: Global) -> Result<SchemaTree, AllocError> {
        tuple_schema::<(T, (U, ())), (A, (B, ()))>(alloc)
    }
}

impl<T: Meant, U: Meant, A: SchemaAdapter<T>, B: SchemaAdapter<U>> SchemaAdapter<(T, U)>
    for (A, B) {
    ghost use Rattle.sw_schemas.specs.Laws.Tuples.{fit, pair_fits};

    ghost fits = { pair_fits (fit A.fits) (fit B.fits) };
}

impl<
    T: Meant,
    U: Meant,
    V: Meant,
    A: JsonSchemaAs<T>,
    B: JsonSchemaAs<U>,
    C: JsonSchemaAs<V>,
> JsonSchemaAs<(T, U, V)> for (A, B, C) {
    ghost use Rattle.std.specs.Prelude.{[], ◌∷◌};
    ghost use Rattle.sw_schemas.specs.Definitions.{tuple_definition};

    ghost definition = { tuple_definition (A.definition ∷ B.definition ∷ C.definition ∷ []) };

    fn inline_schema() -> bool {
        true
    }

    fn schema_name(alloc: Global) -> Result<String, AllocError> {
        tuple_name::<T, (U, (V, ())), A, (B, (C, ()))>(alloc)
    }

    fn schema_id(alloc: Global) -> Result<String, AllocError> {
        tuple_id::<T, (U, (V, ())), A, (B, (C, ()))>(alloc)
    }

    fn json_schema(alloc: Global) -> Result<SchemaTree, AllocError> {
        tuple_schema::<(T, (U, (V, ()))), (A, (B, (C, ())))>(alloc)
    }
}

impl<
    T: Meant,
    U: Meant,
    V: Meant,
    A: SchemaAdapter<T>,
    B: SchemaAdapter<U>,
    C: SchemaAdapter<V>,
> SchemaAdapter<(T, U, V)> for (A, B, C) {
    ghost use Rattle.std.specs.Prelude.{[], ◌∷◌};
    ghost use Rattle.sw_schemas.specs.Laws.Tuples.{fit, tuple_fits};

    ghost fits = { tuple_fits (fit A.fits ∷ fit B.fits ∷ fit C.fits ∷ []) };
}

impl<
    T: Meant,
    U: Meant,
    V: Meant,
    W: Meant,
    A: JsonSchemaAs<T>,
    B: JsonSchemaAs<U>,
    C: JsonSchemaAs<V>,
    D: JsonSchemaAs<W>,
> JsonSchemaAs<(T, U, V, W)> for (A, B, C, D) {
    ghost use Rattle.std.specs.Prelude.{[], ◌∷◌};
    ghost use Rattle.sw_schemas.specs.Definitions.{tuple_definition};

    ghost definition = { tuple_definition (A.definition ∷ B.definition ∷ C.definition ∷ D.definition ∷ []) };

    fn inline_schema() -> bool {
        true
    }

    fn schema_name(alloc: Global) -> Result<String, AllocError> {
        tuple_name::<T, (U, (V, (W, ()))), A, (B, (C, (D, ())))>(alloc)
    }

    fn schema_id(alloc: Global) -> Result<String, AllocError> {
        tuple_id::<T, (U, (V, (W, ()))), A, (B, (C, (D, ())))>(alloc)
    }

    fn json_schema(alloc: Global) -> Result<SchemaTree, AllocError> {
        tuple_schema::<(T, (U, (V, (W, ())))), (A, (B, (C, (D, ()))))>(alloc)
    }
}

impl<
    T: Meant,
    U: Meant,
    V: Meant,
    W: Meant,
    A: SchemaAdapter<T>,
    B: SchemaAdapter<U>,
    C: SchemaAdapter<V>,
    D: SchemaAdapter<W>,
> SchemaAdapter<(T, U, V, W)> for (A, B, C, D) {
    ghost use Rattle.std.specs.Prelude.{[], ◌∷◌};
    ghost use Rattle.sw_schemas.specs.Laws.Tuples.{fit, tuple_fits};

    ghost fits = { tuple_fits (fit A.fits ∷ fit B.fits ∷ fit C.fits ∷ fit D.fits ∷ []) };
}

impl<
    T: Meant,
    U: Meant,
    V: Meant,
    W: Meant,
    X: Meant,
    A: JsonSchemaAs<T>,
    B: JsonSchemaAs<U>,
    C: JsonSchemaAs<V>,
    D: JsonSchemaAs<W>,
    E: JsonSchemaAs<X>,
> JsonSchemaAs<(T, U, V, W, X)> for (A, B, C, D, E) {
    ghost use Rattle.std.specs.Prelude.{[], ◌∷◌};
    ghost use Rattle.sw_schemas.specs.Definitions.{tuple_definition};

    ghost definition = { tuple_definition (A.definition ∷ B.definition ∷ C.definition ∷ D.definition ∷ E.definition ∷ []) };

    fn inline_schema() -> bool {
        true
    }

    fn schema_name(alloc: Global) -> Result<String, AllocError> {
        tuple_name::<T, (U, (V, (W, (X, ())))), A, (B, (C, (D, (E, ()))))>(alloc)
    }

    fn schema_id(alloc: Global) -> Result<String, AllocError> {
        tuple_id::<T, (U, (V, (W, (X, ())))), A, (B, (C, (D, (E, ()))))>(alloc)
    }

    fn json_schema(alloc: Global) -> Result<SchemaTree, AllocError> {
        tuple_schema::<(T, (U, (V, (W, (X, ()))))), (A, (B, (C, (D, (E, ())))))>(alloc)
    }
}

impl<
    T: Meant,
    U: Meant,
    V: Meant,
    W: Meant,
    X: Meant,
    A: SchemaAdapter<T>,
    B: SchemaAdapter<U>,
    C: SchemaAdapter<V>,
    D: SchemaAdapter<W>,
    E: SchemaAdapter<X>,
> SchemaAdapter<(T, U, V, W, X)> for (A, B, C, D, E) {
    ghost use Rattle.std.specs.Prelude.{[], ◌∷◌};
    ghost use Rattle.sw_schemas.specs.Laws.Tuples.{fit, tuple_fits};

    ghost fits = { tuple_fits (fit A.fits ∷ fit B.fits ∷ fit C.fits ∷ fit D.fits ∷ fit E.fits ∷ []) };
}

impl<
    T: Meant,
    U: Meant,
    V: Meant,
    W: Meant,
    X: Meant,
    Y: Meant,
    A: JsonSchemaAs<T>,
    B: JsonSchemaAs<U>,
    C: JsonSchemaAs<V>,
    D: JsonSchemaAs<W>,
    E: JsonSchemaAs<X>,
    F: JsonSchemaAs<Y>,
> JsonSchemaAs<(T, U, V, W, X, Y)> for (A, B, C, D, E, F) {
    ghost use Rattle.std.specs.Prelude.{[], ◌∷◌};
    ghost use Rattle.sw_schemas.specs.Definitions.{tuple_definition};

    ghost definition = { tuple_definition (A.definition ∷ B.definition ∷ C.definition ∷ D.definition ∷ E.definition ∷ F.definition ∷ []) };

    fn inline_schema() -> bool {
        true
    }

    fn schema_name(alloc: Global) -> Result<String, AllocError> {
        tuple_name::<T, (U, (V, (W, (X, (Y, ()))))), A, (B, (C, (D, (E, (F, ())))))>(alloc)
    }

    fn schema_id(alloc: Global) -> Result<String, AllocError> {
        tuple_id::<T, (U, (V, (W, (X, (Y, ()))))), A, (B, (C, (D, (E, (F, ())))))>(alloc)
    }

    fn json_schema(alloc: Global) -> Result<SchemaTree, AllocError> {
        tuple_schema::<(T, (U, (V, (W, (X, (Y, ())))))), (A, (B, (C, (D, (E, (F, ()))))))>(alloc)
    }
}

impl<
    T: Meant,
    U: Meant,
    V: Meant,
    W: Meant,
    X: Meant,
    Y: Meant,
    A: SchemaAdapter<T>,
    B: SchemaAdapter<U>,
    C: SchemaAdapter<V>,
    D: SchemaAdapter<W>,
    E: SchemaAdapter<X>,
    F: SchemaAdapter<Y>,
> SchemaAdapter<(T, U, V, W, X, Y)> for (A, B, C, D, E, F) {
    ghost use Rattle.std.specs.Prelude.{[], ◌∷◌};
    ghost use Rattle.sw_schemas.specs.Laws.Tuples.{fit, tuple_fits};

    ghost fits = { tuple_fits (fit A.fits ∷ fit B.fits ∷ fit C.fits ∷ fit D.fits ∷ fit E.fits ∷ fit F.fits ∷ []) };
}

impl<
    T: Meant,
    U: Meant,
    V: Meant,
    W: Meant,
    X: Meant,
    Y: Meant,
    Z: Meant,
    A: JsonSchemaAs<T>,
    B: JsonSchemaAs<U>,
    C: JsonSchemaAs<V>,
    D: JsonSchemaAs<W>,
    E: JsonSchemaAs<X>,
    F: JsonSchemaAs<Y>,
    G: JsonSchemaAs<Z>,
> JsonSchemaAs<(T, U, V, W, X, Y, Z)> for (A, B, C, D, E, F, G) {
    ghost use Rattle.std.specs.Prelude.{[], ◌∷◌};
    ghost use Rattle.sw_schemas.specs.Definitions.{tuple_definition};

    ghost definition = { tuple_definition (A.definition ∷ B.definition ∷ C.definition ∷ D.definition ∷ E.definition ∷ F.definition ∷ G.definition ∷ []) };

    fn inline_schema() -> bool {
        true
    }

    fn schema_name(alloc: Global) -> Result<String, AllocError> {
        tuple_name::<T, (U, (V, (W, (X, (Y, (Z, ())))))), A, (B, (C, (D, (E, (F, (G, ()))))))>(
            alloc,
        )
    }

    fn schema_id(alloc: Global) -> Result<String, AllocError> {
        tuple_id::<T, (U, (V, (W, (X, (Y, (Z, ())))))), A, (B, (C, (D, (E, (F, (G, ()))))))>(alloc)
    }

    fn json_schema(alloc: Global) -> Result<SchemaTree, AllocError> {
        tuple_schema::<
            (T, (U, (V, (W, (X, (Y, (Z, ()))))))),
            (A, (B, (C, (D, (E, (F, (G, ()))))))),
        >(alloc)
    }
}

impl<
    T: Meant,
    U: Meant,
    V: Meant,
    W: Meant,
    X: Meant,
    Y: Meant,
    Z: Meant,
    A: SchemaAdapter<T>,
    B: SchemaAdapter<U>,
    C: SchemaAdapter<V>,
    D: SchemaAdapter<W>,
    E: SchemaAdapter<X>,
    F: SchemaAdapter<Y>,
    G: SchemaAdapter<Z>,
> SchemaAdapter<(T, U, V, W, X, Y, Z)> for (A, B, C, D, E, F, G) {
    ghost use Rattle.std.specs.Prelude.{[], ◌∷◌};
    ghost use Rattle.sw_schemas.specs.Laws.Tuples.{fit, tuple_fits};

    ghost fits = { tuple_fits (fit A.fits ∷ fit B.fits ∷ fit C.fits ∷ fit D.fits ∷ fit E.fits ∷ fit F.fits ∷ fit G.fits ∷ []) };
}

impl<
    T: Meant,
    U: Meant,
    V: Meant,
    W: Meant,
    X: Meant,
    Y: Meant,
    Z: Meant,
    S: Meant,
    A: JsonSchemaAs<T>,
    B: JsonSchemaAs<U>,
    C: JsonSchemaAs<V>,
    D: JsonSchemaAs<W>,
    E: JsonSchemaAs<X>,
    F: JsonSchemaAs<Y>,
    G: JsonSchemaAs<Z>,
    H: JsonSchemaAs<S>,
> JsonSchemaAs<(T, U, V, W, X, Y, Z, S)> for (A, B, C, D, E, F, G, H) {
    ghost use Rattle.std.specs.Prelude.{[], ◌∷◌};
    ghost use Rattle.sw_schemas.specs.Definitions.{tuple_definition};

    ghost definition = { tuple_definition (A.definition ∷ B.definition ∷ C.definition ∷ D.definition ∷ E.definition ∷ F.definition ∷ G.definition ∷ H.definition ∷ []) };

    fn inline_schema() -> bool {
        true
    }

    fn schema_name(alloc: Global) -> Result<String, AllocError> {
        tuple_name::<
            T,
            (U, (V, (W, (X, (Y, (Z, (S, ()))))))),
            A,
            (B, (C, (D, (E, (F, (G, (H, ()))))))),
        >(alloc)
    }

    fn schema_id(alloc: Global) -> Result<String, AllocError> {
        tuple_id::<
            T,
            (U, (V, (W, (X, (Y, (Z, (S, ()))))))),
            A,
            (B, (C, (D, (E, (F, (G, (H, ()))))))),
        >(alloc)
    }

    fn json_schema(alloc: Global) -> Result<SchemaTree, AllocError> {
        tuple_schema::<
            (T, (U, (V, (W, (X, (Y, (Z, (S, ())))))))),
            (A, (B, (C, (D, (E, (F, (G, (H, ())))))))),
        >(alloc)
    }
}

impl<
    T: Meant,
    U: Meant,
    V: Meant,
    W: Meant,
    X: Meant,
    Y: Meant,
    Z: Meant,
    S: Meant,
    A: SchemaAdapter<T>,
    B: SchemaAdapter<U>,
    C: SchemaAdapter<V>,
    D: SchemaAdapter<W>,
    E: SchemaAdapter<X>,
    F: SchemaAdapter<Y>,
    G: SchemaAdapter<Z>,
    H: SchemaAdapter<S>,
> SchemaAdapter<(T, U, V, W, X, Y, Z, S)> for (A, B, C, D, E, F, G, H) {
    ghost use Rattle.std.specs.Prelude.{[], ◌∷◌};
    ghost use Rattle.sw_schemas.specs.Laws.Tuples.{fit, tuple_fits};

    ghost fits = { tuple_fits (fit A.fits ∷ fit B.fits ∷ fit C.fits ∷ fit D.fits ∷ fit E.fits ∷ fit F.fits ∷ fit G.fits ∷ fit H.fits ∷ []) };
}
