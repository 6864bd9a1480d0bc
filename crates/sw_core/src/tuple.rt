//! A tuple of one to eight parts is a list of their trees in order, each part by an adapter of its own in value place.
#![tactic(auto, using(sw_tree::specs::Laws::Logs::gains))]

use crate::adapter::{Adapter, DeserializeAs, SerializeAs};
use crate::parts::{read_tuple, with_part, write_tuple};
use std::alloc::{AllocError, Global};
use sw_check::expr::Expr;
use sw_check::exprs::ExprList;
use sw_tree::builds::Builds;
use sw_tree::fail::{DeFail, SerFail};
use sw_tree::meant::Meant;
use sw_tree::mode::Mode;
use sw_tree::skipped::Skipped;
use sw_tree::view::View;

/// A list of the parts' trees in order. The first part that isn't written decides. Without one, a
/// list of which a part has 128 levels is `TooDeep`. So it is for every number of parts.
impl<T: Meant, A: SerializeAs<T>> SerializeAs<(T,)> for (A,) {
    ghost use Rattle.std.specs.Prelude.{[], ◌∷◌};
    ghost use Rattle.sw_core.specs.Tuple.{tuple_writes};

    ghost writes = { tuple_writes (A.writes ∷ []) };

    fn write_as<Out: Builds>(
        alloc: Global,
        out: &mut Out,
        source: &(T,),
        mode: Mode,
    ) -> Result<(), SerFail> {
        let parts = (&source.0, ());
        write_tuple::<(&T, ()), (A, ()), Out>(alloc, out, 1, parts, mode)
    }
}

/// The parts of a list's items in order. A node of another kind is refused as `InvalidType` of that kind;
/// else the first item that is refused decides, of those that have a part; without one, a list of
/// another length is refused as `InvalidLength` of it, at the list. So it is for every number of parts.
///
/// Where all parts are `FREE`, so is the tuple.
impl<T: Meant, A: DeserializeAs<T>> DeserializeAs<(T,)> for (A,) {
    ghost use Rattle.std.specs.Prelude.{[], ◌∷◌};
    ghost use Rattle.sw_core.specs.Parts.{reading};
    ghost use Rattle.sw_core.specs.Tuple.{tuple_reads, tuple_spot, tuple_skips};
    ghost use Rattle.sw_core.specs.Laws.Parts.{read_by};
    ghost use Rattle.sw_core.specs.Laws.Tuple.{tuple_lawful};

    const FREE: bool = A::FREE;

    ghost FREE = { A.FREE };

    ghost reads = { tuple_reads (reading A.reads A.spot A.skips ∷ []) };

    ghost spot = { tuple_spot (reading A.reads A.spot A.skips ∷ []) };

    ghost skips = { tuple_skips (reading A.reads A.spot A.skips ∷ []) };

    fn deserialize_as(
        alloc: Global,
        view: View<'_>,
        mode: Mode,
        log: &mut Skipped,
    ) -> Result<(T,), DeFail> {
        let parts = read_tuple::<(T, ()), (A, ())>(alloc, view, mode, log)?;
        let (first, ()) = parts;
        Ok((first,))
    }

    ghost lawful_reading = { tuple_lawful (read_by A.skips A.lawful_reading ∷ []) };
}

/// It is as faithful as its parts: the norm of a tuple has its parts' norms.
impl<T: Meant, A: Adapter<T>> Adapter<(T,)> for (A,) {
    ghost use Rattle.std.specs.Prelude.{[], ◌∷◌};
    ghost use Rattle.sw_check.specs.Form.{tuple, forms};
    ghost use Rattle.sw_core.specs.Tuple.{tuple_norm, tuple_assumes};
    ghost use Rattle.sw_core.specs.Laws.Parts.{kept};
    ghost use Rattle.sw_core.specs.Laws.Tuple.{tuple_keeps};

    ghost expr = { tuple (forms (A.expr ∷ [])) };

    ghost norm = { tuple_norm (A.norm ∷ []) };

    ghost assumes = { tuple_assumes (A.assumes ∷ []) };

    fn describe(alloc: Global) -> Result<Expr, AllocError> {
        let parts = with_part::<T, A>(alloc, ExprList::new(alloc))?;
        Ok(Expr::tuple(parts))
    }

    ghost keeps = { tuple_keeps (kept A.keeps ∷ []) };
}

impl<T: Meant, U: Meant, A: SerializeAs<T>, B: SerializeAs<U>> SerializeAs<(T, U)> for (A, B) {
    ghost use Rattle.std.specs.Prelude.{[], ◌∷◌};
    ghost use Rattle.sw_core.specs.Tuple.{tuple_writes};

    ghost writes = { tuple_writes (A.writes ∷ B.writes ∷ []) };

    fn write_as<Out: Builds>(
        alloc: Global,
        out: &mut Out,
        source: &(T, U),
        mode: Mode,
    ) -> Result<(), SerFail> {
        let parts = (&source.0, (&source.1, ()));
        write_tuple::<(&T, (&U, ())), (A, (B, ())), Out>(alloc, out, 2, parts, mode)
    }
}

impl<T: Meant, U: Meant, A: DeserializeAs<T>, B: DeserializeAs<U>> DeserializeAs<(T, U)>
    for (A, B) {
    ghost use Rattle.std.specs.Prelude.{[], ◌∷◌, ◌&&◌};
    ghost use Rattle.sw_core.specs.Parts.{reading};
    ghost use Rattle.sw_core.specs.Tuple.{tuple_reads, tuple_spot, tuple_skips};
    ghost use Rattle.sw_core.specs.Laws.Parts.{read_by};
    ghost use Rattle.sw_core.specs.Laws.Tuple.{pair_lawful};

    const FREE: bool = A::FREE && B::FREE;

    ghost FREE = { A.FREE && B.FREE };

    ghost reads = { tuple_reads (reading A.reads A.spot A.skips ∷ reading B.reads B.spot B.skips ∷ []) };

    ghost spot = { tuple_spot (reading A.reads A.spot A.skips ∷ reading B.reads B.spot B.skips ∷ []) };

    ghost skips = { tuple_skips (reading A.reads A.spot A.skips ∷ reading B.reads B.spot B.skips ∷ []) };

    fn deserialize_as(
        alloc: Global,
        view: View<'_>,
        mode: Mode,
        log: &mut Skipped,
    ) -> Result<(T, U), DeFail> {
        let parts = read_tuple::<(T, (U, ())), (A, (B, ()))>(alloc, view, mode, log)?;
        let (first, (second, ())) = parts;
        Ok((first, second))
    }

    ghost lawful_reading = { pair_lawful (read_by A.skips A.lawful_reading) (read_by B.skips B.lawful_reading) };
}

impl<T: Meant, U: Meant, A: Adapter<T>, B: Adapter<U>> Adapter<(T, U)> for (A, B) {
    ghost use Rattle.std.specs.Prelude.{[], ◌∷◌};
    ghost use Rattle.sw_check.specs.Form.{tuple, forms};
    ghost use Rattle.sw_core.specs.Tuple.{tuple_norm, tuple_assumes};
    ghost use Rattle.sw_core.specs.Laws.Parts.{kept};
    ghost use Rattle.sw_core.specs.Laws.Tuple.{pair_keeps};

    ghost expr = { tuple (forms (A.expr ∷ B.expr ∷ [])) };

    ghost norm = { tuple_norm (A.norm ∷ B.norm ∷ []) };

    ghost assumes = { tuple_assumes (A.assumes ∷ B.assumes ∷ []) };

    fn describe(alloc: Global) -> Result<Expr, AllocError> {
        let parts = with_part::<T, A>(alloc, ExprList::new(alloc))?;
        let parts = with_part::<U, B>(alloc, parts)?;
        Ok(Expr::tuple(parts))
    }

    ghost keeps = { pair_keeps (kept A.keeps) (kept B.keeps) };
}

impl<
    T: Meant,
    U: Meant,
    V: Meant,
    A: SerializeAs<T>,
    B: SerializeAs<U>,
    C: SerializeAs<V>,
> SerializeAs<(T, U, V)> for (A, B, C) {
    ghost use Rattle.std.specs.Prelude.{[], ◌∷◌};
    ghost use Rattle.sw_core.specs.Tuple.{tuple_writes};

    ghost writes = { tuple_writes (A.writes ∷ B.writes ∷ C.writes ∷ []) };

    fn write_as<Out: Builds>(
        alloc: Global,
        out: &mut Out,
        source: &(T, U, V),
        mode: Mode,
    ) -> Result<(), SerFail> {
        let parts = (&source.0, (&source.1, (&source.2, ())));
        write_tuple::<(&T, (&U, (&V, ()))), (A, (B, (C, ()))), Out>(alloc, out, 3, parts, mode)
    }
}

impl<
    T: Meant,
    U: Meant,
    V: Meant,
    A: DeserializeAs<T>,
    B: DeserializeAs<U>,
    C: DeserializeAs<V>,
> DeserializeAs<(T, U, V)> for (A, B, C) {
    ghost use Rattle.std.specs.Prelude.{[], ◌∷◌, ◌&&◌};
    ghost use Rattle.sw_core.specs.Parts.{reading};
    ghost use Rattle.sw_core.specs.Tuple.{tuple_reads, tuple_spot, tuple_skips};
    ghost use Rattle.sw_core.specs.Laws.Parts.{read_by};
    ghost use Rattle.sw_core.specs.Laws.Tuple.{tuple_lawful};

    const FREE: bool = A::FREE && B::FREE && C::FREE;

    ghost FREE = { A.FREE && (B.FREE && C.FREE) };

    ghost reads = { tuple_reads (reading A.reads A.spot A.skips ∷ reading B.reads B.spot B.skips ∷ reading C.reads C.spot C.skips ∷ []) };

    ghost spot = { tuple_spot (reading A.reads A.spot A.skips ∷ reading B.reads B.spot B.skips ∷ reading C.reads C.spot C.skips ∷ []) };

    ghost skips = { tuple_skips (reading A.reads A.spot A.skips ∷ reading B.reads B.spot B.skips ∷ reading C.reads C.spot C.skips ∷ []) };

    fn deserialize_as(
        alloc: Global,
        view: View<'_>,
        mode: Mode,
        log: &mut Skipped,
    ) -> Result<(T, U, V), DeFail> {
        let parts = read_tuple::<(T, (U, (V, ()))), (A, (B, (C, ())))>(alloc, view, mode, log)?;
        let (first, (second, (third, ()))) = parts;
        Ok((first, second, third))
    }

    ghost lawful_reading = { tuple_lawful (read_by A.skips A.lawful_reading ∷ read_by B.skips B.lawful_reading ∷ read_by C.skips C.lawful_reading ∷ []) };
}

impl<T: Meant, U: Meant, V: Meant, A: Adapter<T>, B: Adapter<U>, C: Adapter<V>> Adapter<(T, U, V)>
    for (A, B, C) {
    ghost use Rattle.std.specs.Prelude.{[], ◌∷◌};
    ghost use Rattle.sw_check.specs.Form.{tuple, forms};
    ghost use Rattle.sw_core.specs.Tuple.{tuple_norm, tuple_assumes};
    ghost use Rattle.sw_core.specs.Laws.Parts.{kept};
    ghost use Rattle.sw_core.specs.Laws.Tuple.{tuple_keeps};

    ghost expr = { tuple (forms (A.expr ∷ B.expr ∷ C.expr ∷ [])) };

    ghost norm = { tuple_norm (A.norm ∷ B.norm ∷ C.norm ∷ []) };

    ghost assumes = { tuple_assumes (A.assumes ∷ B.assumes ∷ C.assumes ∷ []) };

    fn describe(alloc: Global) -> Result<Expr, AllocError> {
        let parts = with_part::<T, A>(alloc, ExprList::new(alloc))?;
        let parts = with_part::<U, B>(alloc, parts)?;
        let parts = with_part::<V, C>(alloc, parts)?;
        Ok(Expr::tuple(parts))
    }

    ghost keeps = { tuple_keeps (kept A.keeps ∷ kept B.keeps ∷ kept C.keeps ∷ []) };
}

impl<
    T: Meant,
    U: Meant,
    V: Meant,
    W: Meant,
    A: SerializeAs<T>,
    B: SerializeAs<U>,
    C: SerializeAs<V>,
    D: SerializeAs<W>,
> SerializeAs<(T, U, V, W)> for (A, B, C, D) {
    ghost use Rattle.std.specs.Prelude.{[], ◌∷◌};
    ghost use Rattle.sw_core.specs.Tuple.{tuple_writes};

    ghost writes = { tuple_writes (A.writes ∷ B.writes ∷ C.writes ∷ D.writes ∷ []) };

    fn write_as<Out: Builds>(
        alloc: Global,
        out: &mut Out,
        source: &(T, U, V, W),
        mode: Mode,
    ) -> Result<(), SerFail> {
        let parts = (&source.0, (&source.1, (&source.2, (&source.3, ()))));
        write_tuple::<(&T, (&U, (&V, (&W, ())))), (A, (B, (C, (D, ())))), Out>(
            alloc, out, 4, parts, mode,
        )
    }
}

impl<
    T: Meant,
    U: Meant,
    V: Meant,
    W: Meant,
    A: DeserializeAs<T>,
    B: DeserializeAs<U>,
    C: DeserializeAs<V>,
    D: DeserializeAs<W>,
> DeserializeAs<(T, U, V, W)> for (A, B, C, D) {
    ghost use Rattle.std.specs.Prelude.{[], ◌∷◌, ◌&&◌};
    ghost use Rattle.sw_core.specs.Parts.{reading};
    ghost use Rattle.sw_core.specs.Tuple.{tuple_reads, tuple_spot, tuple_skips};
    ghost use Rattle.sw_core.specs.Laws.Parts.{read_by};
    ghost use Rattle.sw_core.specs.Laws.Tuple.{tuple_lawful};

    const FREE: bool = A::FREE && B::FREE && C::FREE && D::FREE;

    ghost FREE = { A.FREE && (B.FREE && (C.FREE && D.FREE)) };

    ghost reads = { tuple_reads (reading A.reads A.spot A.skips ∷ reading B.reads B.spot B.skips ∷ reading C.reads C.spot C.skips ∷ reading D.reads D.spot D.skips ∷ []) };

    ghost spot = { tuple_spot (reading A.reads A.spot A.skips ∷ reading B.reads B.spot B.skips ∷ reading C.reads C.spot C.skips ∷ reading D.reads D.spot D.skips ∷ []) };

    ghost skips = { tuple_skips (reading A.reads A.spot A.skips ∷ reading B.reads B.spot B.skips ∷ reading C.reads C.spot C.skips ∷ reading D.reads D.spot D.skips ∷ []) };

    fn deserialize_as(
        alloc: Global,
        view: View<'_>,
        mode: Mode,
        log: &mut Skipped,
    ) -> Result<(T, U, V, W), DeFail> {
        let parts = read_tuple::<(T, (U, (V, (W, ())))), (A, (B, (C, (D, ()))))>(
            alloc, view, mode, log,
        )?;
        let (first, (second, (third, (fourth, ())))) = parts;
        Ok((first, second, third, fourth))
    }

    ghost lawful_reading = { tuple_lawful (read_by A.skips A.lawful_reading ∷ read_by B.skips B.lawful_reading ∷ read_by C.skips C.lawful_reading ∷ read_by D.skips D.lawful_reading ∷ []) };
}

impl<
    T: Meant,
    U: Meant,
    V: Meant,
    W: Meant,
    A: Adapter<T>,
    B: Adapter<U>,
    C: Adapter<V>,
    D: Adapter<W>,
> Adapter<(T, U, V, W)> for (A, B, C, D) {
    ghost use Rattle.std.specs.Prelude.{[], ◌∷◌};
    ghost use Rattle.sw_check.specs.Form.{tuple, forms};
    ghost use Rattle.sw_core.specs.Tuple.{tuple_norm, tuple_assumes};
    ghost use Rattle.sw_core.specs.Laws.Parts.{kept};
    ghost use Rattle.sw_core.specs.Laws.Tuple.{tuple_keeps};

    ghost expr = { tuple (forms (A.expr ∷ B.expr ∷ C.expr ∷ D.expr ∷ [])) };

    ghost norm = { tuple_norm (A.norm ∷ B.norm ∷ C.norm ∷ D.norm ∷ []) };

    ghost assumes = { tuple_assumes (A.assumes ∷ B.assumes ∷ C.assumes ∷ D.assumes ∷ []) };

    fn describe(alloc: Global) -> Result<Expr, AllocError> {
        let parts = with_part::<T, A>(alloc, ExprList::new(alloc))?;
        let parts = with_part::<U, B>(alloc, parts)?;
        let parts = with_part::<V, C>(alloc, parts)?;
        let parts = with_part::<W, D>(alloc, parts)?;
        Ok(Expr::tuple(parts))
    }

    ghost keeps = { tuple_keeps (kept A.keeps ∷ kept B.keeps ∷ kept C.keeps ∷ kept D.keeps ∷ []) };
}

impl<
    T: Meant,
    U: Meant,
    V: Meant,
    W: Meant,
    X: Meant,
    A: SerializeAs<T>,
    B: SerializeAs<U>,
    C: SerializeAs<V>,
    D: SerializeAs<W>,
    E: SerializeAs<X>,
> SerializeAs<(T, U, V, W, X)> for (A, B, C, D, E) {
    ghost use Rattle.std.specs.Prelude.{[], ◌∷◌};
    ghost use Rattle.sw_core.specs.Tuple.{tuple_writes};

    ghost writes = { tuple_writes (A.writes ∷ B.writes ∷ C.writes ∷ D.writes ∷ E.writes ∷ []) };

    fn write_as<Out: Builds>(
        alloc: Global,
        out: &mut Out,
        source: &(T, U, V, W, X),
        mode: Mode,
    ) -> Result<(), SerFail> {
        let parts = (
            &source.0,
            (&source.1, (&source.2, (&source.3, (&source.4, ())))),
        );
        write_tuple::<(&T, (&U, (&V, (&W, (&X, ()))))), (A, (B, (C, (D, (E, ()))))), Out>(
            alloc, out, 5, parts, mode,
        )
    }
}

impl<
    T: Meant,
    U: Meant,
    V: Meant,
    W: Meant,
    X: Meant,
    A: DeserializeAs<T>,
    B: DeserializeAs<U>,
    C: DeserializeAs<V>,
    D: DeserializeAs<W>,
    E: DeserializeAs<X>,
> DeserializeAs<(T, U, V, W, X)> for (A, B, C, D, E) {
    ghost use Rattle.std.specs.Prelude.{[], ◌∷◌, ◌&&◌};
    ghost use Rattle.sw_core.specs.Parts.{reading};
    ghost use Rattle.sw_core.specs.Tuple.{tuple_reads, tuple_spot, tuple_skips};
    ghost use Rattle.sw_core.specs.Laws.Parts.{read_by};
    ghost use Rattle.sw_core.specs.Laws.Tuple.{tuple_lawful};

    const FREE: bool = A::FREE && B::FREE && C::FREE && D::FREE && E::FREE;

    ghost FREE = { A.FREE && (B.FREE && (C.FREE && (D.FREE && E.FREE))) };

    ghost reads = { tuple_reads (reading A.reads A.spot A.skips ∷ reading B.reads B.spot B.skips ∷ reading C.reads C.spot C.skips ∷ reading D.reads D.spot D.skips ∷ reading E.reads E.spot E.skips ∷ []) };

    ghost spot = { tuple_spot (reading A.reads A.spot A.skips ∷ reading B.reads B.spot B.skips ∷ reading C.reads C.spot C.skips ∷ reading D.reads D.spot D.skips ∷ reading E.reads E.spot E.skips ∷ []) };

    ghost skips = { tuple_skips (reading A.reads A.spot A.skips ∷ reading B.reads B.spot B.skips ∷ reading C.reads C.spot C.skips ∷ reading D.reads D.spot D.skips ∷ reading E.reads E.spot E.skips ∷ []) };

    fn deserialize_as(
        alloc: Global,
        view: View<'_>,
        mode: Mode,
        log: &mut Skipped,
    ) -> Result<(T, U, V, W, X), DeFail> {
        let parts = read_tuple::<(T, (U, (V, (W, (X, ()))))), (A, (B, (C, (D, (E, ())))))>(
            alloc, view, mode, log,
        )?;
        let (first, (second, (third, (fourth, (fifth, ()))))) = parts;
        Ok((first, second, third, fourth, fifth))
    }

    ghost lawful_reading = { tuple_lawful (read_by A.skips A.lawful_reading ∷ read_by B.skips B.lawful_reading ∷ read_by C.skips C.lawful_reading ∷ read_by D.skips D.lawful_reading ∷ read_by E.skips E.lawful_reading ∷ []) };
}

impl<
    T: Meant,
    U: Meant,
    V: Meant,
    W: Meant,
    X: Meant,
    A: Adapter<T>,
    B: Adapter<U>,
    C: Adapter<V>,
    D: Adapter<W>,
    E: Adapter<X>,
> Adapter<(T, U, V, W, X)> for (A, B, C, D, E) {
    ghost use Rattle.std.specs.Prelude.{[], ◌∷◌};
    ghost use Rattle.sw_check.specs.Form.{tuple, forms};
    ghost use Rattle.sw_core.specs.Tuple.{tuple_norm, tuple_assumes};
    ghost use Rattle.sw_core.specs.Laws.Parts.{kept};
    ghost use Rattle.sw_core.specs.Laws.Tuple.{tuple_keeps};

    ghost expr = { tuple (forms (A.expr ∷ B.expr ∷ C.expr ∷ D.expr ∷ E.expr ∷ [])) };

    ghost norm = { tuple_norm (A.norm ∷ B.norm ∷ C.norm ∷ D.norm ∷ E.norm ∷ []) };

    ghost assumes = { tuple_assumes (A.assumes ∷ B.assumes ∷ C.assumes ∷ D.assumes ∷ E.assumes ∷ []) };

    fn describe(alloc: Global) -> Result<Expr, AllocError> {
        let parts = with_part::<T, A>(alloc, ExprList::new(alloc))?;
        let parts = with_part::<U, B>(alloc, parts)?;
        let parts = with_part::<V, C>(alloc, parts)?;
        let parts = with_part::<W, D>(alloc, parts)?;
        let parts = with_part::<X, E>(alloc, parts)?;
        Ok(Expr::tuple(parts))
    }

    ghost keeps = { tuple_keeps (kept A.keeps ∷ kept B.keeps ∷ kept C.keeps ∷ kept D.keeps ∷ kept E.keeps ∷ []) };
}

impl<
    T: Meant,
    U: Meant,
    V: Meant,
    W: Meant,
    X: Meant,
    Y: Meant,
    A: SerializeAs<T>,
    B: SerializeAs<U>,
    C: SerializeAs<V>,
    D: SerializeAs<W>,
    E: SerializeAs<X>,
    F: SerializeAs<Y>,
> SerializeAs<(T, U, V, W, X, Y)> for (A, B, C, D, E, F) {
    ghost use Rattle.std.specs.Prelude.{[], ◌∷◌};
    ghost use Rattle.sw_core.specs.Tuple.{tuple_writes};

    ghost writes = { tuple_writes (A.writes ∷ B.writes ∷ C.writes ∷ D.writes ∷ E.writes ∷ F.writes ∷ []) };

    fn write_as<Out: Builds>(
        alloc: Global,
        out: &mut Out,
        source: &(T, U, V, W, X, Y),
        mode: Mode,
    ) -> Result<(), SerFail> {
        let parts = (
            &source.0,
            (
                &source.1,
                (&source.2, (&source.3, (&source.4, (&source.5, ())))),
            ),
        );
        write_tuple::<
            (&T, (&U, (&V, (&W, (&X, (&Y, ())))))),
            (A, (B, (C, (D, (E, (F, ())))))),
            Out,
        >(alloc, out, 6, parts, mode)
    }
}

impl<
    T: Meant,
    U: Meant,
    V: Meant,
    W: Meant,
    X: Meant,
    Y: Meant,
    A: DeserializeAs<T>,
    B: DeserializeAs<U>,
    C: DeserializeAs<V>,
    D: DeserializeAs<W>,
    E: DeserializeAs<X>,
    F: DeserializeAs<Y>,
> DeserializeAs<(T, U, V, W, X, Y)> for (A, B, C, D, E, F) {
    ghost use Rattle.std.specs.Prelude.{[], ◌∷◌, ◌&&◌};
    ghost use Rattle.sw_core.specs.Parts.{reading};
    ghost use Rattle.sw_core.specs.Tuple.{tuple_reads, tuple_spot, tuple_skips};
    ghost use Rattle.sw_core.specs.Laws.Parts.{read_by};
    ghost use Rattle.sw_core.specs.Laws.Tuple.{tuple_lawful};

    const FREE: bool = A::FREE && B::FREE && C::FREE && D::FREE && E::FREE && F::FREE;

    ghost FREE = { A.FREE && (B.FREE && (C.FREE && (D.FREE && (E.FREE && F.FREE)))) };

    ghost reads = { tuple_reads (reading A.reads A.spot A.skips ∷ reading B.reads B.spot B.skips ∷ reading C.reads C.spot C.skips ∷ reading D.reads D.spot D.skips ∷ reading E.reads E.spot E.skips ∷ reading F.reads F.spot F.skips ∷ []) };

    ghost spot = { tuple_spot (reading A.reads A.spot A.skips ∷ reading B.reads B.spot B.skips ∷ reading C.reads C.spot C.skips ∷ reading D.reads D.spot D.skips ∷ reading E.reads E.spot E.skips ∷ reading F.reads F.spot F.skips ∷ []) };

    ghost skips = { tuple_skips (reading A.reads A.spot A.skips ∷ reading B.reads B.spot B.skips ∷ reading C.reads C.spot C.skips ∷ reading D.reads D.spot D.skips ∷ reading E.reads E.spot E.skips ∷ reading F.reads F.spot F.skips ∷ []) };

    fn deserialize_as(
        alloc: Global,
        view: View<'_>,
        mode: Mode,
        log: &mut Skipped,
    ) -> Result<(T, U, V, W, X, Y), DeFail> {
        let parts = read_tuple::<
            (T, (U, (V, (W, (X, (Y, ())))))),
            (A, (B, (C, (D, (E, (F, ())))))),
        >(alloc, view, mode, log)?;
        let (first, (second, (third, (fourth, (fifth, (sixth, ())))))) = parts;
        Ok((first, second, third, fourth, fifth, sixth))
    }

    ghost lawful_reading = { tuple_lawful (read_by A.skips A.lawful_reading ∷ read_by B.skips B.lawful_reading ∷ read_by C.skips C.lawful_reading ∷ read_by D.skips D.lawful_reading ∷ read_by E.skips E.lawful_reading ∷ read_by F.skips F.lawful_reading ∷ []) };
}

impl<
    T: Meant,
    U: Meant,
    V: Meant,
    W: Meant,
    X: Meant,
    Y: Meant,
    A: Adapter<T>,
    B: Adapter<U>,
    C: Adapter<V>,
    D: Adapter<W>,
    E: Adapter<X>,
    F: Adapter<Y>,
> Adapter<(T, U, V, W, X, Y)> for (A, B, C, D, E, F) {
    ghost use Rattle.std.specs.Prelude.{[], ◌∷◌};
    ghost use Rattle.sw_check.specs.Form.{tuple, forms};
    ghost use Rattle.sw_core.specs.Tuple.{tuple_norm, tuple_assumes};
    ghost use Rattle.sw_core.specs.Laws.Parts.{kept};
    ghost use Rattle.sw_core.specs.Laws.Tuple.{tuple_keeps};

    ghost expr = { tuple (forms (A.expr ∷ B.expr ∷ C.expr ∷ D.expr ∷ E.expr ∷ F.expr ∷ [])) };

    ghost norm = { tuple_norm (A.norm ∷ B.norm ∷ C.norm ∷ D.norm ∷ E.norm ∷ F.norm ∷ []) };

    ghost assumes = { tuple_assumes (A.assumes ∷ B.assumes ∷ C.assumes ∷ D.assumes ∷ E.assumes ∷ F.assumes ∷ []) };

    fn describe(alloc: Global) -> Result<Expr, AllocError> {
        let parts = with_part::<T, A>(alloc, ExprList::new(alloc))?;
        let parts = with_part::<U, B>(alloc, parts)?;
        let parts = with_part::<V, C>(alloc, parts)?;
        let parts = with_part::<W, D>(alloc, parts)?;
        let parts = with_part::<X, E>(alloc, parts)?;
        let parts = with_part::<Y, F>(alloc, parts)?;
        Ok(Expr::tuple(parts))
    }

    ghost keeps = { tuple_keeps (kept A.keeps ∷ kept B.keeps ∷ kept C.keeps ∷ kept D.keeps ∷ kept E.keeps ∷ kept F.keeps ∷ []) };
}

impl<
    T: Meant,
    U: Meant,
    V: Meant,
    W: Meant,
    X: Meant,
    Y: Meant,
    Z: Meant,
    A: SerializeAs<T>,
    B: SerializeAs<U>,
    C: SerializeAs<V>,
    D: SerializeAs<W>,
    E: SerializeAs<X>,
    F: SerializeAs<Y>,
    G: SerializeAs<Z>,
> SerializeAs<(T, U, V, W, X, Y, Z)> for (A, B, C, D, E, F, G) {
    ghost use Rattle.std.specs.Prelude.{[], ◌∷◌};
    ghost use Rattle.sw_core.specs.Tuple.{tuple_writes};

    ghost writes = { tuple_writes (A.writes ∷ B.writes ∷ C.writes ∷ D.writes ∷ E.writes ∷ F.writes ∷ G.writes ∷ []) };

    fn write_as<Out: Builds>(
        alloc: Global,
        out: &mut Out,
        source: &(T, U, V, W, X, Y, Z),
        mode: Mode,
    ) -> Result<(), SerFail> {
        let parts = (
            &source.0,
            (
                &source.1,
                (
                    &source.2,
                    (&source.3, (&source.4, (&source.5, (&source.6, ())))),
                ),
            ),
        );
        write_tuple::<
            (&T, (&U, (&V, (&W, (&X, (&Y, (&Z, ()))))))),
            (A, (B, (C, (D, (E, (F, (G, ()))))))),
            Out,
        >(alloc, out, 7, parts, mode)
    }
}

impl<
    T: Meant,
    U: Meant,
    V: Meant,
    W: Meant,
    X: Meant,
    Y: Meant,
    Z: Meant,
    A: DeserializeAs<T>,
    B: DeserializeAs<U>,
    C: DeserializeAs<V>,
    D: DeserializeAs<W>,
    E: DeserializeAs<X>,
    F: DeserializeAs<Y>,
    G: DeserializeAs<Z>,
> DeserializeAs<(T, U, V, W, X, Y, Z)> for (A, B, C, D, E, F, G) {
    ghost use Rattle.std.specs.Prelude.{[], ◌∷◌, ◌&&◌};
    ghost use Rattle.sw_core.specs.Parts.{reading};
    ghost use Rattle.sw_core.specs.Tuple.{tuple_reads, tuple_spot, tuple_skips};
    ghost use Rattle.sw_core.specs.Laws.Parts.{read_by};
    ghost use Rattle.sw_core.specs.Laws.Tuple.{tuple_lawful};

    const FREE: bool = A::FREE && B::FREE && C::FREE && D::FREE && E::FREE && F::FREE && G::FREE;

    ghost FREE = { A.FREE && (B.FREE && (C.FREE && (D.FREE && (E.FREE && (F.FREE && G.FREE))))) };

    ghost reads = { tuple_reads (reading A.reads A.spot A.skips ∷ reading B.reads B.spot B.skips ∷ reading C.reads C.spot C.skips ∷ reading D.reads D.spot D.skips ∷ reading E.reads E.spot E.skips ∷ reading F.reads F.spot F.skips ∷ reading G.reads G.spot G.skips ∷ []) };

    ghost spot = { tuple_spot (reading A.reads A.spot A.skips ∷ reading B.reads B.spot B.skips ∷ reading C.reads C.spot C.skips ∷ reading D.reads D.spot D.skips ∷ reading E.reads E.spot E.skips ∷ reading F.reads F.spot F.skips ∷ reading G.reads G.spot G.skips ∷ []) };

    ghost skips = { tuple_skips (reading A.reads A.spot A.skips ∷ reading B.reads B.spot B.skips ∷ reading C.reads C.spot C.skips ∷ reading D.reads D.spot D.skips ∷ reading E.reads E.spot E.skips ∷ reading F.reads F.spot F.skips ∷ reading G.reads G.spot G.skips ∷ []) };

    fn deserialize_as(
        alloc: Global,
        view: View<'_>,
        mode: Mode,
        log: &mut Skipped,
    ) -> Result<(T, U, V, W, X, Y, Z), DeFail> {
        let parts = read_tuple::<
            (T, (U, (V, (W, (X, (Y, (Z, ()))))))),
            (A, (B, (C, (D, (E, (F, (G, ()))))))),
        >(alloc, view, mode, log)?;
        let (first, (second, (third, (fourth, (fifth, (sixth, (seventh, ()))))))) = parts;
        Ok((first, second, third, fourth, fifth, sixth, seventh))
    }

    ghost lawful_reading = { tuple_lawful (read_by A.skips A.lawful_reading ∷ read_by B.skips B.lawful_reading ∷ read_by C.skips C.lawful_reading ∷ read_by D.skips D.lawful_reading ∷ read_by E.skips E.lawful_reading ∷ read_by F.skips F.lawful_reading ∷ read_by G.skips G.lawful_reading ∷ []) };
}

impl<
    T: Meant,
    U: Meant,
    V: Meant,
    W: Meant,
    X: Meant,
    Y: Meant,
    Z: Meant,
    A: Adapter<T>,
    B: Adapter<U>,
    C: Adapter<V>,
    D: Adapter<W>,
    E: Adapter<X>,
    F: Adapter<Y>,
    G: Adapter<Z>,
> Adapter<(T, U, V, W, X, Y, Z)> for (A, B, C, D, E, F, G) {
    ghost use Rattle.std.specs.Prelude.{[], ◌∷◌};
    ghost use Rattle.sw_check.specs.Form.{tuple, forms};
    ghost use Rattle.sw_core.specs.Tuple.{tuple_norm, tuple_assumes};
    ghost use Rattle.sw_core.specs.Laws.Parts.{kept};
    ghost use Rattle.sw_core.specs.Laws.Tuple.{tuple_keeps};

    ghost expr = { tuple (forms (A.expr ∷ B.expr ∷ C.expr ∷ D.expr ∷ E.expr ∷ F.expr ∷ G.expr ∷ [])) };

    ghost norm = { tuple_norm (A.norm ∷ B.norm ∷ C.norm ∷ D.norm ∷ E.norm ∷ F.norm ∷ G.norm ∷ []) };

    ghost assumes = { tuple_assumes (A.assumes ∷ B.assumes ∷ C.assumes ∷ D.assumes ∷ E.assumes ∷ F.assumes ∷ G.assumes ∷ []) };

    fn describe(alloc: Global) -> Result<Expr, AllocError> {
        let parts = with_part::<T, A>(alloc, ExprList::new(alloc))?;
        let parts = with_part::<U, B>(alloc, parts)?;
        let parts = with_part::<V, C>(alloc, parts)?;
        let parts = with_part::<W, D>(alloc, parts)?;
        let parts = with_part::<X, E>(alloc, parts)?;
        let parts = with_part::<Y, F>(alloc, parts)?;
        let parts = with_part::<Z, G>(alloc, parts)?;
        Ok(Expr::tuple(parts))
    }

    ghost keeps = { tuple_keeps (kept A.keeps ∷ kept B.keeps ∷ kept C.keeps ∷ kept D.keeps ∷ kept E.keeps ∷ kept F.keeps ∷ kept G.keeps ∷ []) };
}

impl<
    T: Meant,
    U: Meant,
    V: Meant,
    W: Meant,
    X: Meant,
    Y: Meant,
    Z: Meant,
    S: Meant,
    A: SerializeAs<T>,
    B: SerializeAs<U>,
    C: SerializeAs<V>,
    D: SerializeAs<W>,
    E: SerializeAs<X>,
    F: SerializeAs<Y>,
    G: SerializeAs<Z>,
    H: SerializeAs<S>,
> SerializeAs<(T, U, V, W, X, Y, Z, S)> for (A, B, C, D, E, F, G, H) {
    ghost use Rattle.std.specs.Prelude.{[], ◌∷◌};
    ghost use Rattle.sw_core.specs.Tuple.{tuple_writes};

    ghost writes = { tuple_writes (A.writes ∷ B.writes ∷ C.writes ∷ D.writes ∷ E.writes ∷ F.writes ∷ G.writes ∷ H.writes ∷ []) };

    fn write_as<Out: Builds>(
        alloc: Global,
        out: &mut Out,
        source: &(T, U, V, W, X, Y, Z, S),
        mode: Mode,
    ) -> Result<(), SerFail> {
        let parts = (
            &source.0,
            (
                &source.1,
                (
                    &source.2,
                    (
                        &source.3,
                        (&source.4, (&source.5, (&source.6, (&source.7, ())))),
                    ),
                ),
            ),
        );
        write_tuple::<
            (&T, (&U, (&V, (&W, (&X, (&Y, (&Z, (&S, ())))))))),
            (A, (B, (C, (D, (E, (F, (G, (H, ())))))))),
            Out,
        >(alloc, out, 8, parts, mode)
    }
}

impl<
    T: Meant,
    U: Meant,
    V: Meant,
    W: Meant,
    X: Meant,
    Y: Meant,
    Z: Meant,
    S: Meant,
    A: DeserializeAs<T>,
    B: DeserializeAs<U>,
    C: DeserializeAs<V>,
    D: DeserializeAs<W>,
    E: DeserializeAs<X>,
    F: DeserializeAs<Y>,
    G: DeserializeAs<Z>,
    H: DeserializeAs<S>,
> DeserializeAs<(T, U, V, W, X, Y, Z, S)> for (A, B, C, D, E, F, G, H) {
    ghost use Rattle.std.specs.Prelude.{[], ◌∷◌, ◌&&◌};
    ghost use Rattle.sw_core.specs.Parts.{reading};
    ghost use Rattle.sw_core.specs.Tuple.{tuple_reads, tuple_spot, tuple_skips};
    ghost use Rattle.sw_core.specs.Laws.Parts.{read_by};
    ghost use Rattle.sw_core.specs.Laws.Tuple.{tuple_lawful};

    const FREE: bool = A::FREE
        && B::FREE
        && C::FREE
        && D::FREE
        && E::FREE
        && F::FREE
        && G::FREE
        && H::FREE;

    ghost FREE = { A.FREE && (B.FREE && (C.FREE && (D.FREE && (E.FREE && (F.FREE && (G.FREE && H.FREE)))))) };

    ghost reads = { tuple_reads (reading A.reads A.spot A.skips ∷ reading B.reads B.spot B.skips ∷ reading C.reads C.spot C.skips ∷ reading D.reads D.spot D.skips ∷ reading E.reads E.spot E.skips ∷ reading F.reads F.spot F.skips ∷ reading G.reads G.spot G.skips ∷ reading H.reads H.spot H.skips ∷ []) };

    ghost spot = { tuple_spot (reading A.reads A.spot A.skips ∷ reading B.reads B.spot B.skips ∷ reading C.reads C.spot C.skips ∷ reading D.reads D.spot D.skips ∷ reading E.reads E.spot E.skips ∷ reading F.reads F.spot F.skips ∷ reading G.reads G.spot G.skips ∷ reading H.reads H.spot H.skips ∷ []) };

    ghost skips = { tuple_skips (reading A.reads A.spot A.skips ∷ reading B.reads B.spot B.skips ∷ reading C.reads C.spot C.skips ∷ reading D.reads D.spot D.skips ∷ reading E.reads E.spot E.skips ∷ reading F.reads F.spot F.skips ∷ reading G.reads G.spot G.skips ∷ reading H.reads H.spot H.skips ∷ []) };

    fn deserialize_as(
        alloc: Global,
        view: View<'_>,
        mode: Mode,
        log: &mut Skipped,
    ) -> Result<(T, U, V, W, X, Y, Z, S), DeFail> {
        let parts = read_tuple::<
            (T, (U, (V, (W, (X, (Y, (Z, (S, ())))))))),
            (A, (B, (C, (D, (E, (F, (G, (H, ())))))))),
        >(alloc, view, mode, log)?;
        let (first, (second, (third, (fourth, (fifth, (sixth, (seventh, (eighth, ())))))))) = parts;
        Ok((first, second, third, fourth, fifth, sixth, seventh, eighth))
    }

    ghost lawful_reading = { tuple_lawful (read_by A.skips A.lawful_reading ∷ read_by B.skips B.lawful_reading ∷ read_by C.skips C.lawful_reading ∷ read_by D.skips D.lawful_reading ∷ read_by E.skips E.lawful_reading ∷ read_by F.skips F.lawful_reading ∷ read_by G.skips G.lawful_reading ∷ read_by H.skips H.lawful_reading ∷ []) };
}

impl<
    T: Meant,
    U: Meant,
    V: Meant,
    W: Meant,
    X: Meant,
    Y: Meant,
    Z: Meant,
    S: Meant,
    A: Adapter<T>,
    B: Adapter<U>,
    C: Adapter<V>,
    D: Adapter<W>,
    E: Adapter<X>,
    F: Adapter<Y>,
    G: Adapter<Z>,
    H: Adapter<S>,
> Adapter<(T, U, V, W, X, Y, Z, S)> for (A, B, C, D, E, F, G, H) {
    ghost use Rattle.std.specs.Prelude.{[], ◌∷◌};
    ghost use Rattle.sw_check.specs.Form.{tuple, forms};
    ghost use Rattle.sw_core.specs.Tuple.{tuple_norm, tuple_assumes};
    ghost use Rattle.sw_core.specs.Laws.Parts.{kept};
    ghost use Rattle.sw_core.specs.Laws.Tuple.{tuple_keeps};

    ghost expr = { tuple (forms (A.expr ∷ B.expr ∷ C.expr ∷ D.expr ∷ E.expr ∷ F.expr ∷ G.expr ∷ H.expr ∷ [])) };

    ghost norm = { tuple_norm (A.norm ∷ B.norm ∷ C.norm ∷ D.norm ∷ E.norm ∷ F.norm ∷ G.norm ∷ H.norm ∷ []) };

    ghost assumes = { tuple_assumes (A.assumes ∷ B.assumes ∷ C.assumes ∷ D.assumes ∷ E.assumes ∷ F.assumes ∷ G.assumes ∷ H.assumes ∷ []) };

    fn describe(alloc: Global) -> Result<Expr, AllocError> {
        let parts = with_part::<T, A>(alloc, ExprList::new(alloc))?;
        let parts = with_part::<U, B>(alloc, parts)?;
        let parts = with_part::<V, C>(alloc, parts)?;
        let parts = with_part::<W, D>(alloc, parts)?;
        let parts = with_part::<X, E>(alloc, parts)?;
        let parts = with_part::<Y, F>(alloc, parts)?;
        let parts = with_part::<Z, G>(alloc, parts)?;
        let parts = with_part::<S, H>(alloc, parts)?;
        Ok(Expr::tuple(parts))
    }

    ghost keeps = { tuple_keeps (kept A.keeps ∷ kept B.keeps ∷ kept C.keeps ∷ kept D.keeps ∷ kept E.keeps ∷ kept F.keeps ∷ kept G.keeps ∷ kept H.keeps ∷ []) };
}
