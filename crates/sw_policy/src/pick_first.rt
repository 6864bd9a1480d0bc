ghost use Rattle.std.specs.Prelude.{◌≡◌, ◌<◌, [], ◌∷◌, ◌++◌, length, IfOk};

use crate::options::choose;
use std::alloc::{AllocError, Global};
use std::marker::PhantomData;
use sw_check::expr::Expr;
use sw_check::exprs::ExprList;
use sw_core::adapter::{Adapter, DeserializeAs, SerializeAs};
use sw_tree::builds::Builds;
use sw_tree::fail::{DeFail, SerFail};
use sw_tree::meant::Meant;
use sw_tree::mode::Mode;
use sw_tree::skipped::Skipped;
use sw_tree::view::View;

/// The first of one to four options that reads, as serde_with's `PickFirst`: `O` is a tuple of adapters
/// of one type.
///
/// It writes what its first option writes. Of two to four options each is tried in order on the same
/// node, as one that was set aside before (buffered); the first value is the answer. Where all are
/// refused, the node itself is refused as `NoVariant` of the refusals' kinds in order. A single option
/// reads in the mode as it is, and its refusal is the answer.
///
/// The log keeps what the options that were tried have passed over. Want of memory of an option is
/// the answer, and no further one is tried. No tree is copied: where all options are `FREE`, so is
/// the choice.
#[derive(PartialEq, Eq, PartialOrd, Ord, Hash)]
pub struct PickFirst<O> {
    options: PhantomData<O>,
}

impl<T: Meant, A: SerializeAs<T>> SerializeAs<T> for PickFirst<(A,)> {
    ghost writes = { A.writes };

    fn write_as<W: Builds>(
        alloc: Global,
        out: &mut W,
        source: &T,
        mode: Mode,
    ) -> Result<(), SerFail> {
        A::write_as(alloc, out, source, mode)
    }
}

impl<T: Meant, A: DeserializeAs<T>> DeserializeAs<T> for PickFirst<(A,)> {
    const FREE: bool = A::FREE;

    ghost FREE = { A.FREE };

    ghost reads = { A.reads };

    ghost spot = { A.spot };

    ghost skips = { A.skips };

    fn deserialize_as(
        alloc: Global,
        view: View<'_>,
        mode: Mode,
        log: &mut Skipped,
    ) -> Result<T, DeFail> {
        A::deserialize_as(alloc, view, mode, log)
    }

    ghost lawful_reading = { A.lawful_reading };
}

impl<T: Meant, A: SerializeAs<T>, B: SerializeAs<T>> SerializeAs<T> for PickFirst<(A, B)> {
    ghost writes = { A.writes };

    fn write_as<W: Builds>(
        alloc: Global,
        out: &mut W,
        source: &T,
        mode: Mode,
    ) -> Result<(), SerFail> {
        A::write_as(alloc, out, source, mode)
    }
}

impl<T: Meant, A: DeserializeAs<T>, B: DeserializeAs<T>> DeserializeAs<T> for PickFirst<(A, B)> {
    ghost use Rattle.std.specs.Prelude.{[], ◌∷◌, ◌&&◌};
    ghost use Rattle.sw_elem.specs.Equations.{own_spot};
    ghost use Rattle.sw_policy.specs.Options.{reader};
    ghost use Rattle.sw_policy.specs.PickFirst.{pick_reads, pick_skips};
    ghost use Rattle.sw_policy.specs.Laws.PickFirst.{pick_two_lawful};

    const FREE: bool = A::FREE && B::FREE;

    ghost FREE = { A.FREE && B.FREE };

    ghost reads = { pick_reads (reader A.reads A.skips ∷ reader B.reads B.skips ∷ []) };

    ghost spot = { own_spot };

    ghost skips = { pick_skips (reader A.reads A.skips ∷ reader B.reads B.skips ∷ []) };

    fn deserialize_as(
        alloc: Global,
        view: View<'_>,
        mode: Mode,
        log: &mut Skipped,
    ) -> Result<T, DeFail> {
        choose::<T, (A, B)>(alloc, view, mode, log)
    }

    ghost lawful_reading = { pick_two_lawful A.skips A.lawful_reading B.skips B.lawful_reading };
}

impl<T: Meant, A: SerializeAs<T>, B: SerializeAs<T>, C: SerializeAs<T>> SerializeAs<T>
    for PickFirst<(A, B, C)> {
    ghost writes = { A.writes };

    fn write_as<W: Builds>(
        alloc: Global,
        out: &mut W,
        source: &T,
        mode: Mode,
    ) -> Result<(), SerFail> {
        A::write_as(alloc, out, source, mode)
    }
}

impl<T: Meant, A: DeserializeAs<T>, B: DeserializeAs<T>, C: DeserializeAs<T>> DeserializeAs<T>
    for PickFirst<(A, B, C)> {
    ghost use Rattle.std.specs.Prelude.{[], ◌∷◌, ◌&&◌};
    ghost use Rattle.sw_elem.specs.Equations.{own_spot};
    ghost use Rattle.sw_policy.specs.Options.{reader};
    ghost use Rattle.sw_policy.specs.PickFirst.{pick_reads, pick_skips};
    ghost use Rattle.sw_policy.specs.Laws.PickFirst.{pick_three_lawful};

    const FREE: bool = A::FREE && B::FREE && C::FREE;

    ghost FREE = { A.FREE && (B.FREE && C.FREE) };

    ghost reads = { pick_reads (reader A.reads A.skips ∷ reader B.reads B.skips ∷ reader C.reads C.skips ∷ []) };

    ghost spot = { own_spot };

    ghost skips = { pick_skips (reader A.reads A.skips ∷ reader B.reads B.skips ∷ reader C.reads C.skips ∷ []) };

    fn deserialize_as(
        alloc: Global,
        view: View<'_>,
        mode: Mode,
        log: &mut Skipped,
    ) -> Result<T, DeFail> {
        choose::<T, (A, B, C)>(alloc, view, mode, log)
    }

    ghost lawful_reading = { pick_three_lawful A.skips A.lawful_reading B.skips B.lawful_reading C.skips C.lawful_reading };
}

impl<
    T: Meant,
    A: SerializeAs<T>,
    B: SerializeAs<T>,
    C: SerializeAs<T>,
    D: SerializeAs<T>,
> SerializeAs<T> for PickFirst<(A, B, C, D)> {
    ghost writes = { A.writes };

    fn write_as<W: Builds>(
        alloc: Global,
        out: &mut W,
        source: &T,
        mode: Mode,
    ) -> Result<(), SerFail> {
        A::write_as(alloc, out, source, mode)
    }
}

impl<
    T: Meant,
    A: DeserializeAs<T>,
    B: DeserializeAs<T>,
    C: DeserializeAs<T>,
    D: DeserializeAs<T>,
> DeserializeAs<T> for PickFirst<(A, B, C, D)> {
    ghost use Rattle.std.specs.Prelude.{[], ◌∷◌, ◌&&◌};
    ghost use Rattle.sw_elem.specs.Equations.{own_spot};
    ghost use Rattle.sw_policy.specs.Options.{reader};
    ghost use Rattle.sw_policy.specs.PickFirst.{pick_reads, pick_skips};
    ghost use Rattle.sw_policy.specs.Laws.PickFirst.{pick_four_lawful};

    const FREE: bool = A::FREE && B::FREE && C::FREE && D::FREE;

    ghost FREE = { A.FREE && (B.FREE && (C.FREE && D.FREE)) };

    ghost reads = { pick_reads (reader A.reads A.skips ∷ reader B.reads B.skips ∷ reader C.reads C.skips ∷ reader D.reads D.skips ∷ []) };

    ghost spot = { own_spot };

    ghost skips = { pick_skips (reader A.reads A.skips ∷ reader B.reads B.skips ∷ reader C.reads C.skips ∷ reader D.reads D.skips ∷ []) };

    fn deserialize_as(
        alloc: Global,
        view: View<'_>,
        mode: Mode,
        log: &mut Skipped,
    ) -> Result<T, DeFail> {
        choose::<T, (A, B, C, D)>(alloc, view, mode, log)
    }

    ghost lawful_reading = { pick_four_lawful A.skips A.lawful_reading B.skips B.lawful_reading C.skips C.lawful_reading D.skips D.lawful_reading };
}

/// The choice of one is as faithful as that option.
impl<T: Meant, A: Adapter<T>> Adapter<T> for PickFirst<(A,)> {
    ghost use Rattle.sw_check.specs.Form.{pick_first, no_forms};
    ghost use Rattle.sw_policy.specs.Laws.PickFirst.{pick_one_keeps};

    ghost expr = { pick_first A.expr no_forms };

    ghost norm = { A.norm };

    ghost assumes = { A.assumes };

    fn describe(alloc: Global) -> Result<Expr, AllocError> {
        let options = with_option::<T, A>(alloc, ExprList::new(alloc))?;
        Ok(Expr::pick_first(options))
    }

    ghost keeps = { pick_one_keeps A.keeps };
}

/// As faithful as the first option, buffered: it reads what it has written before another is tried.
impl<T: Meant, A: Adapter<T>, B: Adapter<T>> Adapter<T> for PickFirst<(A, B)> {
    ghost use Rattle.std.specs.Prelude.{[], ◌∷◌};
    ghost use Rattle.sw_check.specs.Form.{pick_first, forms};
    ghost use Rattle.sw_policy.specs.PickFirst.{pick_norm};
    ghost use Rattle.sw_policy.specs.Laws.PickFirst.{pick_two_keeps};

    ghost expr = { pick_first A.expr (forms (B.expr ∷ [])) };

    ghost norm = { pick_norm A.norm };

    ghost assumes = { A.assumes × B.assumes };

    fn describe(alloc: Global) -> Result<Expr, AllocError> {
        let options = with_option::<T, A>(alloc, ExprList::new(alloc))?;
        let options = with_option::<T, B>(alloc, options)?;
        Ok(Expr::pick_first(options))
    }

    ghost keeps = { pick_two_keeps A.keeps B.keeps };
}

/// As of two options.
impl<T: Meant, A: Adapter<T>, B: Adapter<T>, C: Adapter<T>> Adapter<T> for PickFirst<(A, B, C)> {
    ghost use Rattle.std.specs.Prelude.{[], ◌∷◌};
    ghost use Rattle.sw_check.specs.Form.{pick_first, forms};
    ghost use Rattle.sw_policy.specs.PickFirst.{pick_norm};
    ghost use Rattle.sw_policy.specs.Laws.PickFirst.{pick_three_keeps};

    ghost expr = { pick_first A.expr (forms (B.expr ∷ C.expr ∷ [])) };

    ghost norm = { pick_norm A.norm };

    ghost assumes = { A.assumes × B.assumes × C.assumes };

    fn describe(alloc: Global) -> Result<Expr, AllocError> {
        let options = with_option::<T, A>(alloc, ExprList::new(alloc))?;
        let options = with_option::<T, B>(alloc, options)?;
        let options = with_option::<T, C>(alloc, options)?;
        Ok(Expr::pick_first(options))
    }

    ghost keeps = { pick_three_keeps A.keeps B.keeps C.keeps };
}

/// As of two options.
impl<T: Meant, A: Adapter<T>, B: Adapter<T>, C: Adapter<T>, D: Adapter<T>> Adapter<T>
    for PickFirst<(A, B, C, D)> {
    ghost use Rattle.std.specs.Prelude.{[], ◌∷◌};
    ghost use Rattle.sw_check.specs.Form.{pick_first, forms};
    ghost use Rattle.sw_policy.specs.PickFirst.{pick_norm};
    ghost use Rattle.sw_policy.specs.Laws.PickFirst.{pick_four_keeps};

    ghost expr = { pick_first A.expr (forms (B.expr ∷ C.expr ∷ D.expr ∷ [])) };

    ghost norm = { pick_norm A.norm };

    ghost assumes = { A.assumes × B.assumes × C.assumes × D.assumes };

    fn describe(alloc: Global) -> Result<Expr, AllocError> {
        let options = with_option::<T, A>(alloc, ExprList::new(alloc))?;
        let options = with_option::<T, B>(alloc, options)?;
        let options = with_option::<T, C>(alloc, options)?;
        let options = with_option::<T, D>(alloc, options)?;
        Ok(Expr::pick_first(options))
    }

    ghost keeps = { pick_four_keeps A.keeps B.keeps C.keeps D.keeps };
}

/// The options, and `A`'s expression behind them.
fn with_option<T: Meant, A: Adapter<T>>(
    alloc: Global,
    mut options: ExprList,
) -> Result<ExprList, AllocError>
    requires room { length options < 65535 }
    ensures { IfOk result (λ list. list ≡ options ++ A.expr ∷ []) }
{
    options.push(A::describe(alloc)?)?;
    Ok(options)
}
