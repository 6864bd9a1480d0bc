//! `OneOrMany` over the other lists.
#![tactic(auto, using(sw_tree::specs::Laws::Logs::gains))]

use crate::one_or_many::OneOrMany;
use crate::preference::{Preference, lone};
use std::alloc::{AllocError, Global};
use std::boxed::BoxedSlice;
use std::collections::{LinkedList, VecDeque};
use sw_check::expr::Expr;
use sw_core::adapter::{Adapter, DeserializeAs, SerializeAs};
use sw_core::linked::linked;
use sw_tree::builds::Builds;
use sw_tree::fail::{DeFail, SerFail};
use sw_tree::meant::Meant;
use sw_tree::mode::Mode;
use sw_tree::skipped::Skipped;
use sw_tree::view::View;

/// Writes a double-ended queue of one item as that item under `PreferOne`, any other as the list of its
/// items from front to back.
///
/// The first part that isn't written decides; without one, a list of which a part has 128 levels is
/// `TooDeep`.
impl<T: Meant, A: SerializeAs<T>, F: Preference> SerializeAs<VecDeque<T>> for OneOrMany<A, F> {
    ghost use Rattle.sw_policy.specs.OneOrMany.{one_or_many_writes};

    ghost writes = { one_or_many_writes F.ALONE A.writes };

    fn write_as<B: Builds>(
        alloc: Global,
        out: &mut B,
        source: &VecDeque<T>,
        mode: Mode,
    ) -> Result<(), SerFail> {
        match lone::<T, F, _>(source.len(), source.iter()) {
            Some(item) => A::write_as(alloc, out, item, mode.value()),
            None => <VecDeque<A> as SerializeAs<VecDeque<T>>>::write_as(alloc, out, source, mode),
        }
    }
}

/// A queue of the one item, or of a list's items from front to back.
///
/// It is read and refused as a `Vec` is.
impl<T: Meant, A: DeserializeAs<T>, F: Preference> DeserializeAs<VecDeque<T>> for OneOrMany<A, F> {
    ghost use Rattle.std.specs.Prelude.{false};
    ghost use Rattle.sw_elem.specs.Equations.{own_spot};
    ghost use Rattle.sw_policy.specs.OneOrMany.{one_or_many_reads, one_or_many_skips};
    ghost use Rattle.sw_policy.specs.Laws.OneOrMany.{one_or_many_lawful};

    const FREE: bool = false;

    ghost FREE = { false };

    ghost reads = { one_or_many_reads A.reads A.spot A.skips };

    ghost spot = { own_spot };

    ghost skips = { one_or_many_skips A.reads A.spot A.skips };

    fn deserialize_as(
        alloc: Global,
        view: View<'_>,
        mode: Mode,
        log: &mut Skipped,
    ) -> Result<VecDeque<T>, DeFail> {
        let values = <Self as DeserializeAs<Vec<T>>>::deserialize_as(alloc, view, mode, log)?;
        Ok(VecDeque::from_vec(values))
    }

    ghost lawful_reading = { one_or_many_lawful A.skips A.lawful_reading };
}

/// It is as faithful as a `Vec` is.
impl<T: Meant, A: Adapter<T>, F: Preference> Adapter<VecDeque<T>> for OneOrMany<A, F> {
    ghost use Rattle.sw_check.specs.Form.{one_or_many};
    ghost use Rattle.sw_policy.specs.OneOrMany.{one_or_many_norm};
    ghost use Rattle.sw_policy.specs.Laws.OneOrMany.{one_or_many_keeps};

    ghost expr = { one_or_many A.expr };

    ghost norm = { one_or_many_norm A.norm };

    ghost assumes = { A.assumes };

    fn describe(alloc: Global) -> Result<Expr, AllocError> {
        Expr::one_or_many(alloc, A::describe(alloc)?)
    }

    ghost keeps = { one_or_many_keeps A.keeps F.ALONE };
}

/// Writes a linked list of one item as that item under `PreferOne`, any other as the list of its items
/// from front to back.
///
/// The first part that isn't written decides; without one, a list of which a part has 128 levels is
/// `TooDeep`.
impl<T: Meant, A: SerializeAs<T>, F: Preference> SerializeAs<LinkedList<T>> for OneOrMany<A, F> {
    ghost use Rattle.sw_policy.specs.OneOrMany.{one_or_many_writes};

    ghost writes = { one_or_many_writes F.ALONE A.writes };

    fn write_as<B: Builds>(
        alloc: Global,
        out: &mut B,
        source: &LinkedList<T>,
        mode: Mode,
    ) -> Result<(), SerFail> {
        match lone::<T, F, _>(source.len(), source.iter()) {
            Some(item) => A::write_as(alloc, out, item, mode.value()),
            None => <LinkedList<A> as SerializeAs<LinkedList<T>>>::write_as(
                alloc, out, source, mode,
            ),
        }
    }
}

/// A linked list of the one item, or of a list's items from front to back.
///
/// It is read and refused as a `Vec` is.
impl<T: Meant, A: DeserializeAs<T>, F: Preference> DeserializeAs<LinkedList<T>>
    for OneOrMany<A, F> {
    ghost use Rattle.std.specs.Prelude.{false};
    ghost use Rattle.sw_elem.specs.Equations.{own_spot};
    ghost use Rattle.sw_policy.specs.OneOrMany.{one_or_many_reads, one_or_many_skips};
    ghost use Rattle.sw_policy.specs.Laws.OneOrMany.{one_or_many_lawful};

    const FREE: bool = false;

    ghost FREE = { false };

    ghost reads = { one_or_many_reads A.reads A.spot A.skips };

    ghost spot = { own_spot };

    ghost skips = { one_or_many_skips A.reads A.spot A.skips };

    fn deserialize_as(
        alloc: Global,
        view: View<'_>,
        mode: Mode,
        log: &mut Skipped,
    ) -> Result<LinkedList<T>, DeFail> {
        let values = <Self as DeserializeAs<Vec<T>>>::deserialize_as(alloc, view, mode, log)?;
        Ok(linked(alloc, values)?)
    }

    ghost lawful_reading = { one_or_many_lawful A.skips A.lawful_reading };
}

/// It is as faithful as a `Vec` is.
impl<T: Meant, A: Adapter<T>, F: Preference> Adapter<LinkedList<T>> for OneOrMany<A, F> {
    ghost use Rattle.sw_check.specs.Form.{one_or_many};
    ghost use Rattle.sw_policy.specs.OneOrMany.{one_or_many_norm};
    ghost use Rattle.sw_policy.specs.Laws.OneOrMany.{one_or_many_keeps};

    ghost expr = { one_or_many A.expr };

    ghost norm = { one_or_many_norm A.norm };

    ghost assumes = { A.assumes };

    fn describe(alloc: Global) -> Result<Expr, AllocError> {
        Expr::one_or_many(alloc, A::describe(alloc)?)
    }

    ghost keeps = { one_or_many_keeps A.keeps F.ALONE };
}

/// Writes a boxed slice of one item as that item under `PreferOne`, any other as the list of its items.
///
/// The first part that isn't written decides; without one, a list of which a part has 128 levels is
/// `TooDeep`.
impl<T: Meant, A: SerializeAs<T>, F: Preference> SerializeAs<BoxedSlice<T>> for OneOrMany<A, F> {
    ghost use Rattle.sw_policy.specs.OneOrMany.{one_or_many_writes};

    ghost writes = { one_or_many_writes F.ALONE A.writes };

    fn write_as<B: Builds>(
        alloc: Global,
        out: &mut B,
        source: &BoxedSlice<T>,
        mode: Mode,
    ) -> Result<(), SerFail> {
        match lone::<T, F, _>(source.len(), source.as_slice().iter()) {
            Some(item) => A::write_as(alloc, out, item, mode.value()),
            None => <BoxedSlice<A> as SerializeAs<BoxedSlice<T>>>::write_as(
                alloc, out, source, mode,
            ),
        }
    }
}

/// A boxed slice of the one item, or of a list's items.
///
/// It is read and refused as a `Vec` is.
impl<T: Meant, A: DeserializeAs<T>, F: Preference> DeserializeAs<BoxedSlice<T>>
    for OneOrMany<A, F> {
    ghost use Rattle.std.specs.Prelude.{false};
    ghost use Rattle.sw_elem.specs.Equations.{own_spot};
    ghost use Rattle.sw_policy.specs.OneOrMany.{one_or_many_reads, one_or_many_skips};
    ghost use Rattle.sw_policy.specs.Laws.OneOrMany.{one_or_many_lawful};

    const FREE: bool = false;

    ghost FREE = { false };

    ghost reads = { one_or_many_reads A.reads A.spot A.skips };

    ghost spot = { own_spot };

    ghost skips = { one_or_many_skips A.reads A.spot A.skips };

    fn deserialize_as(
        alloc: Global,
        view: View<'_>,
        mode: Mode,
        log: &mut Skipped,
    ) -> Result<BoxedSlice<T>, DeFail> {
        let values = <Self as DeserializeAs<Vec<T>>>::deserialize_as(alloc, view, mode, log)?;
        Ok(values.into_boxed_slice())
    }

    ghost lawful_reading = { one_or_many_lawful A.skips A.lawful_reading };
}

/// It is as faithful as a `Vec` is.
impl<T: Meant, A: Adapter<T>, F: Preference> Adapter<BoxedSlice<T>> for OneOrMany<A, F> {
    ghost use Rattle.sw_check.specs.Form.{one_or_many};
    ghost use Rattle.sw_policy.specs.OneOrMany.{one_or_many_norm};
    ghost use Rattle.sw_policy.specs.Laws.OneOrMany.{one_or_many_keeps};

    ghost expr = { one_or_many A.expr };

    ghost norm = { one_or_many_norm A.norm };

    ghost assumes = { A.assumes };

    fn describe(alloc: Global) -> Result<Expr, AllocError> {
        Expr::one_or_many(alloc, A::describe(alloc)?)
    }

    ghost keeps = { one_or_many_keeps A.keeps F.ALONE };
}
