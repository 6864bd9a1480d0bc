//! `OneOrMany` over sets.
#![tactic(auto, using(sw_tree::specs::Laws::Logs::gains))]

use crate::one_or_many::OneOrMany;
use crate::preference::{Preference, lone};
use std::alloc::{AllocError, Global};
use std::collections::{BTreeSet, HashSet};
use std::hash::Hash;
use sw_check::expr::Expr;
use sw_core::adapter::{Adapter, DeserializeAs, SerializeAs};
use sw_core::hashed_set::hashed;
use sw_core::ordered_set::put_in_order;
use sw_tree::builds::Builds;
use sw_tree::fail::{DeFail, SerFail};
use sw_tree::mode::Mode;
use sw_tree::ranked::Ranked;
use sw_tree::skipped::Skipped;
use sw_tree::view::View;

/// Writes a set of one item as that item under `PreferOne`, any other as the list of its items in
/// ascending order.
///
/// The first part that isn't written decides; without one, a list of which a part has 128 levels is
/// `TooDeep`.
impl<T: Ranked, A: SerializeAs<T> + Ord, F: Preference> SerializeAs<BTreeSet<T>>
    for OneOrMany<A, F> {
    ghost use Rattle.sw_policy.specs.OneOrMany.{one_or_many_writes};

    ghost writes = { one_or_many_writes F.ALONE A.writes };

    fn write_as<B: Builds>(
        alloc: Global,
        out: &mut B,
        source: &BTreeSet<T>,
        mode: Mode,
    ) -> Result<(), SerFail> {
        match lone::<T, F, _>(source.len(), source.iter()) {
            Some(item) => A::write_as(alloc, out, item, mode.value()),
            None => <BTreeSet<A> as SerializeAs<BTreeSet<T>>>::write_as(alloc, out, source, mode),
        }
    }
}

/// The set of the one item, or of a list's items. Of items that compare equal the first stays.
///
/// It is refused as a `Vec` is: equal items that are refused decide too.
impl<T: Ranked, A: DeserializeAs<T>, F: Preference> DeserializeAs<BTreeSet<T>> for OneOrMany<A, F> {
    ghost use Rattle.std.specs.Prelude.{false};
    ghost use Rattle.sw_elem.specs.Equations.{own_spot};
    ghost use Rattle.sw_policy.specs.OneOrMany.{one_or_many_skips};
    ghost use Rattle.sw_policy.specs.OneOrManySet.{one_or_many_set_reads};
    ghost use Rattle.sw_policy.specs.Laws.OneOrManySet.{one_or_many_set_lawful};

    const FREE: bool = false;

    ghost FREE = { false };

    ghost reads = { one_or_many_set_reads T.order A.reads A.spot A.skips };

    ghost spot = { own_spot };

    ghost skips = { one_or_many_skips A.reads A.spot A.skips };

    fn deserialize_as(
        alloc: Global,
        view: View<'_>,
        mode: Mode,
        log: &mut Skipped,
    ) -> Result<BTreeSet<T>, DeFail> {
        let values = <Self as DeserializeAs<Vec<T>>>::deserialize_as(alloc, view, mode, log)?;
        Ok(put_in_order(alloc, values)?)
    }

    ghost lawful_reading = { one_or_many_set_lawful T.order T.ranks A.skips A.lawful_reading };
}

/// It is faithful where its items, buffered, are exact: else two of them might be read as one.
///
/// The part reads no list, where the expression is sound: so what is written as a list is read as one.
impl<T: Ranked, A: Adapter<T> + Ord, F: Preference> Adapter<BTreeSet<T>> for OneOrMany<A, F> {
    ghost use Rattle.sw_check.specs.Form.{one_or_many_set};
    ghost use Rattle.sw_elem.specs.Lawful.{same_norm};
    ghost use Rattle.sw_policy.specs.Laws.OneOrManySet.{one_or_many_set_keeps};

    ghost expr = { one_or_many_set A.expr };

    ghost norm = { same_norm };

    ghost assumes = { A.assumes };

    fn describe(alloc: Global) -> Result<Expr, AllocError> {
        Expr::one_or_many_set(alloc, A::describe(alloc)?)
    }

    ghost keeps = { one_or_many_set_keeps T.order T.ranks A.keeps F.ALONE };
}

/// Writes a set of one item as that item under `PreferOne`, any other as the list of its items in
/// ascending order. So the tree doesn't tell how the
/// set is hashed.
///
/// The first part that isn't written decides; without one, a list of which a part has 128 levels is
/// `TooDeep`.
impl<T: Ranked + Hash, A: SerializeAs<T> + Eq + Hash, F: Preference> SerializeAs<HashSet<T>>
    for OneOrMany<A, F> {
    ghost use Rattle.sw_policy.specs.OneOrMany.{one_or_many_writes};

    ghost writes = { one_or_many_writes F.ALONE A.writes };

    fn write_as<B: Builds>(
        alloc: Global,
        out: &mut B,
        source: &HashSet<T>,
        mode: Mode,
    ) -> Result<(), SerFail> {
        match lone::<T, F, _>(source.len(), source.iter()) {
            Some(item) => A::write_as(alloc, out, item, mode.value()),
            None => <HashSet<A> as SerializeAs<HashSet<T>>>::write_as(alloc, out, source, mode),
        }
    }
}

/// The set of the one item, or of a list's items. Of items that compare equal the first stays.
///
/// It is refused as a `Vec` is: equal items that are refused decide too.
impl<T: Ranked + Hash, A: DeserializeAs<T>, F: Preference> DeserializeAs<HashSet<T>>
    for OneOrMany<A, F> {
    ghost use Rattle.std.specs.Prelude.{false};
    ghost use Rattle.sw_elem.specs.Equations.{own_spot};
    ghost use Rattle.sw_policy.specs.OneOrMany.{one_or_many_skips};
    ghost use Rattle.sw_policy.specs.OneOrManySet.{one_or_many_set_reads};
    ghost use Rattle.sw_policy.specs.Laws.OneOrManySet.{one_or_many_set_lawful};

    const FREE: bool = false;

    ghost FREE = { false };

    ghost reads = { one_or_many_set_reads T.order A.reads A.spot A.skips };

    ghost spot = { own_spot };

    ghost skips = { one_or_many_skips A.reads A.spot A.skips };

    fn deserialize_as(
        alloc: Global,
        view: View<'_>,
        mode: Mode,
        log: &mut Skipped,
    ) -> Result<HashSet<T>, DeFail> {
        let values = <Self as DeserializeAs<Vec<T>>>::deserialize_as(alloc, view, mode, log)?;
        Ok(hashed(alloc, values)?)
    }

    ghost lawful_reading = { one_or_many_set_lawful T.order T.ranks A.skips A.lawful_reading };
}

/// It is faithful where its items, buffered, are exact: else two of them might be read as one.
///
/// The part reads no list, where the expression is sound: so what is written as a list is read as one.
impl<T: Ranked + Hash, A: Adapter<T> + Eq + Hash, F: Preference> Adapter<HashSet<T>>
    for OneOrMany<A, F> {
    ghost use Rattle.sw_check.specs.Form.{one_or_many_set};
    ghost use Rattle.sw_elem.specs.Lawful.{same_norm};
    ghost use Rattle.sw_policy.specs.Laws.OneOrManySet.{one_or_many_set_keeps};

    ghost expr = { one_or_many_set A.expr };

    ghost norm = { same_norm };

    ghost assumes = { A.assumes };

    fn describe(alloc: Global) -> Result<Expr, AllocError> {
        Expr::one_or_many_set(alloc, A::describe(alloc)?)
    }

    ghost keeps = { one_or_many_set_keeps T.order T.ranks A.keeps F.ALONE };
}
