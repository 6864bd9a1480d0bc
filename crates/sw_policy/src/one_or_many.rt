ghost use Rattle.std.specs.Prelude.{◌≡◌, [], ◌∷◌, MatchResult};

use crate::options::choose;
use crate::preference::{Preference, lone};
use std::alloc::{AllocError, Global};
use std::marker::PhantomData;
use sw_check::expr::Expr;
use sw_core::adapter::{Adapter, DeserializeAs, SerializeAs};
use sw_tree::builds::Builds;
use sw_tree::fail::{DeFail, SerFail};
use sw_tree::meant::Meant;
use sw_tree::mode::Mode;
use sw_tree::skipped::Skipped;
use sw_tree::view::View;

/// One value by itself or a list of values, each by `A` in value place, as serde_with's `OneOrMany`.
///
/// It stands over `Vec`, `VecDeque`, `LinkedList` and `BoxedSlice`, and over `BTreeSet` and `HashSet`, whose
/// items are written in ascending order; of equal items that are read the first stays.
///
/// Under `PreferOne` a collection of one element is written as that element, any other as a list;
/// under `PreferMany` each is a list. The first part that isn't written decides; without one, a list
/// of which a part has 128 levels is `TooDeep`.
///
/// Both formats read alike. The node is read by `A` as one that was set aside before (buffered), and
/// the value is the one element. Where `A` refuses it, the node is read as a list of items, each by
/// `A`, buffered too. Where both are refused, the node itself is refused as `NoVariant` of the kinds of the
/// two refusals, that of the one value first.
///
/// The log keeps what both readings have passed over. Want of memory of the first is the answer,
/// and no list is tried. No tree is copied.
#[derive(PartialEq, Eq, PartialOrd, Ord, Hash)]
pub struct OneOrMany<A, F> {
    part: PhantomData<A>,
    format: PhantomData<F>,
}

impl<T: Meant, A: SerializeAs<T>, F: Preference> SerializeAs<Vec<T>> for OneOrMany<A, F> {
    ghost use Rattle.sw_policy.specs.OneOrMany.{one_or_many_writes};

    ghost writes = { one_or_many_writes F.ALONE A.writes };

    fn write_as<B: Builds>(
        alloc: Global,
        out: &mut B,
        source: &Vec<T>,
        mode: Mode,
    ) -> Result<(), SerFail> {
        match lone::<T, F, _>(source.len(), source.iter()) {
            Some(item) => A::write_as(alloc, out, item, mode.value()),
            None => <Vec<A> as SerializeAs<Vec<T>>>::write_as(alloc, out, source, mode),
        }
    }
}

impl<T: Meant, A: DeserializeAs<T>, F: Preference> DeserializeAs<Vec<T>> for OneOrMany<A, F> {
    ghost use Rattle.std.specs.Prelude.{false};
    ghost use Rattle.sw_elem.specs.Equations.{own_spot};
    ghost use Rattle.sw_policy.specs.OneOrMany.{one_or_many_reads, one_or_many_skips};
    ghost use Rattle.sw_policy.specs.Laws.OneOrMany.{one_or_many_lawful};

    const FREE: bool = false;

    ghost FREE = { false };

    ghost reads = { one_or_many_reads A.reads A.spot A.skips };

    ghost spot = { own_spot };

    ghost skips = { one_or_many_skips A.reads A.spot A.skips };

    fn deserialize_as(
        alloc: Global,
        view: View<'_>,
        mode: Mode,
        log: &mut Skipped,
    ) -> Result<Vec<T>, DeFail> {
        choose::<Vec<T>, (Alone<A>, Vec<A>)>(alloc, view, mode, log)
    }

    ghost lawful_reading = { one_or_many_lawful A.skips A.lawful_reading };
}

/// It is as faithful as its part, buffered in value place: the norm of a list has its items' norms.
///
/// The part reads no list, where the expression is sound: so what is written as a list is read as one.
impl<T: Meant, A: Adapter<T>, F: Preference> Adapter<Vec<T>> for OneOrMany<A, F> {
    ghost use Rattle.sw_check.specs.Form.{one_or_many};
    ghost use Rattle.sw_policy.specs.OneOrMany.{one_or_many_norm};
    ghost use Rattle.sw_policy.specs.Laws.OneOrMany.{one_or_many_keeps};

    ghost expr = { one_or_many A.expr };

    ghost norm = { one_or_many_norm A.norm };

    ghost assumes = { A.assumes };

    fn describe(alloc: Global) -> Result<Expr, AllocError> {
        Expr::one_or_many(alloc, A::describe(alloc)?)
    }

    ghost keeps = { one_or_many_keeps A.keeps F.ALONE };
}

/// A list of one value, which is read by `A` from the node itself.
struct Alone<A> {
    part: PhantomData<A>,
}

impl<T: Meant, A: DeserializeAs<T>> DeserializeAs<Vec<T>> for Alone<A> {
    ghost use Rattle.std.specs.Prelude.{false};
    ghost use Rattle.sw_policy.specs.OneOrMany.{alone_reads, alone_spot, alone_skips};
    ghost use Rattle.sw_policy.specs.Laws.OneOrMany.{alone_lawful};

    const FREE: bool = false;

    ghost FREE = { false };

    ghost reads = { alone_reads A.reads };

    ghost spot = { alone_spot A.spot };

    ghost skips = { alone_skips A.skips };

    fn deserialize_as(
        alloc: Global,
        view: View<'_>,
        mode: Mode,
        log: &mut Skipped,
    ) -> Result<Vec<T>, DeFail> {
        match A::deserialize_as(alloc, view, mode.value(), log) {
            Ok(value) => list_of_one(alloc, value),
            Err(DeFail::Refused(refusal)) => Err(DeFail::Refused(refusal)),
            Err(DeFail::Memory) => Err(DeFail::Memory),
        }
    }

    ghost lawful_reading = { alone_lawful A.lawful_reading };
}

/// The list of that value alone.
fn list_of_one<T: Drop>(alloc: Global, value: T) -> Result<Vec<T>, DeFail>
    ensures { MatchResult result (λ v. v.items ≡ value ∷ []) (λ e. e ≡ DeFail.Memory) }
{
    let mut values = Vec::new(alloc);
    match values.push(value) {
        Ok(()) => Ok(values),
        Err(_) => Err(DeFail::Memory),
    }
}
