#![tactic(auto, using(sw_tree::specs::Laws::Logs::gains))]

ghost use Rattle.std.specs.Map.Iter.{deref};
ghost use Rattle.std.specs.Prelude.{◌≡◌, [], IfOk, map};
ghost use Rattle.sw_tree.specs.Sorted.{sort_keys_onto};

use crate::adapter::{Adapter, DeserializeAs, SerializeAs};
use crate::each;
use std::alloc::{AllocError, Global};
use std::collections::{BTreeSet, HashSet};
use std::hash::Hash;
use sw_check::expr::Expr;
use sw_tree::builds::Builds;
use sw_tree::fail::{DeFail, SerFail};
use sw_tree::mode::Mode;
use sw_tree::ranked::Ranked;
use sw_tree::skipped::Skipped;
use sw_tree::view::View;

/// A list of the items in ascending order, each by `A` in value place. So the tree doesn't tell how
/// the set is hashed.
///
/// The first part that isn't written decides. Without one, a list of which a part has 128 levels is
/// `TooDeep`.
impl<T: Ranked + Hash, A: SerializeAs<T> + Eq + Hash> SerializeAs<HashSet<T>> for HashSet<A> {
    ghost use Rattle.sw_core.specs.Vec.{list_writes};

    ghost writes = { list_writes A.writes };

    fn write_as<B: Builds>(
        alloc: Global,
        out: &mut B,
        source: &HashSet<T>,
        mode: Mode,
    ) -> Result<(), SerFail> {
        let sorted = in_order(alloc, source)?;
        each::write_list::<T, A, B, _>(alloc, out, sorted.len(), sorted.into_iter(), mode)
    }
}

/// The set of a list's items, each by `A` in value place. Of items that compare equal the first stays.
///
/// A node of another kind is refused as `InvalidType` of that kind; else the first item that is
/// refused decides, equal ones too.
impl<T: Ranked + Hash, A: DeserializeAs<T> + Eq + Hash> DeserializeAs<HashSet<T>> for HashSet<A> {
    ghost use Rattle.std.specs.Prelude.{false};
    ghost use Rattle.sw_core.specs.Set.{set_reads};
    ghost use Rattle.sw_core.specs.Vec.{list_spot, list_skips};
    ghost use Rattle.sw_core.specs.Laws.Set.{set_lawful};

    const FREE: bool = false;

    ghost FREE = { false };

    ghost reads = { set_reads T.order A.reads A.spot A.skips };

    ghost spot = { list_spot A.reads A.spot A.skips };

    ghost skips = { list_skips A.reads A.spot A.skips };

    fn deserialize_as(
        alloc: Global,
        view: View<'_>,
        mode: Mode,
        log: &mut Skipped,
    ) -> Result<HashSet<T>, DeFail> {
        let values = each::read_list::<T, A>(alloc, view, mode, log)?;
        Ok(hashed(alloc, values)?)
    }

    ghost lawful_reading = { set_lawful T.order T.ranks A.skips A.lawful_reading };
}

/// It is faithful where its items are exact: else two of them might be read as one.
impl<T: Ranked + Hash, A: Adapter<T> + Eq + Hash> Adapter<HashSet<T>> for HashSet<A> {
    ghost use Rattle.sw_check.specs.Form.{set};
    ghost use Rattle.sw_elem.specs.Lawful.{same_norm};
    ghost use Rattle.sw_core.specs.Laws.Set.{set_keeps};

    ghost expr = { set A.expr };

    ghost norm = { same_norm };

    ghost assumes = { A.assumes };

    fn describe(alloc: Global) -> Result<Expr, AllocError> {
        Expr::set(alloc, A::describe(alloc)?)
    }

    ghost keeps = { set_keeps T.order T.ranks A.keeps };
}

/// The items, lent, in their order.
pub fn in_order<'a, T: Ranked + Hash>(
    alloc: Global,
    source: &'a HashSet<T>,
) -> Result<BTreeSet<&'a T>, AllocError>
    ensures { IfOk result (λ sorted. map deref sorted.keys ≡ sort_keys_onto T.cmp [] source.now.keys) }
{
    let mut sorted = BTreeSet::new(alloc);
    for item in source.iter() {
        sorted.insert(item)?;
    }
    Ok(sorted)
}

/// The hashed set into which these values are put in turn.
pub fn hashed<T: Ranked + Hash>(alloc: Global, values: Vec<T>) -> Result<HashSet<T>, AllocError>
    ensures { IfOk result (λ set. sort_keys_onto T.cmp [] set.keys ≡ sort_keys_onto T.cmp [] values.items) }
{
    let mut set = HashSet::new(alloc);
    for value in values {
        set.insert(value)?;
    }
    Ok(set)
}
