#![tactic(auto, using(sw_tree::specs::Laws::Logs::gains))]

ghost use Rattle.std.specs.Prelude.{◌≡◌, [], IfOk};
ghost use Rattle.sw_tree.specs.Sorted.{sort_keys_onto};

use crate::adapter::{Adapter, DeserializeAs, SerializeAs};
use crate::each;
use std::alloc::{AllocError, Global};
use std::collections::BTreeSet;
use sw_check::expr::Expr;
use sw_tree::builds::Builds;
use sw_tree::fail::{DeFail, SerFail};
use sw_tree::meant::Meant;
use sw_tree::mode::Mode;
use sw_tree::ranked::Ranked;
use sw_tree::skipped::Skipped;
use sw_tree::view::View;

/// A list of the items in ascending order, each by `A` in value place.
///
/// The first part that isn't written decides. Without one, a list of which a part has 128 levels is
/// `TooDeep`.
impl<T: Ranked, A: SerializeAs<T> + Ord> SerializeAs<BTreeSet<T>> for BTreeSet<A> {
    ghost use Rattle.sw_core.specs.Vec.{list_writes};

    ghost writes = { list_writes A.writes };

    fn write_as<B: Builds>(
        alloc: Global,
        out: &mut B,
        source: &BTreeSet<T>,
        mode: Mode,
    ) -> Result<(), SerFail> {
        each::write_list::<T, A, B, _>(alloc, out, source.len(), source.iter(), mode)
    }
}

/// The set of a list's items, each by `A` in value place. Of items that compare equal the first stays.
///
/// A node of another kind is refused as `InvalidType` of that kind; else the first item that is
/// refused decides, equal ones too.
impl<T: Ranked, A: DeserializeAs<T> + Ord> DeserializeAs<BTreeSet<T>> for BTreeSet<A> {
    ghost use Rattle.std.specs.Prelude.{false};
    ghost use Rattle.sw_core.specs.Set.{set_reads};
    ghost use Rattle.sw_core.specs.Vec.{list_spot, list_skips};
    ghost use Rattle.sw_core.specs.Laws.Set.{set_lawful};

    const FREE: bool = false;

    ghost FREE = { false };

    ghost reads = { set_reads T.order A.reads A.spot A.skips };

    ghost spot = { list_spot A.reads A.spot A.skips };

    ghost skips = { list_skips A.reads A.spot A.skips };

    fn deserialize_as(
        alloc: Global,
        view: View<'_>,
        mode: Mode,
        log: &mut Skipped,
    ) -> Result<BTreeSet<T>, DeFail> {
        let values = each::read_list::<T, A>(alloc, view, mode, log)?;
        Ok(put_in_order(alloc, values)?)
    }

    ghost lawful_reading = { set_lawful T.order T.ranks A.skips A.lawful_reading };
}

/// It is faithful where its items are exact: else two of them might be read as one.
impl<T: Ranked, A: Adapter<T> + Ord> Adapter<BTreeSet<T>> for BTreeSet<A> {
    ghost use Rattle.sw_check.specs.Form.{set};
    ghost use Rattle.sw_elem.specs.Lawful.{same_norm};
    ghost use Rattle.sw_core.specs.Laws.Set.{set_keeps};

    ghost expr = { set A.expr };

    ghost norm = { same_norm };

    ghost assumes = { A.assumes };

    fn describe(alloc: Global) -> Result<Expr, AllocError> {
        Expr::set(alloc, A::describe(alloc)?)
    }

    ghost keeps = { set_keeps T.order T.ranks A.keeps };
}

/// The set into which these values are put in turn.
pub fn put_in_order<T: Ranked>(alloc: Global, values: Vec<T>) -> Result<BTreeSet<T>, AllocError>
    ensures { IfOk result (λ set. set.keys ≡ sort_keys_onto T.cmp [] values.items) }
{
    let mut set = BTreeSet::new(alloc);
    for value in values {
        set.insert(value)?;
    }
    Ok(set)
}
